// Steps a to j: the table of `specs/Steps.antt`, as arrays of rows that compute to it.
ghost use Rattle.std.specs.Prelude.{◌≡◌, map, ◌≤◌};
ghost use Rattle.octets.specs.Tests.{first_of};
ghost use Rattle.refusals.specs.Refusals.{code_in};
ghost use Rattle.rules.specs.Steps.{row_of, steps_to_h, steps_from_i};

use keys::orders::ends_clear;
use refusals::statuses::Status;
use table::formats::Format;
use wire::entries::{Command, Opcode};

// What the steps to h look at beside the command: whether memory is legal, the namespace's format and id, and the length of the data buffer.
#[derive(Clone, Copy)]
pub struct View {
    // The caller answers 06h before, so this is always true; it stays, as `steps_to_h` (specs/Steps.antt) names the row.
    pub legal: bool,
    pub format: Format,
    pub id: u32,
    pub room: usize,
}

// What steps i and j look at: whether the key is held and the room of its pair, how full the namespace is, and its limits.
#[derive(Clone, Copy)]
pub struct Stock {
    // No `Option` of the room: `steps_from_i` names the flag in its rows, and the room beside it.
    pub held: bool,
    pub old: u64,
    pub used: u32,
    pub count: u32,
    pub maxkeys: u32,
    pub size: u32,
}

// A test, and the status that it names: a row of `specs/Steps.antt`.
#[derive(Clone, Copy)]
pub struct Row(pub bool, pub Status);

// The status of the first row whose test holds. No row returns from within the loop: the compiler would put the table into memory, to
// read that row's status there.
fn first_of<const N: usize>(rows: &[Row; N]) -> Result<(), Status>
    ensures { code_in result ≡ first_of (map row_of rows.now) }
{
    let mut outcome = Ok(());
    for row in rows {
        if outcome.is_ok() & row.0 {
            outcome = Err(row.1);
        }
    }
    outcome
}

// Steps a to h.
pub fn decide_early(c: Command, v: View) -> Result<(), Status>
    ensures { code_in result ≡ first_of (steps_to_h v c) }
{
    let f = v.format;
    let store = c.is(Opcode::Store);
    let retrieve = c.is(Opcode::Retrieve);
    let list = c.is(Opcode::List);
    let wrong_size = (f.keymax < c.len) | (c.len == 0) & !list;
    let short = v.room < c.amount as usize;
    let clear = ends_clear(c.key, c.len);
    first_of(&[
        Row(!v.legal, Status::Internal),
        Row(Opcode::try_from(c.opcode).is_err(), Status::InvalidOpcode),
        Row(c.fused != 0, Status::InvalidField),
        Row(c.nsid != v.id, Status::InvalidNamespace),
        Row(16 < c.len, Status::InvalidField),
        Row(!clear, Status::InvalidField),
        Row(wrong_size, Status::KeySize),
        Row(store & (f.valuemax < c.amount), Status::ValueSize),
        Row(list & (c.amount < 4), Status::InvalidField),
        Row((store | retrieve | list) & short, Status::DataTransfer),
    ])
}

// Steps i and j.
pub fn decide_late(c: Command, u: Stock) -> Result<(), Status>
    requires { u.old ≤ u.used }
    ensures { code_in result ≡ first_of (steps_from_i u c) }
{
    let store = c.is(Opcode::Store);
    let retrieve = c.is(Opcode::Retrieve);
    let delete = c.is(Opcode::Delete);
    let exist = c.is(Opcode::Exist);
    // two bits of the entry's options byte, as `if_present` and `if_absent` take them
    let if_present = store & (c.options % 2 == 1);
    let if_absent = store & (c.options / 2 % 2 == 1);
    let needs = retrieve | delete | exist | if_present;
    let full = !u.held & (u.maxkeys <= u.count);
    let filled = u64::from(u.used) - u.old + u64::from(c.len) + u64::from(c.amount);
    let exceeds = u64::from(u.size) < filled;
    first_of(&[
        Row(needs & !u.held, Status::KeyAbsent),
        Row(if_absent & u.held, Status::KeyExists),
        Row(store & (full | exceeds), Status::Capacity),
    ])
}
