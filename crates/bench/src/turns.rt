// One entry: its data buffer, the command, and what is printed of it.
ghost use Rattle.std.specs.Prelude.{◌≡◌, ◌+◌, ◌*◌, ◌<◌, ◌≤◌, length};
ghost use Rattle.octets.specs.Octets.{put};
ghost use Rattle.io.specs.Counts.{IsPrefixLen};
ghost use Rattle.bench.specs.Turn.{head_after, room_of, gives, given_of, printed, turned, turn_of};

use crate::spans::page_span;
use crate::texts::write_line;
use commands::commands::step;
use wire::completions::{Post, read_completion};
use wire::entries::{Command, Opcode, read_entry};

// The entry counts itself, and `count` those before it.
pub fn head_of(count: u64) -> u16
    requires { count < 0xffff_ffff_ffff_ffff }
    ensures { result ≡ head_after count }
{
    ((count + 1) % 65536) as u16
}

// What a Store lends is what follows its entry.
#[tactic(auto, unfolding(crate::specs::Turn::room_of))]
pub fn room_of(c: Command) -> usize
    ensures value { result ≡ room_of c }
    ensures upper_bound { result ≤ 4096 }
{
    match Opcode::try_from(c.opcode) {
        Ok(Opcode::Store) => c.amount.min(4096) as usize,
        Ok(Opcode::Retrieve | Opcode::List) => 4096,
        _ => 0,
    }
}

// Only these print a second line. `status` is the completion's byte.
fn is_giving(c: Command, status: u8) -> bool
    ensures { result ≡ gives c.opcode status }
{
    (c.is(Opcode::Retrieve) | c.is(Opcode::List)) & (status == 0)
}

#[tactic(auto, unfolding(crate::specs::Turn::given_of))]
fn given_of(c: Command, dword0: u32, buffer: &[u8]) -> usize
    ensures value { result ≡ given_of c dword0 buffer.now }
    ensures upper_bound { result ≤ length buffer.now }
{
    if c.is(Opcode::List) {
        return page_span(buffer);
    }
    (c.amount.min(dword0) as usize).min(buffer.len())
}

#[tactic(auto, using(crate::proofs::turns::Lines::print_laws))]
fn print(c: Command, completion: &[u8; 16], buffer: &[u8], text: &mut [u8]) -> usize
    requires { 34 + 2 * length buffer.now ≤ length text.old }
    ensures text_after { text.new ≡ put 0 (printed c completion.now buffer.now) text.old }
    ensures value { result ≡ length (printed c completion.now buffer.now) }
    ensures prefix_len { IsPrefixLen result text.new }
{
    let r = read_completion(completion);
    write_line(completion, text, 0);
    if !is_giving(c, r.status) {
        return 33;
    }
    let n = given_of(c, r.dword0, buffer);
    write_line(&buffer[..n], text, 33);
    34 + 2 * n
}

#[tactic(auto, unfolding(crate::specs::Turn::turn_of))]
pub fn turn(
    entry: &[u8; 64],
    head: u16,
    buffer: &mut [u8],
    directory: &mut [u8],
    values: &mut [u8],
    text: &mut [u8],
) -> usize
    requires { 34 + 2 * length buffer.old ≤ length text.old }
    ensures values_after { turned result text.new buffer.new directory.new values.new
        ≡ turn_of head entry.now text.old buffer.old directory.old values.old }
    ensures prefix_len { IsPrefixLen result text.new }
{
    let mut completion = [0u8; 16];
    let c = read_entry(entry);
    let post = Post {
        head,
        queue: 1,
        phase: 1,
    };
    step(c, &mut completion, buffer, directory, values, post);
    print(c, &completion, buffer, text)
}
