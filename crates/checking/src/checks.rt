// Whether the memory is legal, found in one pass over its needed part.
ghost use Rattle.std.specs.Prelude.{◌≡◌};
ghost use Rattle.memory.specs.Memory.{memory};
ghost use Rattle.checking.specs.Checks.{CanSee, half_checked, checked};

use legal::checks::check_part;
use memory::labels::{HALF, HEAD, read_label};
use memory::permits::permit;
use octets::runs::all_zero;
use octets::words::{bytes_at, read32};
use store::namespaces::Label;
use table::formats::Format;

// What the pass over memory knows of a namespace: its numbers, where its half, its records and its values begin, where the records end, and the sum
// of the value lengths. That `start` is not behind `end` is a fact of `CanLook`: as a ghost field it would make each equation of two of these one
// of proofs too.
#[derive(Clone, Copy)]
pub struct Checked {
    pub label: Label,
    pub format: Format,
    pub half: usize,
    pub start: usize,
    pub end: usize,
    pub base: usize,
    pub total: u32,
}

// One namespace by itself, whose half, records and values begin at these places.
#[tactic(auto, using(crate::proofs::checks::Halves::half_laws))]
fn check_half(
    directory: &[u8],
    values: &[u8],
    half: usize,
    start: usize,
    base: usize,
) -> Option<Checked>
    requires { CanSee half start base directory.now values.now }
    ensures { result ≡ half_checked half start base (memory directory.now values.now) }
{
    let label = read_label(&bytes_at(directory, half));
    let format = permit(label.index, label.id, u64::from(label.size)).ok()?;
    let end = start + 32 * format.maxkeys as usize;
    let stop = base + label.size as usize;
    if (directory.len() < end) | (values.len() < stop) {
        return None;
    }
    let sums = check_part(&directory[start..end], &values[base..stop], label, format)?;
    if sums.used != label.used {
        return None;
    }
    // last, as the pass over the records is shorter code then
    if !all_zero(&directory[half + 20..half + 32]) {
        return None;
    }
    Some(Checked {
        label,
        format,
        half,
        start,
        end,
        base,
        total: sums.total,
    })
}

// Every content and every length of the slices has its answer. Bytes past the needed part are not read. An empty second half has id 0, and
// no namespace has that. Of two the answer is the one that the id names, else the first. Each is looked at where it lies: `?` would copy it.
#[tactic(auto, using(crate::proofs::checks::Both::both_laws), unfolding(octets::specs::Octets::part))]
pub fn check(directory: &[u8], values: &[u8], id: u32) -> Option<Checked>
    ensures { result ≡ checked id (memory directory.now values.now) }
{
    if directory.len() < HEAD {
        return None;
    }
    let first = check_half(directory, values, 0, HEAD, 0);
    let Some(one) = &first else {
        return None;
    };
    if read32(directory, HALF) == 0 {
        if !all_zero(&directory[HALF..HEAD]) {
            return None;
        }
        return first;
    }
    let second = check_half(directory, values, HALF, one.end, one.label.size as usize);
    let Some(other) = &second else {
        return None;
    };
    let sizes = one.label.size as usize + other.label.size as usize;
    if (one.label.id == other.label.id) | (65536 < sizes) {
        return None;
    }
    if other.label.id == id {
        return second;
    }
    first
}
