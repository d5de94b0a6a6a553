// Where the records of a namespace lie, by the two halves of the head alone.
ghost use Rattle.std.specs.Prelude.{◌≡◌};
ghost use Rattle.memory.specs.Memory.{memory, label_in};
ghost use Rattle.quick.specs.Heads.{slots_by, claim_of, run_in, chosen, run_of};

use memory::labels::{HALF, HEAD};
use octets::words::read32;
use refusals::numbers::Refusal;
use table::formats::format_at;

// What a half asks of the slices; in whole words, as two of four bytes are packed into one and taken apart again.
#[derive(Clone, Copy, Default)]
pub struct Claim {
    pub slots: usize,
    pub size: usize,
}

// Number 6, of a half that asks for what there is not. One with id 0 asks for nothing.
// Words are read where they are asked for: a whole label, read at once, is put aside on the stack, which slows a look by a fifteenth.
#[tactic(auto, unfolding(crate::specs::Heads::claim_of, memory::specs::Memory::label_in))]
fn judge(half: &[u8; HALF]) -> Result<Claim, Refusal>
    ensures { result ≡ claim_of (label_in half.now) }
{
    if read32(half, 0) == 0 {
        return Ok(Claim::default());
    }
    let index = read32(half, 4);
    let size = read32(half, 8);
    if (index <= 15) & (1 <= size) & (size <= 65536) {
        let slots = format_at(index).maxkeys;
        if read32(half, 12) <= slots {
            return Ok(Claim {
                slots: slots as usize,
                size: size as usize,
            });
        }
    }
    Err(Refusal::SliceLength)
}

// The first slot, counted over the whole directory as in `run_of`, so that it is a number and no slice; and how many hold keys.
#[derive(Clone, Copy)]
pub struct Span {
    pub first: usize,
    pub count: usize,
}

// Number 23, of halves that may ask for what they do; `slots` is what the first one asks for.
#[tactic(auto, unfolding(memory::specs::Memory::label_in))]
fn choose(id: u32, first: &[u8; HALF], second: &[u8; HALF], slots: usize) -> Result<Span, Refusal>
    requires { slots ≡ slots_by (label_in first.now) }
    ensures { run_in result ≡ chosen id (label_in first.now) (label_in second.now) }
{
    if id == 0 {
        return Err(Refusal::NotHeld);
    }
    if id == read32(first, 0) {
        return Ok(Span {
            first: 0,
            count: read32(first, 12) as usize,
        });
    }
    if id == read32(second, 0) {
        return Ok(Span {
            first: slots,
            count: read32(second, 12) as usize,
        });
    }
    Err(Refusal::NotHeld)
}

// Numbers 6 and 23.
#[tactic(auto, using(crate::proofs::ClaimLaws::run_laws), unfolding(crate::specs::Heads::run_of, octets::specs::Octets::part))]
pub fn find_run(id: u32, directory: &[u8], values: &[u8]) -> Result<Span, Refusal>
    ensures { run_in result ≡ run_of id (memory directory.now values.now) }
{
    let Some((first, rest)) = directory.split_first_chunk::<HALF>() else {
        return Err(Refusal::SliceLength);
    };
    let Some((second, _)) = rest.split_first_chunk::<HALF>() else {
        return Err(Refusal::SliceLength);
    };
    let a = judge(first)?;
    let b = judge(second)?;
    let end = HEAD + 32 * (a.slots + b.slots);
    let stop = a.size + b.size;
    if (directory.len() < end) | (values.len() < stop) {
        return Err(Refusal::SliceLength);
    }
    choose(id, first, second, a.slots)
}
