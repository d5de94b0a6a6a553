// What a namespace is: its format and size, and how full it is.
ghost use Rattle.std.specs.Prelude.{◌≡◌};
ghost use Rattle.memory.specs.Memory.{memory};
ghost use Rattle.maps.specs.Describe.{told, describe};

use checking::checks::check;
use refusals::numbers::Refusal;

// No `Label`: `told` says nothing of an id, which the caller has. Made in one place alone, and so by no `From`.
#[derive(Clone, Copy)]
pub struct Description {
    pub index: u32,
    pub size: u32,
    pub used: u32,
    pub keys: u32,
}

// Numbers 18 and 23. Where no namespace has the id, the check gives the first one's numbers.
#[tactic(auto, using(crate::proofs::DescribeLaws::told_laws))]
pub fn describe(id: u32, directory: &[u8], values: &[u8]) -> Result<Description, Refusal>
    ensures { told result ≡ describe id (memory directory.now values.now) }
{
    let k = check(directory, values, id).ok_or(Refusal::Illegal)?;
    if k.label.id != id {
        return Err(Refusal::NotHeld);
    }
    Ok(Description {
        index: k.label.index,
        size: k.label.size,
        used: k.label.used,
        keys: k.label.count,
    })
}
