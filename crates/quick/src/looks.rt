// Whether a namespace has a key.
ghost use Rattle.std.specs.Prelude.{◌≡◌};
ghost use Rattle.memory.specs.Memory.{memory};
ghost use Rattle.refusals.specs.Refusals.{number_of};
ghost use Rattle.quick.specs.Known.{no_look, look_in, known};

use crate::heads::find_run;
use crate::searches::search;
use crate::tags::widen_key;
use keys::orders::ShortKey;
use memory::labels::HEAD;
use refusals::numbers::Refusal;

// For C, which has no `Result`: a house number; 1 for yes and 0 for no; how many records were looked at.
#[repr(C)]
#[derive(Clone, Copy, Default)]
pub struct Look {
    pub number: u32,
    pub known: u32,
    pub looked: u32,
}

// Beside a number there is nothing else.
impl From<Refusal> for Look {
    ghost from_gives = { λ r l. l ≡ no_look (number_of r) };

    fn from(refusal: Refusal) -> Look {
        Look {
            number: refusal.number(),
            ..Look::default()
        }
    }
}

// Numbers 15, 6 and 23.
#[tactic(auto, using(crate::proofs::HeadLaws::run_lies), unfolding(crate::specs::Known::known, crate::specs::Known::run_for))]
fn find(key: &[u8], id: u32, directory: &[u8], values: &[u8]) -> Result<Look, Refusal>
    ensures { look_in result ≡ known key.now id (memory directory.now values.now) }
{
    let n = key.len();
    if (n == 0) | (16 < n) {
        return Err(Refusal::KeyLength);
    }
    let span = find_run(id, directory, values)?;
    Ok(search(
        &directory[HEAD..],
        span.first,
        span.count,
        widen_key(ShortKey { bytes: key }),
    ))
}

// Memory need not be legal, and of the value slice the length alone counts.
pub fn known(key: &[u8], id: u32, directory: &[u8], values: &[u8]) -> Look
    ensures { result ≡ known key.now id (memory directory.now values.now) }
{
    find(key, id, directory, values).unwrap_or_else(Look::from)
}
