// The reader of Identify pages, of this module and of others.
ghost use Rattle.std.specs.Prelude.{◌≡◌, unwrap_or};
ghost use Rattle.refusals.specs.Refusals.{number_of};
ghost use Rattle.sheets.specs.Identify.{formats_in, no_limits, limits_at};
ghost use Rattle.host.specs.Identity.{unidentified, identity};

use octets::words;
use refusals::numbers::Refusal;
use sheets::identify::{Limits, index_in};

// For C, which has no `Result`: a house number, what the page says of its namespace, and the limits of one format.
#[repr(C)]
#[derive(Clone, Copy, Default)]
pub struct Identity {
    pub number: u32,
    pub formats: u32,
    pub index: u32,
    pub keymax: u32,
    pub valuemax: u32,
    pub maxkeys: u32,
    pub size: u64,
    pub used: u64,
}

// Beside a number there is nothing else.
impl From<Refusal> for Identity {
    ghost from_gives = { λ r i. i ≡ unidentified (number_of r) };

    fn from(refusal: Refusal) -> Identity {
        Identity {
            number: refusal.number(),
            ..Identity::default()
        }
    }
}

// Byte 25 counts from 0.
fn formats_in(page: &[u8; 4096]) -> u32
    ensures { result ≡ formats_in page.now }
{
    u32::from(page[25]) + 1
}

// A page may say more formats than it has room for.
fn limits_at(page: &[u8; 4096], ordinal: u32) -> Option<Limits>
    ensures { unwrap_or result no_limits ≡ limits_at page.now ordinal }
{
    if formats_in(page) <= ordinal {
        return None;
    }
    let at = 72 + 16 * ordinal as usize;
    let descriptor = page.get(at..at + 16)?;
    Some(Limits {
        keymax: words::read16(descriptor, 0),
        valuemax: words::read32(descriptor, 4),
        maxkeys: words::read32(descriptor, 8),
    })
}

// Nothing else of the page is checked.
#[tactic(auto, unfolding(crate::specs::Identity::identity))]
pub fn kv_read_identify(page: &[u8], ordinal: u32) -> Identity
    ensures { result ≡ identity page.now ordinal }
{
    let Some(page) = page.as_array::<4096>() else {
        return Identity::from(Refusal::BytesLength);
    };
    let limits = limits_at(page, ordinal).unwrap_or_default();
    Identity {
        number: 0,
        formats: formats_in(page),
        index: index_in(page[29]),
        keymax: u32::from(limits.keymax),
        valuemax: limits.valuemax,
        maxkeys: limits.maxkeys,
        size: words::read64(page, 0),
        used: words::read64(page, 16),
    }
}
