// The reader of List pages.
ghost use Rattle.std.specs.Prelude.{◌≡◌};
ghost use Rattle.refusals.specs.Refusals.{number_of};
ghost use Rattle.sheets.specs.Page.{read_page};
ghost use Rattle.host.specs.PageKey.{refusal, given, told, page_key};

use keys::orders::ShortKey;
use octets::words;
use refusals::numbers::Refusal;
use sheets::entries::read_page_entry;
use sheets::pages::page_entry_size;

// For C, which has no `Result`: a house number, the count of a page's keys, and one of them.
#[repr(C)]
#[derive(Clone, Copy, Default)]
pub struct PageKey {
    pub number: u32,
    pub count: u32,
    pub len: u32,
    pub key: [u8; 16],
}

// Beside a number there is nothing else.
impl From<Refusal> for PageKey {
    ghost from_gives = { λ r k. k ≡ refusal (number_of r) };

    fn from(refusal: Refusal) -> PageKey {
        PageKey {
            number: refusal.number(),
            ..PageKey::default()
        }
    }
}

// C's struct at once, since one between them would have the same fields.
fn page_key(count: u32, key: ShortKey) -> PageKey
    ensures { result ≡ given count key.entry.bytes.now }
{
    PageKey {
        number: 0,
        count,
        len: key.bytes.len() as u32,
        key: key.pad(),
    }
}

// A key is given of a page that is right to its end. The entries differ in length, so that each is cut off by its own.
fn find_key(page: &[u8], ordinal: u32) -> Result<PageKey, Refusal>
    ensures { told result ≡ page_key (read_page page.now) ordinal }
{
    if page.len() < 4 {
        return Err(Refusal::PageLength);
    }
    let count = words::read32(page, 0);
    let mut rest = &page[4..];
    // the key read last and the key asked for: empty while there is none, as C is told the empty key past the last one
    let mut last = &page[..0];
    let mut asked = &page[..0];
    for i in 0..count {
        let len = read_page_entry(rest, last)?;
        last = &rest[2..2 + len];
        rest = &rest[page_entry_size(len)..];
        if i == ordinal {
            asked = last;
        }
    }
    Ok(page_key(count, ShortKey { bytes: asked }))
}

pub fn kv_read_page(page: &[u8], ordinal: u32) -> PageKey
    ensures { result ≡ page_key (read_page page.now) ordinal }
{
    find_key(page, ordinal).unwrap_or_else(PageKey::from)
}
