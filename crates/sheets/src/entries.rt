// The entries of a List page, read.
ghost use Rattle.std.specs.Prelude.{◌≡◌, ◌≤◌, ◌<◌, length, IfOk};
ghost use Rattle.sheets.specs.Page.{entry_size, entry_in, first_entry};

use crate::pages::page_entry_size;
use keys::orders::compare;
use octets::{runs, words};
use refusals::numbers::Refusal;

// The length of the entry's key, as in `first_entry`. What is before the first entry is the empty key.
#[tactic(auto, unfolding(crate::specs::Page::first_entry, crate::specs::Page::entry_steps, octets::specs::Octets::part))]
pub fn read_page_entry(rest: &[u8], before: &[u8]) -> Result<usize, Refusal>
    ensures value { entry_in result ≡ first_entry before.now rest.now }
    ensures some { IfOk result (λ n. 0 < n) }
    ensures fits { IfOk result (λ n. (n ≤ 16) × (entry_size n ≤ length rest.now)) }
{
    if rest.len() < 2 {
        return Err(Refusal::PageEntry);
    }
    let n = usize::from(words::read16(rest, 0));
    if (n == 0) | (16 < n) {
        return Err(Refusal::PageKeyLength);
    }
    let size = page_entry_size(n);
    if rest.len() < size {
        return Err(Refusal::PageEntry);
    }
    let end = 2 + n;
    if !runs::all_zero(&rest[end..size]) {
        return Err(Refusal::PagePadding);
    }
    let rising = compare(before, &rest[2..end]).is_lt();
    if !rising {
        return Err(Refusal::PageOrder);
    }
    Ok(n)
}
