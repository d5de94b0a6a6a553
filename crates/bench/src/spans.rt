// The length of a List page, found by its count and its entries' lengths.
ghost use Rattle.std.specs.Prelude.{◌≡◌, ◌≤◌, length};
ghost use Rattle.bench.specs.Span.{page_span};

use octets::words;
use sheets::pages::page_entry_size;

#[tactic(auto, using(crate::proofs::spans::Loop::page_laws))]
pub fn page_span(page: &[u8]) -> usize
    ensures value { result ≡ page_span page.now }
    ensures upper_bound { result ≤ length page.now }
{
    if page.len() < 4 {
        return 0;
    }
    let count = words::read32(page, 0);
    let mut at = 4;
    // by a place that moves, as the entries differ in length
    for _ in 0..count {
        if page.len() - at < 4 {
            return at;
        }
        let size = page_entry_size(usize::from(words::read16(page, at)));
        if page.len() - at < size {
            return at;
        }
        at += size;
    }
    at
}
