// A key among records of which nothing is asked.
ghost use Rattle.std.specs.Prelude.{◌≡◌, ◌+◌, ◌*◌, ◌≤◌, length, drop};
ghost use Rattle.keys.specs.Keys.{order_wide};
ghost use Rattle.store.specs.Records.{wide_in};
ghost use Rattle.quick.specs.Search.{search};
ghost use Rattle.quick.specs.Known.{look_of};

use crate::looks::Look;
use keys::orders::Wide;
use keys::wide::read_big;
use octets::words::read32;
use std::cmp::Ordering;

// The key beside that of the record at an index. Most often the first eight bytes tell, and no more is read then. Written
// out, with the test for below first: by `cmp`, whole or word by word with `then_with`, a look takes more instructions.
#[tactic(auto, using(crate::proofs::searches::Words::word_laws))]
fn beside(records: &[u8], at: usize, wanted: Wide) -> Ordering
    requires { at + 32 ≤ length records.now }
    ensures { result ≡ order_wide wanted (wide_in (drop at records.now)) }
{
    let high = read_big(records, at);
    if wanted.high < high {
        return Ordering::Less;
    }
    if high < wanted.high {
        return Ordering::Greater;
    }
    let low = read_big(records, at + 8);
    if wanted.low < low {
        return Ordering::Less;
    }
    if low < wanted.low {
        return Ordering::Greater;
    }
    let len = u64::from(read32(records, at + 16));
    if wanted.len < len {
        return Ordering::Less;
    }
    if len < wanted.len {
        return Ordering::Greater;
    }
    Ordering::Equal
}

// By halves, among `count` slots from `first` on. By hand, since the looks are counted, and a key that is met ends the search. The answer is
// C's struct at once: one between them would have the same two fields.
#[tactic(auto, using(crate::proofs::searches::Going::going_laws))]
pub fn search(records: &[u8], first: usize, count: usize, wanted: Wide) -> Look
    requires { (first + count ≤ 2048) × (32 * (first + count) ≤ length records.now) }
    ensures { result ≡ look_of 0 (search count (λ j. order_wide wanted (wide_in (drop (32 * j) records.now))) first count) }
{
    let mut low = first;
    let mut left = count;
    let mut looked = 0;
    while 0 < left {
        let half = left / 2;
        let middle = low + half;
        looked += 1;
        match beside(records, 32 * middle, wanted) {
            Ordering::Less => {
                left = half;
            }
            Ordering::Equal => {
                return Look {
                    number: 0,
                    known: 1,
                    looked,
                };
            }
            Ordering::Greater => {
                low = middle + 1;
                left -= half + 1;
            }
        }
    }
    Look {
        number: 0,
        known: 0,
        looked,
    }
}
