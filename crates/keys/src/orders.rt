// The order of keys: of parts of slices, and of keys that stand in sixteen bytes with their length beside them.
ghost use Rattle.std.specs.Prelude.{◌≡◌, ◌+◌, ◌≤◌, length, drop};
ghost use Rattle.octets.specs.Octets.{part, filled, all_zero};
ghost use Rattle.keys.specs.Keys.{order, wide_of, clear_wide};

use crate::wide::read_big;
use octets::runs::copy_at;
use std::cmp::Ordering;

// The first byte that differs decides; a key that runs out is the lower one. By a loop of its own: by the library's `<` of slices a host reads a page in
// twice the time (docs/SPEED.md).
pub fn compare(a: &[u8], b: &[u8]) -> Ordering
    ensures { result ≡ order a.now b.now }
{
    for i in 0..a.len() {
        if b.len() <= i {
            return Ordering::Greater;
        }
        if a[i] < b[i] {
            return Ordering::Less;
        }
        if b[i] < a[i] {
            return Ordering::Greater;
        }
    }
    if a.len() < b.len() {
        Ordering::Less
    } else {
        Ordering::Equal
    }
}

// A key that stands in sixteen bytes with zeros behind it, as two numbers with the highest byte first, and its length. Such keys
// stand in the order of their numbers (`widened_order`), so that they are compared with no loop.
#[derive(Clone, Copy, Default, PartialEq, Eq, PartialOrd, Ord)]
pub struct Wide {
    pub high: u64,
    pub low: u64,
    pub len: u64,
}

impl Wide {
    // Whether zeros stand behind the key, by the numbers that are in hand, so that no byte is read again: the key's own bytes are
    // shifted out. Where the low number is zero, as for a key of eight bytes, the shift is spared.
    pub fn is_clear(self) -> bool
        ensures { result ≡ clear_wide self }
    {
        if self.len < 8 {
            return (self.low == 0) & (self.high << (8 * self.len) == 0);
        }
        if self.low == 0 {
            return true;
        }
        if self.len < 16 {
            return self.low << (8 * (self.len - 8)) == 0;
        }
        true
    }
}

pub fn widen(s: &[u8], at: usize, len: u64) -> Wide
    requires { at + 16 ≤ length s.now }
    ensures { result ≡ wide_of (part at 16 s.now) len }
{
    Wide {
        high: read_big(s, at),
        low: read_big(s, at + 8),
        len,
    }
}

// A key in a lent slice, of sixteen bytes at most.
#[derive(Clone, Copy)]
pub struct ShortKey<'a> {
    pub bytes: &'a [u8],
    pub ghost short: { length bytes.now ≤ 16 },
}

impl ShortKey<'_> {
    // The sixteen bytes that an entry and a page key have for it.
    pub fn pad(self) -> [u8; 16]
        ensures { result ≡ filled 16 self.entry.bytes.now }
    {
        let mut padded = [0u8; 16];
        copy_at(self.bytes, &mut padded, 0);
        padded
    }
}

// Whether zeros stand behind the first `len` of the sixteen bytes; a length above 16 leaves none of them behind it.
pub fn ends_clear(key: [u8; 16], len: u8) -> bool
    ensures { result ≡ all_zero (drop len key) }
{
    widen(&key, 0, u64::from(len)).is_clear()
}
