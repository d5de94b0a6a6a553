// The key that is looked for, as numbers. No `From`: both types are those of `keys`, which does not read keys in place.
ghost use Rattle.std.specs.Prelude.{◌≡◌, ◌+◌, ◌-◌, ◌*◌, ◌^◌, ◌≤◌, ◌<◌, length, drop};
ghost use Rattle.octets.specs.Octets.{filled};
ghost use Rattle.keys.specs.Keys.{big, wide_of};

use keys::orders::{ShortKey, Wide, widen};
use keys::wide::read_big;

// The last eight bytes, with the first `out` of them shifted out.
fn read_last(s: &[u8], out: u64) -> u64
    requires long { 8 ≤ length s.now }
    requires few { out < 8 }
    ensures { result ≡ big (drop (length s.now - 8 + out) s.now) * 2 ^ (8 * out) }
{
    read_big(s, s.len() - 8) << (8 * out)
}

// A key of eight bytes or more is read in place: its last eight bytes, with those of the first number shifted out, are the second.
pub fn widen_key(key: ShortKey) -> Wide
    ensures { result ≡ wide_of (filled 16 key.entry.bytes.now) (length key.entry.bytes.now) }
{
    let n = key.bytes.len();
    if n < 8 {
        let sixteen = key.pad();
        return widen(&sixteen, 0, n as u64);
    }
    let high = read_big(key.bytes, 0);
    if n == 8 {
        return Wide {
            high,
            low: 0,
            len: 8,
        };
    }
    Wide {
        high,
        low: read_last(key.bytes, 16 - n as u64),
        len: n as u64,
    }
}
