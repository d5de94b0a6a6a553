// Eight bytes as one number, for the order of keys.
ghost use Rattle.std.specs.Prelude.{◌≡◌, ◌+◌, ◌≤◌, length};
ghost use Rattle.octets.specs.Octets.{part};
ghost use Rattle.keys.specs.Keys.{big};

use octets::words::bytes_at;

// The highest byte first: such numbers stand in the order of the bytes.
pub fn read_big(s: &[u8], at: usize) -> u64
    requires { at + 8 ≤ length s.now }
    ensures { result ≡ big (part at 8 s.now) }
{
    u64::from_be_bytes(bytes_at(s, at))
}
