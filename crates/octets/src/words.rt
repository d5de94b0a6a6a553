// Little-endian words at an index: of 2 and 4 bytes, read and written; of 8, read; of 1, written. Each width has a function of its own: std has
// `from_le_bytes` and `to_le_bytes` at each integer type, and in no trait that they could share.
ghost use Rattle.std.specs.Prelude.{◌≡◌, [], ◌∷◌, ◌+◌, ◌≤◌, ◌<◌, length};
ghost use Rattle.octets.specs.Octets.{part, put, number, bytes};

use crate::runs::copy_at;

// As many bytes as the caller's word has.
#[tactic(auto, unfolding(crate::specs::Octets::part))]
pub fn bytes_at<const N: usize>(s: &[u8], at: usize) -> [u8; N]
    requires { at + N ≤ length s.now }
    ensures { result ≡ part at N s.now }
{
    s[at..at + N].try_into().unwrap()
}

pub fn read16(s: &[u8], at: usize) -> u16
    requires { at + 2 ≤ length s.now }
    ensures { result ≡ number (part at 2 s.now) }
{
    u16::from_le_bytes(bytes_at(s, at))
}

pub fn read32(s: &[u8], at: usize) -> u32
    requires { at + 4 ≤ length s.now }
    ensures { result ≡ number (part at 4 s.now) }
{
    u32::from_le_bytes(bytes_at(s, at))
}

pub fn read64(s: &[u8], at: usize) -> u64
    requires { at + 8 ≤ length s.now }
    ensures { result ≡ number (part at 8 s.now) }
{
    u64::from_le_bytes(bytes_at(s, at))
}

// A single byte too is a `put`, so that a run of writes has one law.
pub fn write8(s: &mut [u8], at: usize, b: u8)
    requires { at < length s.old }
    ensures { s.new ≡ put at (b ∷ []) s.old }
{
    s[at] = b;
}

pub fn write16(s: &mut [u8], at: usize, n: u16)
    requires { at + 2 ≤ length s.old }
    ensures { s.new ≡ put at (bytes 2 n) s.old }
{
    copy_at(&u16::to_le_bytes(n), s, at);
}

pub fn write32(s: &mut [u8], at: usize, n: u32)
    requires { at + 4 ≤ length s.old }
    ensures { s.new ≡ put at (bytes 4 n) s.old }
{
    copy_at(&u32::to_le_bytes(n), s, at);
}
