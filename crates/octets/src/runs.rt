// Runs of bytes: copied, moved within a slice, cleared, tested for zero.
ghost use Rattle.std.specs.Prelude.{◌≡◌, ◌+◌, ◌≤◌, length, replicate};
ghost use Rattle.octets.specs.Octets.{part, put, all_zero};

pub fn copy_at(src: &[u8], dst: &mut [u8], at: usize)
    requires { at + length src.now ≤ length dst.old }
    ensures { dst.new ≡ put at src.now dst.old }
{
    dst[at..at + src.len()].copy_from_slice(src);
}

// The two places may overlap.
pub fn slide(s: &mut [u8], from: usize, n: usize, to: usize)
    requires { (from + n ≤ length s.old) × (to + n ≤ length s.old) }
    ensures { s.new ≡ put to (part from n s.old) s.old }
{
    s.copy_within(from..from + n, to);
}

// What is taken out leaves zeros.
pub fn clear(s: &mut [u8], at: usize, n: usize)
    requires { at + n ≤ length s.old }
    ensures { s.new ≡ put at (replicate n 0) s.old }
{
    s[at..at + n].fill(0);
}

// No early exit, so that the loop reads many bytes at a time.
fn zero_run(s: &[u8]) -> bool
    ensures { result ≡ all_zero s.now }
{
    s.iter().fold(0u8, |seen, b| seen | b) == 0
}

// In blocks whose length the compiler knows: it writes their loop out, with no test in between; what that saves is in docs/SPEED.md.
pub fn all_zero(s: &[u8]) -> bool
    ensures { result ≡ all_zero s.now }
{
    let (blocks, rest) = s.as_chunks::<1024>();
    blocks.iter().all(|block| zero_run(block)) && zero_run(rest)
}
