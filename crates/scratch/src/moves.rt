// A word put into a slice over and over, in blocks whose length the compiler knows: it writes their loop out, with one test in front for a whole block.
// The plain loop takes twice the instructions (docs/SPEED.md).
// What a slice holds once the borrow of `as_chunks_mut` or `chunks_exact_mut` ends, the library does not say: a fill through them leaves `ensures` open.
ghost use Rattle.std.specs.Prelude.{◌≡◌, ◌+◌, ◌*◌, ◌≤◌, length};
ghost use Rattle.octets.specs.Octets.{put, bytes};
ghost use Rattle.scratch.specs.Calls.{over};

use octets::words::write32;

fn fill_words(memory: &mut [u8], at: usize, n: usize, word: u32)
    requires { at + 4 * n ≤ length memory.old }
    ensures { memory.new ≡ put at (over n (bytes 4 word)) memory.old }
{
    for i in 0..n {
        write32(memory, at + 4 * i, word);
    }
}

pub fn fill_long(memory: &mut [u8], at: usize, n: usize, word: u32)
    requires { at + 4 * n ≤ length memory.old }
    ensures { memory.new ≡ put at (over n (bytes 4 word)) memory.old }
{
    let blocks = n / 64;
    for i in 0..blocks {
        fill_words(memory, at + 256 * i, 64, word);
    }
    fill_words(memory, at + 256 * blocks, n % 64, word);
}
