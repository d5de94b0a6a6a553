// Bytes as a line of lower-case hex digits. Each digit is a sum, so that the compiler makes the loop wide: by the kit's `hex`, which looks into a table
// for each, a full List page takes half again as many instructions (docs/SPEED.md).
ghost use Rattle.std.specs.Prelude.{◌≡◌, ◌+◌, ◌*◌, ◌<◌, ◌≤◌, length};
ghost use Rattle.octets.specs.Octets.{put};
ghost use Rattle.bench.specs.Text.{digit, hex_byte, line};

fn digit_of(n: u8) -> u8
    requires { n < 16 }
    ensures { result ≡ digit n }
{
    if n < 10 {
        return b'0' + n;
    }
    b'a' + (n - 10)
}

fn write_byte(text: &mut [u8], at: usize, b: u8)
    requires { at + 2 ≤ length text.old }
    ensures { text.new ≡ put at (hex_byte b) text.old }
{
    text[at] = digit_of(b / 16);
    text[at + 1] = digit_of(b % 16);
}

// By index: the library does not say what a slice holds once its chunks were lent for writing.
pub fn write_line(bytes: &[u8], text: &mut [u8], at: usize)
    requires { at + (2 * length bytes.now + 1) ≤ length text.old }
    ensures { text.new ≡ put at (line bytes.now) text.old }
{
    for i in 0..bytes.len() {
        write_byte(text, at + 2 * i, bytes[i]);
    }
    text[at + 2 * bytes.len()] = b'\n';
}
