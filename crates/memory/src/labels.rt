// A namespace's numbers in its half of the head.
ghost use Rattle.std.specs.Prelude.{◌≡◌, ◌++◌, ◌+◌, ◌≤◌, length};
ghost use Rattle.octets.specs.Octets.{put, bytes};
ghost use Rattle.memory.specs.Memory.{label_in, half_of};

use octets::runs::clear;
use octets::words::{read32, write32};
use store::namespaces::Label;

// The second half begins here, and the records behind it.
pub const HALF: usize = 32;

pub const HEAD: usize = 64;

// No `From`: `Label` is a type of `store`, which knows no head.
pub fn read_label(half: &[u8; HALF]) -> Label
    ensures { result ≡ label_in half.now }
{
    Label {
        id: read32(half, 0),
        index: read32(half, 4),
        size: read32(half, 8),
        count: read32(half, 12),
        used: read32(half, 16),
    }
}

// A slice: what is written to an array of it would come back through an `Option`, of a length that the caller's range says already.
pub fn write_label(half: &mut [u8], label: Label)
    requires { length half.old ≡ 32 }
    ensures { half.new ≡ half_of label }
{
    write32(half, 0, label.id);
    write32(half, 4, label.index);
    write32(half, 8, label.size);
    write32(half, 12, label.count);
    write32(half, 16, label.used);
    clear(half, 20, 12);
}

// Of the numbers in a half these are the two that a command changes. At an index, as the caller has the whole directory.
pub fn write_counts(directory: &mut [u8], half: usize, count: u32, used: u32)
    requires { half + 32 ≤ length directory.old }
    ensures { directory.new ≡ put (half + 12) (bytes 4 count ++ bytes 4 used) directory.old }
{
    write32(directory, half + 12, count);
    write32(directory, half + 16, used);
}
