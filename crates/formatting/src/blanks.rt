// The empty image.
ghost use Rattle.std.specs.Prelude.{◌≡◌, length};
ghost use Rattle.memory.specs.Memory.{memory};
ghost use Rattle.formatting.specs.Formatting.{CanBlank, blanked};

use crate::measures::Reach;
use memory::labels::{HALF, HEAD, write_label};
use octets::runs::clear;
use store::namespaces::Label;

// The two halves of the head, and zeros behind them.
#[tactic(auto, using(crate::proofs::blanks::Blank::blank_written))]
pub fn write_blank(
    directory: &mut [u8],
    values: &mut [u8],
    first: Label,
    second: Label,
    reach: Reach,
)
    requires { CanBlank reach.records reach.values (length directory.old) (length values.old) }
    ensures { memory directory.new values.new
        ≡ blanked first second reach.records reach.values (memory directory.old values.old) }
{
    write_label(&mut directory[0..HALF], first);
    write_label(&mut directory[HALF..HEAD], second);
    clear(directory, HEAD, reach.records - HEAD);
    clear(values, 0, reach.values);
}
