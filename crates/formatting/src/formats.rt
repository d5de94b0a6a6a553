// Formatting: the numbers, then the empty image.
ghost use Rattle.std.specs.Prelude.{◌≡◌};
ghost use Rattle.refusals.specs.Refusals.{number_in};
ghost use Rattle.memory.specs.Memory.{memory};
ghost use Rattle.formatting.specs.Formatting.{halves, formatted, format};

use crate::blanks::write_blank;
use crate::measures::{Half, measure};
use refusals::numbers::Refusal;
use store::namespaces::Label;

// One namespace, or two: no array of halves, as one of one half and one of two are two types. A half that no namespace has is that of a label of
// zeros.
#[tactic(auto, unfolding(crate::specs::Formatting::format, crate::specs::Formatting::format_steps))]
pub fn format(
    first: Half,
    second: Option<Half>,
    directory: &mut [u8],
    values: &mut [u8],
) -> Result<(), Refusal>
    ensures { formatted (number_in result) (memory directory.new values.new)
        ≡ format (halves first second) (memory directory.old values.old) }
{
    let reach = measure(first, second, directory.len(), values.len())?;
    let behind = second.map_or_else(Label::default, |half| half.label());
    write_blank(directory, values, first.label(), behind, reach);
    Ok(())
}
