// Formatting with the numbers that a host's fields give.
ghost use Rattle.std.specs.Prelude.{◌≡◌};
ghost use Rattle.refusals.specs.Refusals.{number_in};
ghost use Rattle.memory.specs.Memory.{memory};
ghost use Rattle.formatting.specs.Formatting.{formatted};
ghost use Rattle.identify.specs.Identify.{create};

use formatting::formats::format;
use formatting::measures::Half;
use octets::words::read64;
use refusals::numbers::Refusal;
use sheets::identify::index_in;

// Number 14, then those of formatting; four bits make no index that is too high.
#[tactic(auto, unfolding(crate::specs::Identify::create))]
pub fn create(
    fields: &[u8],
    id: u32,
    directory: &mut [u8],
    values: &mut [u8],
) -> Result<(), Refusal>
    ensures { formatted (number_in result) (memory directory.new values.new)
        ≡ create fields.now id (memory directory.old values.old) }
{
    let Some(fields) = fields.as_array::<512>() else {
        return Err(Refusal::BytesLength);
    };
    let half = Half {
        index: index_in(fields[31]),
        id,
        size: read64(fields, 0),
    };
    format(half, None, directory, values)
}
