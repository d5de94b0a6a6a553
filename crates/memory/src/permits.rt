// What a half of the head may say: numbers 3 to 5.
ghost use Rattle.std.specs.Prelude.{◌≡◌, IfOk};
ghost use Rattle.octets.specs.Tests.{first_of};
ghost use Rattle.table.specs.Formats.{format_of};
ghost use Rattle.store.specs.Namespace.{permit_steps};
ghost use Rattle.refusals.specs.Refusals.{number_in};

use refusals::numbers::Refusal;
use table::formats::{Format, format_at};

// The format, where the index is one of the sixteen.
pub fn permit(index: u32, id: u32, size: u64) -> Result<Format, Refusal>
    ensures number { number_in result ≡ first_of (permit_steps index id size) }
    ensures format { IfOk result (λ f. f ≡ format_of index) }
{
    if 15 < index {
        return Err(Refusal::FormatIndex);
    }
    if (id == 0) | (0xffff_ffff <= id) {
        return Err(Refusal::NamespaceId);
    }
    if (size == 0) | (65536 < size) {
        return Err(Refusal::Size);
    }
    Ok(format_at(index))
}
