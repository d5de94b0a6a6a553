// What a formatting needs: numbers 3 to 6 and 19, and how far both slices are written.
ghost use Rattle.std.specs.Prelude.{◌≡◌, ◌≤◌, IfOk};
ghost use Rattle.refusals.specs.Refusals.{number_in};
ghost use Rattle.octets.specs.Tests.{first_of};
ghost use Rattle.store.specs.Namespace.{fresh};
ghost use Rattle.memory.specs.Memory.{label_of};
ghost use Rattle.formatting.specs.Formatting.{halves, format_steps, reach_of};

use memory::labels::HEAD;
use memory::permits::permit;
use refusals::numbers::Refusal;
use store::namespaces::Label;

// What is asked for one namespace.
#[derive(Clone, Copy)]
pub struct Half {
    pub index: u32,
    pub id: u32,
    pub size: u64,
}

impl Half {
    // With no keys. No `From`, as a size may be too large for one.
    pub fn label(self) -> Label
        requires { self.size ≤ 65536 }
        ensures { result ≡ label_of (fresh self.index self.id self.size) }
    {
        Label {
            id: self.id,
            index: self.index,
            size: self.size as u32,
            ..Label::default()
        }
    }
}

// The ends of the records in the directory and of the values in the value slice.
#[derive(Clone, Copy)]
pub struct Reach {
    pub records: usize,
    pub values: usize,
}

// Of slices with these lengths. The sizes are summed once each of them is known to be small.
#[tactic(auto, unfolding(crate::specs::Formatting::format_steps))]
pub fn measure(
    first: Half,
    second: Option<Half>,
    directory: usize,
    values: usize,
) -> Result<Reach, Refusal>
    ensures number { number_in result ≡ first_of (format_steps (halves first second) directory values) }
    ensures reach { IfOk result (λ r. r ≡ reach_of (halves first second)) }
{
    let mut keys = permit(first.index, first.id, first.size)?.maxkeys;
    let mut sizes = first.size;
    if let Some(second) = second {
        keys += permit(second.index, second.id, second.size)?.maxkeys;
        if first.id == second.id {
            return Err(Refusal::EqualIds);
        }
        sizes += second.size;
        if 65536 < sizes {
            return Err(Refusal::Size);
        }
    }
    let records = HEAD + 32 * keys as usize;
    if (directory < records) | ((values as u64) < sizes) {
        return Err(Refusal::SliceLength);
    }
    Ok(Reach {
        records,
        values: sizes as usize,
    })
}
