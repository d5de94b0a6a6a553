// Whether two parts are the image of a map, found in one pass over the records, with the sums that the pass has made.
ghost use Rattle.std.specs.Prelude.{◌≡◌};
ghost use Rattle.octets.specs.Tests.{all};
ghost use Rattle.legal.specs.Checks.{Readable, Checkable, slot_tests, first_wide, pass_over, part_sums};

use keys::orders::Wide;
use octets::runs::all_zero;
use store::namespaces::Label;
use store::records::Record;
use table::formats::Format;

// The sum of the value lengths and the used room of parts that are legal, so that no command adds them up again.
#[derive(Clone, Copy)]
pub struct Sums {
    pub total: u32,
    pub used: u32,
}

fn slot_ok(r: Record, before: Wide, total: u32, id: u32, f: Format) -> bool
    ensures { result ≡ all (slot_tests id f total before r) }
{
    let sized = (1 <= r.key_length)
        & (r.key_length <= u32::from(f.keymax))
        & (r.value_length <= f.valuemax);
    if !(sized & (r.place == total) & (r.owner == id)) {
        return false;
    }
    before < r.key && r.key.is_clear()
}

// The key before the first record is the empty one, which is below every other. Slot by slot, as `pass_over` takes them: chunks of 32 bytes would
// still be read by `Record::read`.
#[tactic(auto, using(crate::proofs::checks::Turns::slot_refused, crate::proofs::checks::Turns::over_done))]
fn check_records(records: &[u8], id: u32, count: u32, f: Format) -> Option<Sums>
    requires { Readable count f records.now }
    ensures { result ≡ pass_over count id f 0 0 first_wide records.now }
{
    let mut before = Wide::default();
    let mut total: u32 = 0;
    let mut keys: u32 = 0;
    for j in 0..count {
        let r = Record::read(records, j);
        if !slot_ok(r, before, total, id, f) {
            return None;
        }
        total += r.value_length;
        keys += r.key_length;
        before = r.key;
    }
    Some(Sums {
        total,
        used: keys + total,
    })
}

// The two parts of a namespace under its own format, which the permit before has found, so
// that it is not looked up again.
#[tactic(auto, using(crate::proofs::checks::Answers::part_laws), unfolding(octets::specs::Octets::part))]
pub fn check_part(records: &[u8], values: &[u8], n: Label, f: Format) -> Option<Sums>
    requires { Checkable n f records.now values.now }
    ensures { result ≡ part_sums n records.now values.now }
{
    if f.maxkeys < n.count {
        return None;
    }
    let sums = check_records(records, n.id, n.count, f)?;
    if n.size < sums.used {
        return None;
    }
    let end = 32 * (n.count as usize);
    let total = sums.total as usize;
    (all_zero(&records[end..]) & all_zero(&values[total..])).then_some(sums)
}
