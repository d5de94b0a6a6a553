// The verbs on a records part and a values part: a pair put in before a slot, the pair at a slot taken out, or another put in its
// place. Image in, image out.
ghost use Rattle.std.specs.Prelude.{◌≡◌, ◌+◌, ◌-◌, ◌*◌, ◌<◌, ◌≤◌, ◌++◌, length};
ghost use Rattle.octets.specs.Octets.{part, put, zeros};
ghost use Rattle.store.specs.Maps.{pair};
ghost use Rattle.store.specs.Records.{pairs_in};
ghost use Rattle.store.specs.Parts.{Holds, inserted, erased};
ghost use Rattle.verbs.specs.Verbs.{record_in, record_out, place_for, CanRecord, CanInsert, CanRemove, CanReplace};

use keys::orders::ShortKey;
use octets::runs::{clear, copy_at, slide};
use store::records::{Record, raise_places, write_record};

// A value put in at an index, before n bytes.
fn insert_value(values: &mut [u8], at: usize, n: usize, value: &[u8])
    requires { at + length value.now + n ≤ length values.old }
    ensures { values.new ≡ put at (value.now ++ part at n values.old) values.old }
{
    slide(values, at, n, at + value.len());
    copy_at(value, values, at);
}

// A value of k bytes taken out at an index, before n bytes.
fn remove_value(values: &mut [u8], at: usize, k: usize, n: usize)
    requires { at + k + n ≤ length values.old }
    ensures { values.new ≡ put at (part (at + k) n values.old ++ zeros k) values.old }
{
    slide(values, at + k, n, at);
    clear(values, at + n, k);
}

// A slot of a namespace, by the numbers that a verb there goes by: the namespace's id, how many pairs it holds, and the sum of
// their value lengths. What is put in may stand behind the last pair, what is taken out may not, so that neither bound is the type's.
#[derive(Clone, Copy)]
pub struct Spot {
    pub id: u32,
    pub count: u32,
    pub total: u32,
    pub slot: u32,
}

impl Spot {
    // A record put in, and the places behind it raised by its value's length.
    fn insert_record(self, records: &mut [u8], place: u32, key: ShortKey, value: &[u8])
        requires { CanRecord self value.now records.old }
        ensures { records.new
            ≡ record_in self.id place (pair key.entry.bytes.now value.now) self.slot (self.count - self.slot) records.old }
    {
        let at = 32 * self.slot as usize;
        slide(records, at, 32 * (self.count - self.slot) as usize, at + 32);
        write_record(records, self.slot, self.id, place, key, value);
        raise_places(records, self.slot + 1, self.count + 1, value.len() as u32);
    }

    // The record taken out, after a number is added to the places behind it.
    #[tactic(auto, unfolding(crate::specs::Verbs::record_out))]
    fn remove_record(self, records: &mut [u8], by: u32)
        requires { (self.slot < self.count) × (32 * self.count ≤ length records.old) }
        ensures { records.new ≡ record_out by self.slot (self.count - (self.slot + 1)) records.old }
    {
        let behind = self.slot + 1;
        raise_places(records, behind, self.count, by);
        remove_value(
            records,
            32 * self.slot as usize,
            32,
            32 * (self.count - behind) as usize,
        );
    }

    // Where the value begins or, behind the last slot, would.
    #[tactic(auto, unfolding(crate::specs::Verbs::place_for))]
    fn place(self, records: &[u8]) -> u32
        requires { 32 * self.count ≤ length records.now }
        ensures { result ≡ place_for records.now self }
    {
        if self.slot < self.count {
            return Record::read(records, self.slot).place;
        }
        self.total
    }

    // A pair put in before the one at the slot.
    #[tactic(auto, using(crate::proofs::slots::Images::insert_bounds, crate::proofs::slots::Images::insert_image))]
    pub fn insert(self, records: &mut [u8], values: &mut [u8], key: ShortKey, value: &[u8])
        requires { CanInsert self value.now records.old values.old }
        ensures { Holds self.id (length records.old) (length values.old)
            (inserted self.slot (pair key.entry.bytes.now value.now) (pairs_in self.count records.old values.old))
            records.new values.new }
    {
        let place = self.place(records);
        insert_value(values, place as usize, (self.total - place) as usize, value);
        self.insert_record(records, place, key, value);
    }

    #[tactic(auto, using(crate::proofs::slots::Images::remove_bounds, crate::proofs::slots::Images::remove_inside))]
    pub fn remove(self, records: &mut [u8], values: &mut [u8])
        requires { CanRemove self records.old values.old }
        ensures { Holds self.id (length records.old) (length values.old)
            (erased self.slot (pairs_in self.count records.old values.old))
            records.new values.new }
    {
        let record = Record::read(records, self.slot);
        let len = record.value_length;
        remove_value(
            values,
            record.place as usize,
            len as usize,
            (self.total - record.place - len) as usize,
        );
        self.remove_record(records, len.wrapping_neg());
    }

    // The pair at the slot taken out, and another put in there.
    #[tactic(auto, using(crate::proofs::slots::Images::remove_bounds, crate::proofs::slots::Images::remove_inside))]
    pub fn replace(self, records: &mut [u8], values: &mut [u8], key: ShortKey, value: &[u8])
        requires { CanReplace self value.now records.old values.old }
        ensures { Holds self.id (length records.old) (length values.old)
            (inserted self.slot (pair key.entry.bytes.now value.now)
            (erased self.slot (pairs_in self.count records.old values.old)))
            records.new values.new }
    {
        let len = Record::read(records, self.slot).value_length;
        self.remove(records, values);
        let left = Spot {
            count: self.count - 1,
            total: self.total - len,
            ..self
        };
        left.insert(records, values, key, value);
    }
}
