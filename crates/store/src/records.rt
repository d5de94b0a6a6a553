// The records: the fields of one, one written whole, and the places of values in many of them.
ghost use Rattle.std.specs.Prelude.{◌≡◌, ◌+◌, ◌-◌, ◌*◌, ◌^◌, ◌<◌, ◌≤◌, length, drop};
ghost use Rattle.octets.specs.Octets.{put};
ghost use Rattle.store.specs.Maps.{pair};
ghost use Rattle.store.specs.Records.{slot_in, record_of};
ghost use Rattle.store.specs.Slots.{raised};

use keys::orders::{ShortKey, Wide, widen};
use octets::runs::{clear, copy_at};
use octets::words::{read32, write32};

// What a record says, its key as numbers, and the key's length again as the word that sums go by. It is compiled into its callers, so that one who
// asks for a single field loads no other.
#[derive(Clone, Copy)]
pub struct Record {
    pub key: Wide,
    pub key_length: u32,
    pub place: u32,
    pub value_length: u32,
    pub owner: u32,
}

impl Record {
    pub fn read(records: &[u8], slot: u32) -> Record
        requires { 32 * slot + 32 ≤ length records.now }
        ensures { result ≡ slot_in (drop (32 * slot) records.now) }
    {
        let at = 32 * slot as usize;
        let key_length = read32(records, at + 16);
        Record {
            key: widen(records, at, u64::from(key_length)),
            key_length,
            place: read32(records, at + 20),
            value_length: read32(records, at + 24),
            owner: read32(records, at + 28),
        }
    }
}

// Key and value apart, here and in `verbs`: of one argument each clause would read `pair.entry.key.bytes.now`.
pub fn write_record(records: &mut [u8], slot: u32, id: u32, place: u32, key: ShortKey, value: &[u8])
    requires { (32 * slot + 32 ≤ length records.old) × (length value.now < 2 ^ 32) }
    ensures { records.new ≡ put (32 * slot) (record_of id place (pair key.entry.bytes.now value.now)) records.old }
{
    let at = 32 * slot as usize;
    let n = key.bytes.len();
    copy_at(key.bytes, records, at);
    clear(records, at + n, 16 - n);
    write32(records, at + 16, n as u32);
    write32(records, at + 20, place);
    write32(records, at + 24, value.len() as u32);
    write32(records, at + 28, id);
}

// A number added to the places from one slot up to another. It is added modulo 2^32, so that a difference is one too. Slot by slot: the library
// does not say what a slice holds once its chunks were lent for writing.
pub fn raise_places(records: &mut [u8], from: u32, to: u32, by: u32)
    requires { 32 * to ≤ length records.old }
    ensures { records.new ≡ raised by from (to - from) records.old }
{
    for j in from..to {
        let place = Record::read(records, j).place;
        write32(records, 32 * j as usize + 20, place.wrapping_add(by));
    }
}
