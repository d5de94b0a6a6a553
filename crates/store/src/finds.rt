// A key among the records, which stand in key order.
ghost use Rattle.std.specs.Prelude.{◌≡◌};
ghost use Rattle.keys.specs.Keys.{Padded};
ghost use Rattle.store.specs.Finds.{keys_in, found, KeysFit};

use crate::records::Record;
use keys::orders::widen;

// A key with the slot of the first record that is not below it, and whether that one holds it. They are two fields and no
// `Result<slot, slot>`: the definition `found` gives a value to both, and the facts that `maps/specs/Asks.antt` asks for read both. Key and
// length stand as in `Command`.
#[derive(Clone, Copy)]
pub struct Found {
    pub key: [u8; 16],
    pub len: u8,
    pub held: bool,
    pub slot: u32,
}

// As arrays the records are values, which the library searches by halves: their keys rise.
pub fn find(records: &[u8], count: u32, key: [u8; 16], len: u8) -> Found
    requires { KeysFit count records.now × Padded len key }
    ensures { result ≡ found key len (keys_in count records.now) }
{
    let wanted = widen(&key, 0, u64::from(len));
    let rows = &records.as_chunks::<32>().0[..count as usize];
    let slot = rows.partition_point(|row| Record::read(row, 0).key < wanted) as u32;
    Found {
        key,
        len,
        held: slot < count && Record::read(records, slot).key == wanted,
        slot,
    }
}
