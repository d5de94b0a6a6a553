// The map read: a key looked up, its pair's room, a value handed over, keys listed.
// No type joins `directory, k`, as `directory` is lent for reading here and for writing in `changes`; nor `k, f`, which would spare one argument
// and have each clause take it apart. Amounts and sizes stand beside the buffer, as the clauses speak of the whole of it.
ghost use Rattle.std.specs.Prelude.{◌≡◌, ◌+◌, length, take};
ghost use Rattle.octets.specs.Octets.{put};
ghost use Rattle.keys.specs.Keys.{Padded};
ghost use Rattle.sheets.specs.Page.{page, shown};
ghost use Rattle.store.specs.Maps.{value_of};
ghost use Rattle.store.specs.Finds.{found, found_key};
ghost use Rattle.memory.specs.Memory.{memory, pairs_at};
ghost use Rattle.maps.specs.Asks.{keys_at, room_at, CanLook, CanWeigh, CanHand, CanList};

use crate::lists::write_list;
use checking::checks::Checked;
use store::finds::{Found, find};
use store::reads::copy_value;
use store::records::Record;

pub fn look_up(directory: &[u8], k: Checked, key: [u8; 16], len: u8) -> Found
    requires { CanLook k directory.now × Padded len key }
    ensures { result ≡ found key len (keys_at k directory.now) }
{
    find(&directory[k.start..k.end], k.label.count, key, len)
}

// The bytes of a pair.
fn pair_room(len: u8, value: u32) -> u64
    ensures { result ≡ len + value }
{
    u64::from(len) + u64::from(value)
}

// The room of the pair that the key looked up holds, 0 where it is absent, as `room_at` and step j reckon with it.
pub fn held_room(directory: &[u8], k: Checked, f: Found) -> u64
    requires { CanWeigh k f directory.now }
    ensures { result ≡ room_at k f directory.now }
{
    if f.held {
        let record = Record::read(&directory[k.start..k.end], f.slot);
        return pair_room(f.len, record.value_length);
    }
    0
}

// The smaller of `amount` and the value's length, to the front of the buffer; the answer is the whole length.
pub fn hand_over(
    directory: &[u8],
    values: &[u8],
    k: Checked,
    f: Found,
    buffer: &mut [u8],
    amount: u32,
) -> u32
    requires { CanHand k f amount directory.now values.now buffer.old }
    ensures { (result ≡ length (value_of (found_key f) (pairs_at k.label.id (memory directory.now values.now))))
        × (buffer.new
        ≡ put 0 (take amount (value_of (found_key f) (pairs_at k.label.id (memory directory.now values.now)))) buffer.old) }
{
    let stop = k.base + k.label.size as usize;
    copy_value(
        &directory[k.start..k.end],
        &values[k.base..stop],
        f.slot,
        buffer,
        amount,
    )
}

// The page of the keys from the one that was looked up on, in the first `size` bytes of the buffer.
pub fn list_keys(directory: &[u8], k: Checked, f: Found, buffer: &mut [u8], size: u32)
    requires { CanList k f size directory.now buffer.old }
    ensures { buffer.new ≡ put 0 (page (shown size (found_key f) (keys_at k directory.now))) buffer.old }
{
    let records = &directory[k.start..k.end];
    write_list(records, k.label.count, f.slot, buffer, size);
}
