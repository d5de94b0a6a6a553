// A value handed over.
ghost use Rattle.std.specs.Prelude.{◌≡◌, ◌*◌, take, drop};
ghost use Rattle.octets.specs.Octets.{put};
ghost use Rattle.store.specs.Records.{value_length, value_in};
ghost use Rattle.store.specs.Slots.{CanCopy};

use crate::records::Record;
use octets::runs::copy_at;

// The value of a slot is a part of the values that starts in their middle, handed on to the copying function: the smaller of
// `amount` and its length. The answer is its whole length. `amount` stands beside the buffer, as the clause speaks of the whole of it.
pub fn copy_value(records: &[u8], values: &[u8], slot: u32, buffer: &mut [u8], amount: u32) -> u32
    requires { CanCopy slot amount records.now values.now buffer.old }
    ensures { (result ≡ value_length (drop (32 * slot) records.now))
        × (buffer.new
        ≡ put 0 (take amount (value_in (drop (32 * slot) records.now) values.now)) buffer.old) }
{
    let record = Record::read(records, slot);
    let place = record.place as usize;
    let moved = record.value_length.min(amount);
    let stop = place + moved as usize;
    copy_at(&values[place..stop], buffer, 0);
    record.value_length
}
