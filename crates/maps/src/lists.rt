// The List page, written entry by entry.
ghost use Rattle.std.specs.Prelude.{◌≡◌, ◌+◌, ◌-◌, ◌*◌, ◌≤◌, length, drop};
ghost use Rattle.octets.specs.Octets.{put};
ghost use Rattle.sheets.specs.Page.{page, fits};
ghost use Rattle.store.specs.Records.{key_length};
ghost use Rattle.store.specs.Finds.{keys_in, KeyFits};
ghost use Rattle.maps.specs.Asks.{Listing};

use octets::words;
use sheets::pages::{Field, page_entry_size};
use store::records::Record;

// A function of its own, so that the bound is asked for once.
fn key_len(records: &[u8], slot: u32) -> usize
    requires { (32 * slot + 32 ≤ length records.now) × KeyFits (drop (32 * slot) records.now) }
    ensures { (result ≡ key_length (drop (32 * slot) records.now)) × (result ≤ 16) }
{
    Record::read(records, slot).key_length as usize
}

// The page of the keys from a slot on: up to the first entry that has no room left, and nothing is written behind it. By slots, as their
// difference is the page's count; an entry is lent what remains of the buffer (document 01).
pub fn write_list(records: &[u8], count: u32, slot: u32, buffer: &mut [u8], size: u32)
    requires { Listing count slot size records.now buffer.old }
    ensures { buffer.new ≡ put 0 (page (fits (size - 4) (drop slot (keys_in count records.now)))) buffer.old }
{
    let end = size as usize;
    let mut at: usize = 4;
    for j in slot..count {
        let from = 32 * j as usize;
        let len = key_len(records, j);
        let entry = page_entry_size(len);
        if end - at < entry {
            words::write32(buffer, 0, j - slot);
            return;
        }
        // Straight from the record, whose sixteen key bytes hold the zeros of the entry too.
        let field = Field {
            bytes: &records[from..from + 16],
            len,
        };
        field.write_page_entry(&mut buffer[at..end]);
        at += entry;
    }
    words::write32(buffer, 0, count - slot);
}
