// The entries of a List page.
ghost use Rattle.std.specs.Prelude.{◌≡◌, true, ◌+◌, ◌%◌, ◌≤◌, length, take, drop};
ghost use Rattle.octets.specs.Octets.{part, put, all_zero};
ghost use Rattle.sheets.specs.Page.{entry_size, page_entry};

use octets::{runs, words};

// Two bytes of length and the key, rounded up to whole words.
pub fn page_entry_size(n: usize) -> usize
    requires { n ≤ 65535 }
    ensures { result ≡ entry_size n }
{
    (n + 5) / 4 * 4
}

// All bytes of a word are read before one is written, so that the compiler moves them at once.
fn copy_word<const N: usize>(key: &[u8], from: usize, rest: &mut [u8], at: usize)
    requires { (from + N ≤ length key.now) × (at + N ≤ length rest.old) }
    ensures { rest.new ≡ put at (part from N key.now) rest.old }
{
    let word: [u8; N] = words::bytes_at(key, from);
    runs::copy_at(&word, rest, at);
}

// A key as it stands in a record: in sixteen bytes, with zeros behind it. The length stands beside them, as an entry has some of the zeros
// too; the bytes are a slice, since an array of it would come through an `Option`.
#[derive(Clone, Copy)]
pub struct Field<'a> {
    pub bytes: &'a [u8],
    pub len: usize,
    pub ghost sixteen: { length bytes.now ≡ 16 },
    pub ghost fits: { len ≤ 16 },
    pub ghost clear: { all_zero (drop len bytes.now) ≡ true },
}

// An entry is written word by word, each straight from the record and only where the entry reaches it, so that the compiler needs
// no copy of the key and no loop over its bytes. The word that holds the key's end holds the entry's zeros too. That the
// entry fits into what remains is between two values, and so a clause.
impl Field<'_> {
    // The length, and the key's first two bytes.
    fn write_first(&self, rest: &mut [u8])
        requires { entry_size self.now.len ≤ length rest.old }
        ensures { rest.new ≡ put 0 (part 0 4 (page_entry (take self.now.len self.now.bytes.now))) rest.old }
    {
        words::write16(rest, 0, self.len as u16);
        copy_word::<2>(self.bytes, 0, rest, 2);
    }

    // Four bytes of the key, from an index on.
    fn write_word(&self, rest: &mut [u8], from: usize)
        requires { (entry_size self.now.len ≤ length rest.old) × (from ≤ 12) × (from % 4 ≡ 2) }
        ensures { rest.new ≡ put (2 + from) (part (2 + from) 4 (page_entry (take self.now.len self.now.bytes.now))) rest.old }
    {
        if from < self.len {
            copy_word::<4>(self.bytes, from, rest, 2 + from);
        }
    }

    // The key's last two bytes; the zeros behind them stand in no record.
    fn write_last(&self, rest: &mut [u8])
        requires { entry_size self.now.len ≤ length rest.old }
        ensures { rest.new ≡ put 16 (part 16 4 (page_entry (take self.now.len self.now.bytes.now))) rest.old }
    {
        if 14 < self.len {
            copy_word::<2>(self.bytes, 14, rest, 16);
            words::write16(rest, 18, 0);
        }
    }

    pub fn write_page_entry(&self, rest: &mut [u8])
        requires { entry_size self.now.len ≤ length rest.old }
        ensures { rest.new ≡ put 0 (page_entry (take self.now.len self.now.bytes.now)) rest.old }
    {
        self.write_first(rest);
        self.write_word(rest, 2);
        self.write_word(rest, 6);
        self.write_word(rest, 10);
        self.write_last(rest);
    }
}
