// The 64-byte entry.
ghost use Rattle.std.specs.Prelude.{◌≡◌, eqb};
ghost use Rattle.octets.specs.Octets.{put};
ghost use Rattle.wire.specs.Entry.{byte_of, Names, read_command, write_command, front_of, dwords_of};

use octets::{runs, words};

#[derive(Clone, Copy)]
pub enum Opcode {
    Store = 0x01,
    Retrieve = 0x02,
    List = 0x06,
    Delete = 0x10,
    Exist = 0x14,
}

// The byte is no opcode's.
#[derive(Clone, Copy)]
pub struct UnknownOpcode;

impl TryFrom<u8> for Opcode {
    type Error = UnknownOpcode;

    ghost try_from_gives = { Names };

    fn try_from(byte: u8) -> Result<Opcode, UnknownOpcode> {
        match byte {
            0x01 => Ok(Opcode::Store),
            0x02 => Ok(Opcode::Retrieve),
            0x06 => Ok(Opcode::List),
            0x10 => Ok(Opcode::Delete),
            0x14 => Ok(Opcode::Exist),
            _ => Err(UnknownOpcode),
        }
    }
}

// What an entry says; the key is the first `len` of its sixteen bytes, amount is Dword 10. Opcode and options are the entry's bytes, known or not.
// Key and length stand side by side, here and up to `Found` of `store`: document 01 names this form, and `key_of` and `stale` read both.
#[derive(Clone, Copy)]
pub struct Command {
    pub opcode: u8,
    pub fused: u8,
    pub cid: u16,
    pub nsid: u32,
    pub key: [u8; 16],
    pub len: u8,
    pub options: u8,
    pub amount: u32,
}

impl Command {
    // By the byte, which is one test: `try_from` would tell all five apart.
    pub fn is(self, opcode: Opcode) -> bool
        ensures { result ≡ eqb self.opcode (byte_of opcode) }
    {
        self.opcode == opcode as u8
    }
}

pub fn read_entry(entry: &[u8; 64]) -> Command
    ensures { result ≡ read_command entry.now }
{
    let mut key = [0u8; 16];
    runs::copy_at(&entry[8..16], &mut key, 0);
    runs::copy_at(&entry[56..64], &mut key, 8);
    Command {
        opcode: entry[0],
        fused: entry[1] % 4,
        cid: words::read16(entry, 2),
        nsid: words::read32(entry, 4),
        key,
        len: entry[44],
        options: entry[45],
        amount: words::read32(entry, 40),
    }
}

// Three functions write an entry, as the prover's search reaches back over about six writes.
fn write_front(entry: &mut [u8; 64], c: Command)
    ensures { entry.new ≡ put 0 (front_of c) entry.old }
{
    words::write8(entry, 0, c.opcode);
    words::write8(entry, 1, c.fused);
    words::write16(entry, 2, c.cid);
    words::write32(entry, 4, c.nsid);
}

fn write_dwords(entry: &mut [u8; 64], c: Command)
    ensures { entry.new ≡ put 40 (dwords_of c) entry.old }
{
    words::write32(entry, 40, c.amount);
    words::write8(entry, 44, c.len);
    words::write8(entry, 45, c.options);
    runs::clear(entry, 46, 10);
}

pub fn write_entry(entry: &mut [u8; 64], c: Command)
    ensures { entry.new ≡ write_command c }
{
    write_front(entry, c);
    runs::copy_at(&c.key[0..8], entry, 8);
    runs::clear(entry, 16, 24);
    write_dwords(entry, c);
    runs::copy_at(&c.key[8..16], entry, 56);
}
