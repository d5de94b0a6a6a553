// The 16-byte completion. Shifts and masks join the parts of its last word and take it apart, as document 01 wants to read it.
ghost use Rattle.std.specs.Prelude.{◌≡◌, ◌/◌, ◌%◌, ◌^◌, ◌<◌, ◌≤◌};
ghost use Rattle.wire.specs.Completion.{word, write_completion, read_completion, completed};

use octets::words;

// head and queue are those of the submission queue; kind is the status code type, `type` being a word of the language. Phase, status
// and kind are numbers and no enums: a host reads what any device wrote, and `read_completion` in `specs/Completion.antt` takes whatever bits stand
// there.
#[derive(Clone, Copy)]
pub struct Completion {
    pub dword0: u32,
    pub head: u16,
    pub queue: u16,
    pub cid: u16,
    pub phase: u8,
    pub status: u8,
    pub kind: u8,
}

// What the caller gives for a completion, but for the slice: a struct that holds a `&mut` tells its caller's proof less.
#[derive(Clone, Copy)]
pub struct Post {
    pub head: u16,
    pub queue: u16,
    pub phase: u16,
}

impl Post {
    // The status comes as its byte: which there are, the crate `refusals` says, and this one goes without it.
    pub fn completion(self, cid: u16, status: u8, dword0: u32) -> Completion
        ensures { result ≡ completed self cid status dword0 }
    {
        Completion {
            dword0,
            head: self.head,
            queue: self.queue,
            cid,
            phase: (self.phase % 2) as u8,
            status,
            kind: 0,
        }
    }
}

// A phase above 1 counts by its lowest bit.
fn pack(c: Completion) -> u16
    requires { c.kind < 8 }
    ensures { result ≡ word c }
{
    u16::from(c.phase & 1) | (u16::from(c.status) << 1) | (u16::from(c.kind) << 9)
}

// One part of the word, by its first bit and how many it has.
fn bits<const FIRST: u32, const WIDTH: u32>(w: u16) -> u8
    requires { (FIRST < 16) × (WIDTH ≤ 8) }
    ensures { result ≡ w / 2 ^ FIRST % 2 ^ WIDTH }
{
    ((w >> FIRST) & ((1 << WIDTH) - 1)) as u8
}

pub fn write_completion(completion: &mut [u8; 16], c: Completion)
    requires { c.kind < 8 }
    ensures { completion.new ≡ write_completion c }
{
    let word = pack(c);
    words::write32(completion, 0, c.dword0);
    words::write32(completion, 4, 0);
    words::write16(completion, 8, c.head);
    words::write16(completion, 10, c.queue);
    words::write16(completion, 12, c.cid);
    words::write16(completion, 14, word);
}

pub fn read_completion(completion: &[u8; 16]) -> Completion
    ensures { result ≡ read_completion completion.now }
{
    let word = words::read16(completion, 14);
    Completion {
        dword0: words::read32(completion, 0),
        head: words::read16(completion, 8),
        queue: words::read16(completion, 10),
        cid: words::read16(completion, 12),
        phase: bits::<0, 1>(word),
        status: bits::<1, 8>(word),
        kind: bits::<9, 3>(word),
    }
}
