// What an entry says to a memory command, and whether it is let pass: the table of `specs/Request.antt`, one for the three commands.
ghost use Rattle.std.specs.Prelude.{◌≡◌, ◌+◌, [], ◌∷◌, ltb};
ghost use Rattle.octets.specs.Tests.{first_of};
ghost use Rattle.refusals.specs.Refusals.{number_in, code_in};
ghost use Rattle.ranges.specs.Request.{read_request, not_memory, statuses};

use octets::words;
use refusals::numbers::Refusal;
use refusals::statuses::Status;

// The range has `len` bytes from byte `start` on.
#[derive(Clone, Copy)]
pub struct Request {
    pub cid: u16,
    pub nsid: u32,
    pub start: u64,
    pub len: u32,
}

// The lengths of the entry and the completion are in their types.
pub fn check_length(memory: &[u8]) -> Result<(), Refusal>
    ensures { number_in result ≡ first_of (not_memory memory.now ∷ []) }
{
    if (65536 < memory.len()) | !(memory.len() % 4 == 0) {
        return Err(Refusal::MemoryLength);
    }
    Ok(())
}

impl Request {
    // No `From`: as with `Record::read`, what bytes say is read from them.
    #[tactic(auto, unfolding(crate::specs::Request::read_request))]
    pub fn read(entry: &[u8; 64]) -> Request
        ensures { result ≡ read_request entry.now }
    {
        Request {
            cid: words::read16(entry, 2),
            nsid: words::read32(entry, 4),
            start: words::read64(entry, 40),
            len: words::read32(entry, 48),
        }
    }

    // 64 bits may not hold the range's end.
    fn is_past(self, size: usize) -> bool
        ensures { result ≡ ltb size (self.start + self.len) }
    {
        let end = self.start.checked_add(u64::from(self.len));
        end.is_none_or(|end| (size as u64) < end)
    }

    // `room` is what the data buffer has; of a command without one, the range itself.
    pub fn admit(self, id: u32, size: usize, room: usize) -> Result<(), Status>
        ensures { code_in result ≡ first_of (statuses self id size (ltb room self.len)) }
    {
        if self.nsid != id {
            return Err(Status::InvalidNamespace);
        }
        if !((self.start % 4 == 0) & (self.len % 4 == 0)) {
            return Err(Status::InvalidField);
        }
        if self.is_past(size) {
            return Err(Status::OutOfRange);
        }
        if room < self.len as usize {
            return Err(Status::DataTransfer);
        }
        Ok(())
    }
}
