// The reader of completions.
ghost use Rattle.std.specs.Prelude.{◌≡◌};
ghost use Rattle.refusals.specs.Refusals.{number_of};
ghost use Rattle.host.specs.Reply.{numbered, unread, reply};

use refusals::numbers::Refusal;
use wire::completions::{Completion, read_completion};

// For C, which has no `Result`: a house number and the completion's fields; kind is the status code type, `type` being a word of the language.
#[repr(C)]
#[derive(Clone, Copy, Default)]
pub struct Reply {
    pub number: u32,
    pub dword0: u32,
    pub head: u16,
    pub queue: u16,
    pub cid: u16,
    pub phase: u8,
    pub status: u8,
    pub kind: u8,
}

// Beside a number there is nothing else.
impl From<Refusal> for Reply {
    ghost from_gives = { λ r a. a ≡ unread (number_of r) };

    fn from(refusal: Refusal) -> Reply {
        Reply {
            number: refusal.number(),
            ..Reply::default()
        }
    }
}

impl From<Completion> for Reply {
    ghost from_gives = { λ c a. a ≡ numbered 0 c };

    fn from(c: Completion) -> Reply {
        Reply {
            number: 0,
            dword0: c.dword0,
            head: c.head,
            queue: c.queue,
            cid: c.cid,
            phase: c.phase,
            status: c.status,
            kind: c.kind,
        }
    }
}

#[tactic(auto, unfolding(crate::specs::Reply::reply))]
pub fn kv_read_completion(completion: &[u8]) -> Reply
    ensures { result ≡ reply completion.now }
{
    let Some(completion) = completion.as_array::<16>() else {
        return Reply::from(Refusal::CompletionLength);
    };
    Reply::from(read_completion(completion))
}
