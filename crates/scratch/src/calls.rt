// The memory commands from their bytes. The three stand written out: of what a closure wrote through a borrow that it holds, its caller's proof
// knows nothing afterwards, so no function that takes the effect can say what becomes of the buffer or the memory. A trait over three structs that
// hold the borrows would be longer than what the three share, and their common beginning would have to hand back a `&mut` in a `Result`, of
// which Rattle tells a caller nothing where a slice is lent.
ghost use Rattle.std.specs.Prelude.{◌≡◌, []};
ghost use Rattle.refusals.specs.Refusals.{number_in, code_in};
ghost use Rattle.wire.specs.Completion.{posted};
ghost use Rattle.scratch.specs.Calls.{reading, writing, filling, slices, ended, memory_call};

use crate::effects::{fill_up, read_out, write_in};
use ranges::requests::{Request, check_length};
use refusals::numbers::Refusal;
use refusals::statuses::{Status, code};
use wire::completions::{Post, write_completion};

fn conclude(completion: &mut [u8; 16], post: Post, cid: u16, outcome: Result<(), Status>)
    ensures { completion.new ≡ posted post cid (code_in outcome) 0 }
{
    write_completion(completion, post.completion(cid, code(outcome), 0));
}

#[tactic(auto, unfolding(crate::specs::Calls::memory_call))]
pub fn memory_read(
    entry: &[u8],
    completion: &mut [u8],
    buffer: &mut [u8],
    memory: &[u8],
    id: u32,
    post: Post,
) -> Result<(), Refusal>
    ensures { ended (number_in result) (slices completion.new buffer.new memory.now)
        ≡ memory_call reading post id entry.now
        (slices completion.old buffer.old memory.now) }
{
    let Some(entry) = entry.as_array::<64>() else {
        return Err(Refusal::EntryLength);
    };
    let Some(completion) = completion.as_mut_array::<16>() else {
        return Err(Refusal::CompletionLength);
    };
    check_length(memory)?;
    let request = Request::read(entry);
    let outcome = read_out(request, id, buffer, memory);
    conclude(completion, post, request.cid, outcome);
    Ok(())
}

#[tactic(auto, unfolding(crate::specs::Calls::memory_call))]
pub fn memory_write(
    entry: &[u8],
    completion: &mut [u8],
    buffer: &[u8],
    memory: &mut [u8],
    id: u32,
    post: Post,
) -> Result<(), Refusal>
    ensures { ended (number_in result) (slices completion.new buffer.now memory.new)
        ≡ memory_call writing post id entry.now
        (slices completion.old buffer.now memory.old) }
{
    let Some(entry) = entry.as_array::<64>() else {
        return Err(Refusal::EntryLength);
    };
    let Some(completion) = completion.as_mut_array::<16>() else {
        return Err(Refusal::CompletionLength);
    };
    check_length(memory)?;
    let request = Request::read(entry);
    let outcome = write_in(request, id, buffer, memory);
    conclude(completion, post, request.cid, outcome);
    Ok(())
}

#[tactic(auto, unfolding(crate::specs::Calls::memory_call))]
pub fn memory_fill(
    entry: &[u8],
    completion: &mut [u8],
    word: u32,
    memory: &mut [u8],
    id: u32,
    post: Post,
) -> Result<(), Refusal>
    ensures { ended (number_in result) (slices completion.new [] memory.new)
        ≡ memory_call (filling word) post id entry.now
        (slices completion.old [] memory.old) }
{
    let Some(entry) = entry.as_array::<64>() else {
        return Err(Refusal::EntryLength);
    };
    let Some(completion) = completion.as_mut_array::<16>() else {
        return Err(Refusal::CompletionLength);
    };
    check_length(memory)?;
    let request = Request::read(entry);
    let outcome = fill_up(request, id, word, memory);
    conclude(completion, post, request.cid, outcome);
    Ok(())
}
