// The three commands, on a request that is already read: the status that refuses it, or the bytes moved. Three for the reason in `calls.rt`.
ghost use Rattle.std.specs.Prelude.{◌≡◌, []};
ghost use Rattle.refusals.specs.Refusals.{code_in};
ghost use Rattle.scratch.specs.Calls.{reading, writing, filling, tried, attempt};

use crate::moves::fill_long;
use octets::runs::copy_at;
use ranges::requests::Request;
use refusals::statuses::Status;

#[tactic(auto, unfolding(crate::specs::Calls::attempt, octets::specs::Octets::part))]
pub fn read_out(q: Request, id: u32, buffer: &mut [u8], memory: &[u8]) -> Result<(), Status>
    ensures { tried (code_in result) buffer.new memory.now ≡ attempt reading id q buffer.old memory.now }
{
    q.admit(id, memory.len(), buffer.len())?;
    let start = q.start as usize;
    copy_at(&memory[start..start + q.len as usize], buffer, 0);
    Ok(())
}

#[tactic(auto, unfolding(crate::specs::Calls::attempt))]
pub fn write_in(q: Request, id: u32, buffer: &[u8], memory: &mut [u8]) -> Result<(), Status>
    ensures { tried (code_in result) buffer.now memory.new ≡ attempt writing id q buffer.now memory.old }
{
    q.admit(id, memory.len(), buffer.len())?;
    copy_at(&buffer[..q.len as usize], memory, q.start as usize);
    Ok(())
}

#[tactic(auto, unfolding(crate::specs::Calls::attempt))]
pub fn fill_up(q: Request, id: u32, word: u32, memory: &mut [u8]) -> Result<(), Status>
    ensures { tried (code_in result) [] memory.new ≡ attempt (filling word) id q [] memory.old }
{
    q.admit(id, memory.len(), q.len as usize)?;
    fill_long(memory, q.start as usize, (q.len / 4) as usize, word);
    Ok(())
}
