// One command, from its entry to its completion.
ghost use Rattle.std.specs.Prelude.{◌≡◌, length};
ghost use Rattle.std.specs.Result.{result_unwrap_or};
ghost use Rattle.refusals.specs.Refusals.{number_in, code_in};
ghost use Rattle.memory.specs.Memory.{memory};
ghost use Rattle.commands.specs.Command.{response, respond, lent, serve, outcome, command};
ghost use Rattle.commands.specs.Ruled.{Admitted};

use crate::effects::perform;
use checking::checks::{Checked, check};
use maps::looks::{held_room, look_up};
use refusals::numbers::Refusal;
use refusals::statuses::{Status, code};
use rules::steps::{Stock, View, decide_early, decide_late};
use wire::completions::{Post, write_completion};
use wire::entries::{Command, read_entry};

// Steps i and j of a command that those before let pass, and the effect where neither refuses. The answer is Dword 0.
fn carry_out(
    c: Command,
    k: Checked,
    buffer: &mut [u8],
    directory: &mut [u8],
    values: &mut [u8],
) -> Result<u32, Status>
    requires { Admitted c k (length buffer.old) directory.old values.old }
    ensures { response (code_in result) (result_unwrap_or result 0) buffer.new directory.new values.new
        ≡ respond c buffer.old (memory directory.old values.old) }
{
    let f = look_up(directory, k, c.key, c.len);
    let old = held_room(directory, k, f);
    let u = Stock {
        held: f.held,
        old,
        used: k.label.used,
        count: k.label.count,
        maxkeys: k.format.maxkeys,
        size: k.label.size,
    };
    decide_late(c, u)?;
    Ok(perform(c, k, f, buffer, directory, values))
}

// The key is not looked for before steps a to h have let the command pass.
#[tactic(auto, using(crate::proofs::commands::Seen::refused_illegal))]
fn respond(
    c: Command,
    buffer: &mut [u8],
    directory: &mut [u8],
    values: &mut [u8],
) -> Result<u32, Status>
    ensures { response (code_in result) (result_unwrap_or result 0) buffer.new directory.new values.new
        ≡ respond c buffer.old (memory directory.old values.old) }
{
    // `?` would copy what was found
    let Some(k) = check(directory, values, c.nsid) else {
        return Err(Status::Internal);
    };
    let v = View {
        legal: true,
        format: k.format,
        id: k.label.id,
        room: buffer.len(),
    };
    decide_early(c, v)?;
    carry_out(c, k, buffer, directory, values)
}

// A command that is already read.
#[tactic(auto, unfolding(crate::specs::Command::serve))]
pub fn step(
    c: Command,
    completion: &mut [u8; 16],
    buffer: &mut [u8],
    directory: &mut [u8],
    values: &mut [u8],
    post: Post,
)
    ensures { lent completion.new buffer.new directory.new values.new
        ≡ serve post c
        (lent completion.old buffer.old directory.old values.old) }
{
    let r = respond(c, buffer, directory, values);
    write_completion(completion, post.completion(c.cid, code(r), r.unwrap_or(0)));
}

// A command from its bytes.
#[tactic(auto, unfolding(crate::specs::Command::command))]
pub fn command(
    entry: &[u8],
    completion: &mut [u8],
    buffer: &mut [u8],
    directory: &mut [u8],
    values: &mut [u8],
    post: Post,
) -> Result<(), Refusal>
    ensures { outcome (number_in result) (lent completion.new buffer.new directory.new values.new)
        ≡ command post entry.now
        (lent completion.old buffer.old directory.old values.old) }
{
    let Some(entry) = entry.as_array::<64>() else {
        return Err(Refusal::EntryLength);
    };
    let Some(completion) = completion.as_mut_array::<16>() else {
        return Err(Refusal::CompletionLength);
    };
    step(
        read_entry(entry),
        completion,
        buffer,
        directory,
        values,
        post,
    );
    Ok(())
}
