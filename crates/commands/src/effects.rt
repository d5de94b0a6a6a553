// What a command does that no step refuses.
ghost use Rattle.std.specs.Prelude.{◌≡◌, length};
ghost use Rattle.memory.specs.Memory.{memory};
ghost use Rattle.commands.specs.Command.{response, respond};
ghost use Rattle.commands.specs.Ruled.{Ruled};

use changes::pairs::{erase, put};
use checking::checks::Checked;
use maps::looks::{hand_over, list_keys};
use store::finds::Found;
use wire::entries::{Command, Opcode};

// The answer is Dword 0. A Store's value is the data buffer's first bytes.
pub fn perform(
    c: Command,
    k: Checked,
    f: Found,
    buffer: &mut [u8],
    directory: &mut [u8],
    values: &mut [u8],
) -> u32
    requires { Ruled c k f (length buffer.old) directory.old values.old }
    ensures { response 0 result buffer.new directory.new values.new
        ≡ respond c buffer.old (memory directory.old values.old) }
{
    match Opcode::try_from(c.opcode).unwrap() {
        Opcode::Store => {
            let amount = c.amount as usize;
            put(directory, values, k, f, &buffer[..amount]);
            0
        }
        Opcode::Retrieve => hand_over(directory, values, k, f, buffer, c.amount),
        Opcode::List => {
            list_keys(directory, k, f, buffer, c.amount);
            0
        }
        Opcode::Delete => {
            erase(directory, values, k, f);
            0
        }
        Opcode::Exist => 0,
    }
}
