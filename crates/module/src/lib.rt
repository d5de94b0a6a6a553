#![tactic(auto)]
// The device's calls, in the order of `include/kv.h`; `module_c` exports them to C, so that each takes what C gives and answers
// with a number or one of C's structs.
ghost use Rattle.std.specs.Prelude.{◌≡◌, [], ◌∷◌};
ghost use Rattle.memory.specs.Memory.{memory};
ghost use Rattle.formatting.specs.Formatting.{half, formatted, format};
ghost use Rattle.wire.specs.Completion.{post};
ghost use Rattle.commands.specs.Command.{lent, outcome, command};
ghost use Rattle.room.specs.Room.{room};
ghost use Rattle.identify.specs.Identify.{identified, identify, create};
ghost use Rattle.quick.specs.Known.{known};
ghost use Rattle.scratch.specs.Calls.{reading, writing, filling, slices, ended, memory_call};

use commands::commands::command;
use formatting::formats::format;
use formatting::measures::Half;
use identify::creations::create;
use identify::pages::identify;
use quick::looks::{Look, known};
use refusals::numbers::number;
use room::polls::{Room, used_room};
use scratch::calls::{memory_fill, memory_read, memory_write};
use wire::completions::Post;

pub fn kv_format(index: u32, id: u32, size: u64, directory: &mut [u8], values: &mut [u8]) -> u32
    ensures { formatted result (memory directory.new values.new)
        ≡ format (half index id size ∷ []) (memory directory.old values.old) }
{
    number(format(Half { index, id, size }, None, directory, values))
}

pub fn kv_format_two(
    index1: u32,
    id1: u32,
    size1: u64,
    index2: u32,
    id2: u32,
    size2: u64,
    directory: &mut [u8],
    values: &mut [u8],
) -> u32
    ensures { formatted result (memory directory.new values.new)
        ≡ format (half index1 id1 size1 ∷ half index2 id2 size2 ∷ []) (memory directory.old values.old) }
{
    let first = Half {
        index: index1,
        id: id1,
        size: size1,
    };
    let second = Half {
        index: index2,
        id: id2,
        size: size2,
    };
    number(format(first, Some(second), directory, values))
}

pub fn kv_format_fields(fields: &[u8], id: u32, directory: &mut [u8], values: &mut [u8]) -> u32
    ensures { formatted result (memory directory.new values.new)
        ≡ create fields.now id (memory directory.old values.old) }
{
    number(create(fields, id, directory, values))
}

pub fn kv_command(
    entry: &[u8],
    completion: &mut [u8],
    buffer: &mut [u8],
    directory: &mut [u8],
    values: &mut [u8],
    head: u16,
    queue: u16,
    phase: u16,
) -> u32
    ensures { outcome result (lent completion.new buffer.new directory.new values.new)
        ≡ command (post head queue phase) entry.now
        (lent completion.old buffer.old directory.old values.old) }
{
    let post = Post { head, queue, phase };
    number(command(entry, completion, buffer, directory, values, post))
}

pub fn kv_used(id: u32, directory: &[u8], values: &[u8]) -> Room
    ensures { result ≡ room id (memory directory.now values.now) }
{
    used_room(id, directory, values)
}

pub fn kv_identify(page: &mut [u8], id: u32, directory: &[u8], values: &[u8]) -> u32
    ensures { identified result page.new ≡ identify id page.old (memory directory.now values.now) }
{
    number(identify(page, id, directory, values))
}

pub fn kv_known(key: &[u8], id: u32, directory: &[u8], values: &[u8]) -> Look
    ensures { result ≡ known key.now id (memory directory.now values.now) }
{
    known(key, id, directory, values)
}

pub fn kv_memory_read(
    entry: &[u8],
    completion: &mut [u8],
    buffer: &mut [u8],
    memory: &[u8],
    id: u32,
    head: u16,
    queue: u16,
    phase: u16,
) -> u32
    ensures { ended result (slices completion.new buffer.new memory.now)
        ≡ memory_call reading (post head queue phase) id entry.now
        (slices completion.old buffer.old memory.now) }
{
    let post = Post { head, queue, phase };
    number(memory_read(entry, completion, buffer, memory, id, post))
}

pub fn kv_memory_write(
    entry: &[u8],
    completion: &mut [u8],
    buffer: &[u8],
    memory: &mut [u8],
    id: u32,
    head: u16,
    queue: u16,
    phase: u16,
) -> u32
    ensures { ended result (slices completion.new buffer.now memory.new)
        ≡ memory_call writing (post head queue phase) id entry.now
        (slices completion.old buffer.now memory.old) }
{
    let post = Post { head, queue, phase };
    number(memory_write(entry, completion, buffer, memory, id, post))
}

pub fn kv_memory_fill(
    entry: &[u8],
    completion: &mut [u8],
    fill: u32,
    memory: &mut [u8],
    id: u32,
    head: u16,
    queue: u16,
    phase: u16,
) -> u32
    ensures { ended result (slices completion.new [] memory.new)
        ≡ memory_call (filling fill) (post head queue phase) id entry.now
        (slices completion.old [] memory.old) }
{
    let post = Post { head, queue, phase };
    number(memory_fill(entry, completion, fill, memory, id, post))
}
