#![tactic(auto)]
// The bench program (docs/MANUAL.md, section 13). What is read and written no contract can say, so that all else stands in functions
// on slices (`turns.rt`, `texts.rt`, `spans.rt`). A read or a write that fails ends the program with that error. Buffers are arrays of fixed
// lengths, as there is no heap, and go down one by one, as what a struct of `&mut`s holds is told less of.
mod spans;
mod texts;
mod turns;

ghost use Rattle.std.specs.Prelude.{◌≤◌, length};

use module::kv_format;
use std::io;
use std::io::{BufRead, ErrorKind, Read, Write};
use turns::{head_of, room_of, turn};
use wire::entries::{Opcode, read_entry};

// Where the input breaks off, the command is not run.
fn cut(output: &mut impl Write) -> io::Result<bool> {
    output.write_all(b"cut\n")?;
    Ok(false)
}

// Whether the input had a byte for each of the buffer: a yes or no and no `Option`, as the caller has the buffer already.
fn read_whole(input: &mut impl Read, buffer: &mut [u8]) -> io::Result<bool> {
    match input.read_exact(buffer) {
        Ok(()) => Ok(true),
        Err(error) if error.kind() == ErrorKind::UnexpectedEof => Ok(false),
        Err(error) => Err(error),
    }
}

// A Store's data buffer is what follows its entry; that of the others stays zeroed.
fn fill(input: &mut impl Read, entry: &[u8; 64], buffer: &mut [u8]) -> io::Result<bool> {
    if !read_entry(entry).is(Opcode::Store) {
        return Ok(true);
    }
    read_whole(input, buffer)
}

// Whether to go on, as in `cut` and in what follows: `ControlFlow` would say no more.
fn answer(
    input: &mut impl Read,
    output: &mut impl Write,
    entry: &[u8; 64],
    head: u16,
    buffer: &mut [u8],
    directory: &mut [u8],
    values: &mut [u8],
) -> io::Result<bool>
    requires { length buffer.old ≤ 4096 }
{
    if !fill(input, entry, buffer)? {
        return cut(output);
    }
    // a completion's line of 33 bytes, and that of 4096 bytes in hex
    let mut text = [0u8; 8226];
    let n = turn(entry, head, buffer, directory, values, &mut text);
    output.write_all(&text[..n])?;
    Ok(true)
}

fn serve(
    input: &mut impl Read,
    output: &mut impl Write,
    entry: &[u8; 64],
    head: u16,
    directory: &mut [u8],
    values: &mut [u8],
) -> io::Result<bool> {
    let mut space = [0u8; 4096];
    let room = room_of(read_entry(entry));
    answer(
        input,
        output,
        entry,
        head,
        &mut space[..room],
        directory,
        values,
    )
}

// The end of the input is no error in front of an entry, and a cut inside it.
fn next(
    input: &mut impl BufRead,
    output: &mut impl Write,
    head: u16,
    directory: &mut [u8],
    values: &mut [u8],
) -> io::Result<bool> {
    if input.fill_buf()?.is_empty() {
        return Ok(false);
    }
    let mut entry = [0u8; 64];
    if !read_whole(input, &mut entry)? {
        return cut(output);
    }
    serve(input, output, &entry, head, directory, values)
}

// Nothing says that the input ends: the count of entries does, at a number that no run reaches.
fn run(
    input: &mut impl BufRead,
    output: &mut impl Write,
    directory: &mut [u8],
    values: &mut [u8],
) -> io::Result<()> {
    for count in 0..u64::MAX {
        if !next(input, output, head_of(count), directory, values)? {
            break;
        }
    }
    Ok(())
}

// Format 3 allows 1024 keys: a directory of 64 + 32 x 1024 bytes. The number that `kv_format` gives is not looked at, as these numbers, with
// slices of these lengths, are never refused.
fn main(rt: HostRuntime) -> io::Result<()> {
    let mut directory = [0u8; 32832];
    let mut values = [0u8; 4096];
    kv_format(3, 1, 4096, &mut directory, &mut values);
    run(
        &mut rt.reader(),
        &mut io::writer(&rt),
        &mut directory,
        &mut values,
    )
}
