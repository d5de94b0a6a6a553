// The builder of entries.
ghost use Rattle.std.specs.Prelude.{◌≡◌};
ghost use Rattle.refusals.specs.Refusals.{number_in};
ghost use Rattle.wire.specs.Entry.{byte_of};
ghost use Rattle.host.specs.Build.{amount_of, options_of, command, built, build};

use keys::orders::ShortKey;
use refusals::numbers::{Refusal, number};
use wire::entries;
use wire::entries::{Command, Opcode};

// Delete and Exist have no Dword 10.
fn amount_of(opcode: Opcode, dword10: u32) -> u32
    ensures { result ≡ amount_of (byte_of opcode) dword10 }
{
    match opcode {
        Opcode::Store | Opcode::Retrieve | Opcode::List => dword10,
        Opcode::Delete | Opcode::Exist => 0,
    }
}

// Only a Store has options.
fn options_of(opcode: Opcode, options: u8) -> u8
    ensures { result ≡ options_of (byte_of opcode) options }
{
    match opcode {
        Opcode::Store => options,
        Opcode::Retrieve | Opcode::List | Opcode::Delete | Opcode::Exist => 0,
    }
}

// By what C gives, in its order.
#[tactic(auto, unfolding(crate::specs::Build::command))]
fn command_of(
    opcode: Opcode,
    cid: u16,
    nsid: u32,
    key: ShortKey,
    dword10: u32,
    options: u8,
) -> Command
    ensures { result ≡ command (byte_of opcode) cid nsid key.entry.bytes.now dword10 options }
{
    Command {
        opcode: opcode as u8,
        fused: 0,
        cid,
        nsid,
        key: key.pad(),
        len: key.bytes.len() as u8,
        options: options_of(opcode, options),
        amount: amount_of(opcode, dword10),
    }
}

#[tactic(auto, unfolding(crate::specs::Build::build))]
fn build(
    entry: &mut [u8],
    opcode: u8,
    cid: u16,
    nsid: u32,
    key: &[u8],
    dword10: u32,
    options: u8,
) -> Result<(), Refusal>
    ensures { built (number_in result) entry.new ≡ build entry.old opcode cid nsid key.now dword10 options }
{
    let Some(entry) = entry.as_mut_array::<64>() else {
        return Err(Refusal::EntryLength);
    };
    if 16 < key.len() {
        return Err(Refusal::BuildKey);
    }
    let Ok(opcode) = Opcode::try_from(opcode) else {
        return Err(Refusal::BuildOpcode);
    };
    let key = ShortKey { bytes: key };
    entries::write_entry(entry, command_of(opcode, cid, nsid, key, dword10, options));
    Ok(())
}

// Numbers 1, 12, 13: what C is told.
pub fn kv_build(
    entry: &mut [u8],
    opcode: u8,
    cid: u16,
    nsid: u32,
    key: &[u8],
    dword10: u32,
    options: u8,
) -> u32
    ensures { built result entry.new ≡ build entry.old opcode cid nsid key.now dword10 options }
{
    number(build(entry, opcode, cid, nsid, key, dword10, options))
}
