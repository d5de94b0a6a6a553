#![tactic(auto)]
// The host's side for C, in the order of `include/kv.h`: libhost.a. Each export says again what the function of `host` that it calls says.
ghost use Rattle.std.specs.Prelude.{◌≡◌};
ghost use Rattle.sheets.specs.Page.{read_page};
ghost use Rattle.host.specs.Build.{built, build};
ghost use Rattle.host.specs.Reply.{reply};
ghost use Rattle.host.specs.PageKey.{page_key};
ghost use Rattle.host.specs.Identity.{identity};

use host::identities::Identity;
use host::pages::PageKey;
use host::replies::Reply;
use host::{builder, identities, pages, replies};

#[unsafe(no_mangle)]
pub extern "C" fn kv_build(
    entry: &mut [u8],
    opcode: u8,
    cid: u16,
    nsid: u32,
    key: &[u8],
    dword10: u32,
    options: u8,
) -> u32
    ensures { built result entry.new ≡ build entry.old opcode cid nsid key.now dword10 options }
{
    builder::kv_build(entry, opcode, cid, nsid, key, dword10, options)
}

#[unsafe(no_mangle)]
pub extern "C" fn kv_read_completion(completion: &[u8]) -> Reply
    ensures { result ≡ reply completion.now }
{
    replies::kv_read_completion(completion)
}

#[unsafe(no_mangle)]
pub extern "C" fn kv_read_page(page: &[u8], ordinal: u32) -> PageKey
    ensures { result ≡ page_key (read_page page.now) ordinal }
{
    pages::kv_read_page(page, ordinal)
}

#[unsafe(no_mangle)]
pub extern "C" fn kv_read_identify(page: &[u8], ordinal: u32) -> Identity
    ensures { result ≡ identity page.now ordinal }
{
    identities::kv_read_identify(page, ordinal)
}
