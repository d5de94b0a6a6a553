// The Identify page, written field by field into the lent slice.
ghost use Rattle.std.specs.Prelude.{◌≡◌, ◌+◌, ◌≤◌, length};
ghost use Rattle.octets.specs.Octets.{put};
ghost use Rattle.sheets.specs.Identify.{descriptor, descriptors, front, identify_page};
ghost use Rattle.memory.specs.Memory.{memory};
ghost use Rattle.refusals.specs.Refusals.{number_in};
ghost use Rattle.identify.specs.Identify.{limits_of, limits, identified, identify};

use maps::describes::{Description, describe};
use octets::runs::clear;
use octets::words::{write8, write16, write32};
use refusals::numbers::Refusal;
use table::formats::{Format, format_at};

// Size and used room have eight bytes in the page, and need no more than four.
fn write_front(page: &mut [u8; 4096], d: Description)
    ensures { page.new ≡ put 0 (front d.size d.used 16 d.index) page.old }
{
    clear(page, 0, 72);
    write32(page, 0, d.size);
    write32(page, 16, d.used);
    write8(page, 25, 15);
    write8(page, 29, (d.index % 16) as u8);
}

fn write_descriptor(page: &mut [u8], at: usize, f: Format)
    requires { at + 16 ≤ length page.old }
    ensures { page.new ≡ put at (descriptor (limits_of f)) page.old }
{
    write16(page, at, u16::from(f.keymax));
    write16(page, at + 2, 0);
    write32(page, at + 4, f.valuemax);
    write32(page, at + 8, f.maxkeys);
    write32(page, at + 12, 0);
}

// By index, which is both the format's and the descriptor's place.
#[tactic(auto, using(octets::proofs::PartLaws::put_none, crate::proofs::pages::Writes::descriptors_more))]
fn write_descriptors(page: &mut [u8; 4096])
    ensures { page.new ≡ put 72 (descriptors limits 16) page.old }
{
    for i in 0..16u32 {
        write_descriptor(page, 72 + 16 * i as usize, format_at(i));
    }
}

fn write_page(page: &mut [u8; 4096], d: Description)
    ensures { page.new ≡ identify_page d.size d.used d.index limits 16 }
{
    write_front(page, d);
    write_descriptors(page);
    clear(page, 328, 3768);
}

// Number 14, then 18 and 23.
#[tactic(auto, using(std::proofs::lemmas::Result::err_from_is_err_and, refusals::proofs::Counted::number_counts), unfolding(crate::specs::Identify::identify))]
pub fn identify(page: &mut [u8], id: u32, directory: &[u8], values: &[u8]) -> Result<(), Refusal>
    ensures { identified (number_in result) page.new
        ≡ identify id page.old (memory directory.now values.now) }
{
    let Some(page) = page.as_mut_array::<4096>() else {
        return Err(Refusal::BytesLength);
    };
    let d = describe(id, directory, values)?;
    write_page(page, d);
    Ok(())
}
