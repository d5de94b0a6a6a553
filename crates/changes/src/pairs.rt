// A pair put, a pair erased.
ghost use Rattle.std.specs.Prelude.{◌≡◌, ◌-◌};
ghost use Rattle.store.specs.Maps.{insert, erase};
ghost use Rattle.store.specs.Finds.{found_key};
ghost use Rattle.memory.specs.Memory.{memory, image_with};
ghost use Rattle.maps.specs.Asks.{room_at, CanWeigh, CanPut, CanErase};

use checking::checks::Checked;
use keys::orders::ShortKey;
use maps::looks::held_room;
use memory::labels::write_counts;
use store::finds::Found;
use verbs::slots::Spot;

// The used room without the pair that the key looked up holds.
fn used_without(directory: &[u8], k: Checked, f: Found) -> u32
    requires { CanWeigh k f directory.now }
    ensures { result ≡ k.label.used - room_at k f directory.now }
{
    k.label.used - held_room(directory, k, f) as u32
}

// The key that was looked up is given a value, its first or another one.
#[tactic(auto, using(maps::proofs::RoomLaws::can_weigh, crate::proofs::pairs::Pairs::put_laws))]
pub fn put(directory: &mut [u8], values: &mut [u8], k: Checked, f: Found, value: &[u8])
    requires { CanPut k f value.now directory.old values.old }
    ensures { memory directory.new values.new
        ≡ image_with k.label.id (insert (found_key f) value.now) (memory directory.old values.old) }
{
    let stop = k.base + k.label.size as usize;
    let len = usize::from(f.len);
    // a copy: were the lookup's own key lent, the lookup would lie in memory, which takes every command twelve instructions
    let sixteen = f.key;
    let key = ShortKey {
        bytes: &sixteen[..len],
    };
    let used = used_without(directory, k, f) + u32::from(f.len) + (value.len() as u32);
    let spot = Spot {
        id: k.label.id,
        count: k.label.count,
        total: k.total,
        slot: f.slot,
    };
    if f.held {
        spot.replace(
            &mut directory[k.start..k.end],
            &mut values[k.base..stop],
            key,
            value,
        );
        write_counts(directory, k.half, k.label.count, used);
        return;
    }
    spot.insert(
        &mut directory[k.start..k.end],
        &mut values[k.base..stop],
        key,
        value,
    );
    write_counts(directory, k.half, k.label.count + 1, used);
}

// The spot is written out as in `put`: a function for its four fields would want a definition of its own.
#[tactic(auto, using(maps::proofs::RoomLaws::can_weigh, crate::proofs::pairs::Pairs::can_remove))]
pub fn erase(directory: &mut [u8], values: &mut [u8], k: Checked, f: Found)
    requires { CanErase k f directory.old values.old }
    ensures { memory directory.new values.new
        ≡ image_with k.label.id (erase (found_key f)) (memory directory.old values.old) }
{
    let stop = k.base + k.label.size as usize;
    let used = used_without(directory, k, f);
    let spot = Spot {
        id: k.label.id,
        count: k.label.count,
        total: k.total,
        slot: f.slot,
    };
    spot.remove(&mut directory[k.start..k.end], &mut values[k.base..stop]);
    write_counts(directory, k.half, k.label.count - 1, used);
}
