// Used room and the number of keys, of what is told of a namespace.
ghost use Rattle.std.specs.Prelude.{◌≡◌, Ok};
ghost use Rattle.memory.specs.Memory.{memory};
ghost use Rattle.refusals.specs.Refusals.{number_of};
ghost use Rattle.maps.specs.Describe.{told};
ghost use Rattle.room.specs.Room.{no_room, room_of, room};

use maps::describes::{Description, describe};
use refusals::numbers::Refusal;

// For C, which has no `Result`: a house number, the used room and the number of keys.
#[repr(C)]
#[derive(Clone, Copy, Default)]
pub struct Room {
    pub number: u32,
    pub used: u32,
    pub keys: u32,
}

// Beside a number there is nothing else.
impl From<Refusal> for Room {
    ghost from_gives = { λ r m. m ≡ no_room (number_of r) };

    fn from(refusal: Refusal) -> Room {
        Room {
            number: refusal.number(),
            ..Room::default()
        }
    }
}

impl From<Description> for Room {
    ghost from_gives = { λ d m. m ≡ room_of (told (Ok d)) };

    fn from(d: Description) -> Room {
        Room {
            number: 0,
            used: d.used,
            keys: d.keys,
        }
    }
}

// Numbers 18 and 23.
#[tactic(auto, unfolding(crate::specs::Room::room))]
pub fn used_room(id: u32, directory: &[u8], values: &[u8]) -> Room
    ensures { result ≡ room id (memory directory.now values.now) }
{
    match describe(id, directory, values) {
        Ok(d) => Room::from(d),
        Err(refusal) => Room::from(refusal),
    }
}
