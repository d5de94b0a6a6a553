// The Identify page of a namespace, and the host's fields for one that is to be created.
ghost use Rattle.std.specs.Prelude.{◌≡◌, ◌%◌};

// What a descriptor says of a format. No `Format` of `table`: a page of another device has two bytes for its longest key, and one struct for both
// widths would take a parameter for one of three fields.
#[derive(Clone, Copy, Default)]
pub struct Limits {
    pub keymax: u16,
    pub valuemax: u32,
    pub maxkeys: u32,
}

// The format index is bits 3:0 of its byte; the others may be set by a foreign hand, which a conversion would refuse.
pub fn index_in(byte: u8) -> u32
    ensures { result ≡ byte % 16 }
{
    u32::from(byte & 15)
}
