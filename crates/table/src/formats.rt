// The sixteen formats.
ghost use Rattle.std.specs.Prelude.{◌≡◌, ◌<◌};
ghost use Rattle.table.specs.Formats.{format_of};

// The limits that a format sets.
#[derive(Clone, Copy)]
pub struct Format {
    pub keymax: u8,
    pub valuemax: u32,
    pub maxkeys: u32,
}

const FORMATS: [Format; 16] = [
    Format {
        keymax: 4,
        valuemax: 64,
        maxkeys: 1024,
    },
    Format {
        keymax: 8,
        valuemax: 64,
        maxkeys: 1024,
    },
    Format {
        keymax: 12,
        valuemax: 64,
        maxkeys: 1024,
    },
    Format {
        keymax: 16,
        valuemax: 64,
        maxkeys: 1024,
    },
    Format {
        keymax: 4,
        valuemax: 256,
        maxkeys: 256,
    },
    Format {
        keymax: 8,
        valuemax: 256,
        maxkeys: 256,
    },
    Format {
        keymax: 12,
        valuemax: 256,
        maxkeys: 256,
    },
    Format {
        keymax: 16,
        valuemax: 256,
        maxkeys: 256,
    },
    Format {
        keymax: 4,
        valuemax: 1024,
        maxkeys: 64,
    },
    Format {
        keymax: 8,
        valuemax: 1024,
        maxkeys: 64,
    },
    Format {
        keymax: 12,
        valuemax: 1024,
        maxkeys: 64,
    },
    Format {
        keymax: 16,
        valuemax: 1024,
        maxkeys: 64,
    },
    Format {
        keymax: 4,
        valuemax: 4096,
        maxkeys: 16,
    },
    Format {
        keymax: 8,
        valuemax: 4096,
        maxkeys: 16,
    },
    Format {
        keymax: 12,
        valuemax: 4096,
        maxkeys: 16,
    },
    Format {
        keymax: 16,
        valuemax: 4096,
        maxkeys: 16,
    },
];

// Document 01's rule, q = i / 4 rounded down, is proved once over the index. The rows are borrowed, as the compiler would build a table that is read
// by value on the stack; so it stays with the program's constants.
pub fn format_at(index: u32) -> Format
    requires { index < 16 }
    ensures { result ≡ format_of index }
{
    let rows = &FORMATS;
    rows[index as usize]
}
