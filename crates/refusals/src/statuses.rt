// The statuses of a completion, all of type 0, under the names of `include/kv.h`. A trait over them and the house numbers would not be shorter:
// each has a width, a definition and a word of its own.
ghost use Rattle.std.specs.Prelude.{◌≡◌};
ghost use Rattle.refusals.specs.Refusals.{code_of, code_in};

#[derive(Clone, Copy)]
pub enum Status {
    InvalidOpcode = 0x01,
    InvalidField = 0x02,
    DataTransfer = 0x04,
    Internal = 0x06,
    InvalidNamespace = 0x0b,
    OutOfRange = 0x80,
    Capacity = 0x81,
    ValueSize = 0x85,
    KeySize = 0x86,
    KeyAbsent = 0x87,
    KeyExists = 0x89,
}

impl Status {
    // No `From`: the name says that it is the code, as the papers have it.
    pub fn code(self) -> u8
        ensures { result ≡ code_of self }
    {
        self as u8
    }
}

// What the completion says: 00h where nothing was refused. No method, as `Result` is no type of this crate.
pub fn code<T: Drop>(outcome: Result<T, Status>) -> u8
    ensures { result ≡ code_in outcome }
{
    match outcome {
        Ok(_) => 0,
        Err(status) => status.code(),
    }
}
