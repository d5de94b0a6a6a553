// The house numbers, under the names of `include/kv.h`. Each struct that C is given has a `From<Refusal>` of its own: one for all of them would
// overlap with std's `From<T> for T`.
ghost use Rattle.std.specs.Prelude.{◌≡◌};
ghost use Rattle.refusals.specs.Refusals.{number_of, number_in};

#[derive(Clone, Copy)]
pub enum Refusal {
    EntryLength = 1,
    CompletionLength = 2,
    FormatIndex = 3,
    NamespaceId = 4,
    Size = 5,
    SliceLength = 6,
    PageLength = 7,
    PageEntry = 8,
    PageKeyLength = 9,
    PagePadding = 10,
    PageOrder = 11,
    BuildKey = 12,
    BuildOpcode = 13,
    BytesLength = 14,
    KeyLength = 15,
    Illegal = 18,
    EqualIds = 19,
    MemoryLength = 20,
    NotHeld = 23,
}

impl Refusal {
    // No `From`: the name says which number.
    pub fn number(self) -> u32
        ensures { result ≡ number_of self }
    {
        self as u32
    }
}

// What C is told: 0 where nothing was refused. No method, as `Result` is no type of this crate.
pub fn number(outcome: Result<(), Refusal>) -> u32
    ensures { result ≡ number_in outcome }
{
    match outcome {
        Ok(()) => 0,
        Err(refusal) => refusal.number(),
    }
}
