// The refusals by their numbers, each with the case in which it is given.
ghost use Rattle.std.specs.Prelude.{◌≡◌};
ghost use Rattle.outcomes.specs.Kinds.{number_of};

// Why a call is refused.
#[derive(Clone, Copy, PartialEq, Eq)]
pub enum Kind {
    // The list's length is no multiple of 24.
    NotWhole = 1,
    // The list has more records than a list may have.
    TooMany = 2,
    // pos + len is above 64 MiB.
    PastChunk = 3,
    // size is above 64 MiB.
    TooLarge = 4,
    // Id 0 has an off that is not 0, or a size that is neither 0 nor len.
    ZerosWithSlice = 5,
    // The id is not 0, and off + len is above size.
    PastSlice = 6,
    // The chunk length is above 64 MiB.
    ChunkTooLong = 7,
    // The block size is not allowed.
    BlockSize = 8,
    // The new id is 0 or stands in a record of the list.
    IdInUse = 9,
    // k is above the number of records.
    TooFew = 10,
    // The tidied list has more records than one may have.
    TidiedTooLong = 11,
    // An output buffer is shorter than its answer.
    ShortBuffer = 12,
    // A name or key is not of its form, or the form does not allow the numbers to be written.
    NotOfForm = 13,
    // An earlier record has this id, not 0, and another size.
    TwoSizes = 16,
    // There are other than 1 to 16 lists, their lengths do not add up to the bytes lent, or an index is past 32 bits.
    WrongChunks = 21,
}

impl Kind {
    // Its number.
    pub fn number(self) -> u8
        ensures { result ≡ number_of self }
    {
        self as u8
    }
}
