// Root words: 40 bits of version tag, and 24 bits of a cell's value or of a place.
ghost use Rattle.rx_shape.specs.Words.{pack as packed, tag_of as tag_in, low_of as low_in};
ghost use Rattle.std.specs.Prelude.{◌≡◌, ◌<◌, ◌^◌};

/// The last version tag. A root that carries it has no next version, so no further call can be made on its object.
pub const LAST_TAG: u64 = 1_099_511_627_775;

/// The root word with this version tag and this low part. The tag has at most 40 bits, the low part at most 24. It
/// takes constant time.
pub fn pack(tag: u64, low: u32) -> u64
    requires tag { tag < 2 ^ 40 }
    requires low { low < 2 ^ 24 }
    ensures word { result ≡ packed tag low }
    ensures tag { tag_in result ≡ tag }
    ensures low { low_in result ≡ low }
{
    tag * 16_777_216 + u64::from(low)
}

/// The version tag of a root word: its upper 40 bits. It takes constant time.
pub fn tag_of(word: u64) -> u64
    ensures value { result ≡ tag_in word }
    ensures bound { result < 2 ^ 40 }
{
    word / 16_777_216
}

/// The low part of a root word: its lower 24 bits. It takes constant time.
pub fn low_of(word: u64) -> u32
    ensures value { result ≡ low_in word }
    ensures bound { result < 2 ^ 24 }
{
    (word % 16_777_216) as u32
}
