// Words of linked nodes: the node of a number, and the header before the first one.
ghost use Rattle.rx_shape.specs.Nodes.{first_of as first_in, header_word, next_of as next_in, node_word, spare_of as spare_in, value_of as value_in};
ghost use Rattle.std.specs.Prelude.{◌≡◌, ◌<◌, ◌^◌};

/// The place that means none: the last node leads to it, and so does a header that has no node.
pub const NO_PLACE: u32 = 16_777_215;

/// The word of a node with this value that leads to this place, which has at most 24 bits. It takes constant time.
#[inline(always)]
pub fn node(value: u32, next: u32) -> u64
    requires { next < 2 ^ 24 }
    ensures { result ≡ node_word value next }
{
    u64::from(value) * 16_777_216 + u64::from(next)
}

/// The value of a node's word, which has at most 56 bits. It takes constant time.
#[inline(always)]
pub fn value_of(word: u64) -> u32
    requires { word < 2 ^ 56 }
    ensures { result ≡ value_in word }
{
    (word / 16_777_216) as u32
}

/// The place to which a node's word leads. It takes constant time.
#[inline(always)]
pub fn next_of(word: u64) -> u32
    ensures value { result ≡ next_in word }
    ensures bound { result < 2 ^ 24 }
{
    (word % 16_777_216) as u32
}

/// The word of a header that leads to this first node and this first spare node. Both places have at most 24 bits. It takes
/// constant time.
#[inline(always)]
pub fn header(first: u32, spare: u32) -> u64
    requires first { first < 2 ^ 24 }
    requires spare { spare < 2 ^ 24 }
    ensures { result ≡ header_word first spare }
{
    u64::from(first) * 16_777_216 + u64::from(spare)
}

/// The place of the first node, from a header's word, which has at most 56 bits. It takes constant time.
#[inline(always)]
pub fn first_of(word: u64) -> u32
    requires { word < 2 ^ 56 }
    ensures { result ≡ first_in word }
{
    (word / 16_777_216) as u32
}

/// The place of the first spare node, from a header's word. It takes constant time.
#[inline(always)]
pub fn spare_of(word: u64) -> u32
    ensures value { result ≡ spare_in word }
    ensures bound { result < 2 ^ 24 }
{
    (word % 16_777_216) as u32
}
