// Own places as plain data: a list of places for each object.
ghost use Rattle.rx_port.specs.Plain.{lists};
ghost use Rattle.rx_shape.specs.Asks.{EachBelow};
ghost use Rattle.rx_shape.specs.Versions.{traded};
ghost use Rattle.std.specs.Prelude.{◌≡◌, ◌<◌, [], length, slice_index, slice_index_or, slice_set};

use rx_shape::Pair;

/// The own place of an object with this number. It takes constant time.
pub fn place_at(own: &Vec<Vec<u32>>, object: u32, number: u32) -> u32
    requires object { object < length (lists own.now.items) }
    requires number { number < length (slice_index_or (lists own.now.items) object []) }
    ensures { result ≡ slice_index (slice_index_or (lists own.now.items) object []) number }
{
    let mine = &own[object as usize];
    mine[number as usize]
}

/// The own places of an object, in the order of their numbers. It takes constant time.
pub fn places_at(own: &Vec<Vec<u32>>, object: u32) -> &[u32]
    requires { object < length (lists own.now.items) }
    ensures { result.now ≡ slice_index_or (lists own.now.items) object [] }
{
    own[object as usize].as_slice()
}

/// Makes each named own place the given one.
fn trade(own: &mut Vec<u32>, pairs: &[Pair])
    requires { EachBelow (length own.old.items) pairs.now }
    ensures { own.new.items ≡ traded own.old.items pairs.now }
{
    for pair in pairs {
        own[pair.own as usize] = pair.place;
    }
}

/// Makes each named own place of an object the given one. It takes time that grows with the number of pairs.
pub fn trade_at(own: &mut Vec<Vec<u32>>, object: u32, pairs: &[Pair])
    requires object { object < length (lists own.old.items) }
    requires pairs { EachBelow (length (slice_index_or (lists own.old.items) object [])) pairs.now }
    ensures { lists own.new.items ≡ slice_set (lists own.old.items) object (traded (slice_index_or (lists own.old.items) object []) pairs.now) }
{
    trade(&mut own[object as usize], pairs);
}
