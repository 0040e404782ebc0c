//! Handing a piece to a sink until all of it is taken.
ghost use Rattle.std.specs.Prelude.{[], ◌∷◌};
ghost use Rattle.rx_io.specs.States.{MayBeCalled};
ghost use Rattle.rx_io.specs.Causes.{Puts};

use crate::traits::{Failed, Sink};

/// Hands `piece` to the sink, and the rest of it again where the sink took less.
///
/// At `Ok` all bytes of `piece` were taken and the count of faults stays. `Failed` comes only where the count rose;
/// then a front of `piece` was taken. Takes no memory; one call of the sink for each part that it takes, so at most one
/// a byte, and none for an empty piece. Wants a sink whose latest call did not fail, with a count of faults below 2^63.
pub fn put<K: Sink>(sink: &mut K, piece: &[u8]) -> Result<(), Failed>
    requires { MayBeCalled (K.tells sink.old).failures }
    ensures { Puts (K.tells sink.old) (K.tells sink.new) result (piece.now ∷ []) }
{
    let mut at = 0;
    while at < piece.len() {
        at += sink.write(&piece[at..])?;
    }
    Ok(())
}
