// A seat of a table.
use crate::rules::Token;
use std::marker::Model;

/// One of the seats of a table. A thread makes its events through a seat of its own, and may hand it on. Contracts see
/// what it has open, owns and knows, and whose it is. It keeps the places that it owns of each object; what it knows of
/// histories is known to contracts alone.
#[derive(Drop)]
pub struct Seat {
    pub(crate) token: Token,
    pub(crate) own: Vec<Vec<u32>>,
}

impl Model for Seat {
    ghost use Rattle.rx_port.specs.Plain.{lists};
    ghost use Rattle.rx_table.specs.Tables.{SeatView};
    ghost use Rattle.std.specs.Prelude.{◌≡◌, []};

    ghost Value = { SeatView };

    ghost view = { λ s. record { view = s.token.me.0; table = s.token.table_id } };

    ghost invariant = { λ s. (lists s.own.items ≡ s.token.me.0.own) × (s.token.me.1 ≡ []) };
}
