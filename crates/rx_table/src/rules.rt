// The rule of the table, and what its steps tell.
ghost use Rattle.rx_port.specs.Events.{Begun, Decided, DidRead, DidWrite};
ghost use Rattle.rx_table.specs.Rule.{IsAt};
ghost use Rattle.std.specs.Prelude.{ℕ, ◌≡◌, []};

use atomic_table::{Join, Play, Shared, Split, TableRule};
use rx_port::View;
use rx_shape::Layout;
use std::marker::{Brand, PhantomData};

/// Words and seats are lawful for some history at every moment.
pub struct Law;

impl TableRule<u8, View, Layout> for Law {
    ghost use Rattle.rx_table.specs.Rule.{Holds, first_view};

    ghost holds = { Holds };

    ghost first = { first_view };
}

/// A seat of the table's words.
pub type Token = atomic_table::Seat<u8, View>;

/// The words that threads share.
pub type Words = Shared<u8, View, Layout, Law>;

/// What a step is told by contract alone.
pub trait Told {
    ghost use Rattle.rx_seq.specs.declared.calls.Call.{Call};
    ghost use Rattle.rx_shape.specs.Layout.{Layout as Numbering};
    ghost use Rattle.rx_shape.specs.declared.plans.Pair.{Pair};
    ghost use Rattle.rx_port.specs.declared.views.Attempt.{Attempt};
    ghost use Rattle.std.specs.Prelude.{List};

    ghost layout: { Numbering };

    ghost object: { ℕ };

    ghost call: { Call };

    ghost attempt: { Attempt };

    ghost own: { ℕ };

    ghost pairs: { List Pair };
}

impl Told for Brand {
    ghost use Rattle.rx_table.specs.Rule.{no_layout, no_attempt};

    ghost layout = { no_layout };

    ghost object = { 0 };

    ghost call = { no_attempt.call };

    ghost attempt = { no_attempt };

    ghost own = { 0 };

    ghost pairs = { [] };
}

/// What `begin` tells.
pub struct Begins<J: Told> {
    of: PhantomData<J>,
}

impl<J: Told> Play<u8, View> for Begins<J> {
    ghost then = { λ s me n you. Begun J.layout (IsAt me.0) (IsAt you.0) me.0 you.0 J.object J.call n × (you.1 ≡ me.1) };
}

/// What `read` tells.
pub struct Reads<J: Told> {
    of: PhantomData<J>,
}

impl<J: Told> Play<u8, View> for Reads<J> {
    ghost then = { λ s me n you. DidRead J.layout (IsAt me.0) (IsAt you.0) me.0 you.0 J.attempt s.word n × (you.1 ≡ me.1) };
}

/// What `write` tells.
pub struct Writes<J: Told> {
    of: PhantomData<J>,
}

impl<J: Told> Play<u8, View> for Writes<J> {
    ghost then = { λ s me n you. DidWrite J.layout (IsAt me.0) (IsAt you.0) me.0 you.0 J.attempt J.own s.first × (you.1 ≡ me.1) };
}

/// What `decide` tells.
pub struct Decides<J: Told> {
    of: PhantomData<J>,
}

impl<J: Told> Play<u8, View> for Decides<J> {
    ghost then = { λ s me n you. Decided J.layout (IsAt me.0) (IsAt you.0) me.0 you.0 J.attempt s.second J.pairs n × (you.1 ≡ me.1) };
}

/// A seat makes the next one.
pub struct Makes<J: Told> {
    of: PhantomData<J>,
}

impl<J: Told> Split<View> for Makes<J> {
    ghost use Rattle.rx_table.specs.Seats.{maker, made};

    ghost left = { maker };

    ghost right = { made J.layout };
}

/// A seat takes another one in.
pub struct Takes;

impl Join<View> for Takes {
    ghost use Rattle.rx_table.specs.Seats.{taker, spent_view};

    ghost both = { taker };

    ghost spent = { spent_view };
}
