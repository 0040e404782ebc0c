// The calls of a cell on its value.
ghost use Rattle.rx_seq.specs.Table.{answers, effect_by, fits_cell};
ghost use Rattle.std.specs.Prelude.{◌≡◌, ◌<◌, ◌^◌, true, [], ◌∷◌};

use rx_seq::{Call, MOST_CELL, Reply};

/// What a call makes of a cell's value, and its reply. It takes constant time.
pub fn call_cell(value: u32, call: Call) -> (u32, Reply)
    requires value { value < 2 ^ 24 }
    requires fits { fits_cell call ≡ true }
    ensures effect { (cap : _) → effect_by cap (value ∷ []) call ≡ answers (result.0 ∷ []) result.1 }
    ensures bound { result.0 < 2 ^ 24 }
{
    match call {
        Call::Get => (value, Reply::Done { v: value }),
        Call::Set { v } => (v, Reply::Done { v }),
        Call::Add { v } => {
            let sum = value + v;
            if sum > MOST_CELL {
                (value, Reply::Over)
            } else {
                (sum, Reply::Done { v: sum })
            }
        }
        Call::Swap { old, new } => {
            if value == old {
                (new, Reply::Done { v: new })
            } else {
                (value, Reply::Differs { v: value })
            }
        }
        _ => unreachable!(),
    }
}
