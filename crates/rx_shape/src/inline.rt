// The shape of cells.
ghost use Rattle.rx_seq.specs.Table.{fits_cell};
ghost use Rattle.rx_seq.specs.declared.kinds.Kind.TheVariants.{Cell};
ghost use Rattle.rx_shape.specs.declared.plans.Want.TheVariants.{Ready};
ghost use Rattle.std.specs.Prelude.{◌≡◌, true, []};

use crate::cells::call_cell;
use crate::homes::Home;
use crate::plans::{MOST_PLACES, Plan, Want};
use crate::roots::{low_of, pack, tag_of};
use crate::shapes::Shape;
use arrayvec::ArrayVec;
use rx_seq::laws::quiet_calls_stay;
use rx_seq::{Call, Part, Reply, quiet};

/// An attempt on a cell. The root has the value, so it reads nothing, writes nothing and trades nothing. The plan of a
/// quiet call keeps the root, and that of a loud one has the next tag and the value after the call. Each call takes
/// constant time.
#[derive(Debug, Drop)]
pub struct Inline {
    home: Home,
    call: Call,
    ghost cell: { home.part.kind ≡ Cell },
    ghost fits: { fits_cell call ≡ true },
}

impl Shape for Inline {
    ghost home = { λ s. s.home };

    ghost asked = { λ s. s.call };

    ghost next = { λ _ _. Ready };

    ghost taken = { λ _ _. [] };

    ghost room = { λ _. Unit {0} };

    ghost serves = { λ home call. (home.part.kind ≡ Cell) × (fits_cell call ≡ true) };

    fn start(part: Part, call: Call, first: u32, count: u32) -> Inline {
        Inline {
            home: Home { part, first, count },
            call,
        }
    }

    fn want(&self, _root: u64) -> Want {
        quiet_calls_stay();
        Want::Ready
    }

    fn take(&mut self, _word: u64) {}

    fn plan(&self, root: u64, _own: &ArrayVec<u32, MOST_PLACES>, out: &mut Plan) -> Reply {
        quiet_calls_stay();
        let (value, reply) = call_cell(low_of(root), self.call);
        out.root = if quiet(self.call, reply) {
            root
        } else {
            pack(tag_of(root) + 1, value)
        };
        out.writes.clear();
        out.trade.pairs.clear();
        reply
    }
}
