// The shape of an object of any kind.
ghost use Rattle.rx_machine.specs.AnyShapes.{IsServed, any_asked, any_home, any_next, any_room, any_taken};
ghost use Rattle.std.specs.Prelude.{ℕ, ◌≡◌, []};

use arrayvec::ArrayVec;
use rx_nodes::Nodes;
use rx_seq::{Call, Kind, Part, Reply};
use rx_shape::{Blocks, Inline, MOST_PLACES, Plan, Shape, Want};

/// An attempt on a cell, on registers in block form, or on a queue or a list of linked nodes.
#[derive(Drop)]
pub enum AnyShape {
    Cell(Inline),
    Block(Blocks),
    Linked(Nodes),
}

impl AnyShape {
    /// Makes it an attempt of another call, with no words taken, as `start` does. Where the form stays the same it takes
    /// the time to clear the words that were taken.
    #[inline(always)]
    pub fn restart(&mut self, part: Part, call: Call, first: u32, count: u32)
        requires { IsServed (record { part = part; first = first; count = count }) call }
        ensures home { any_home self.new ≡ record { part = part; first = first; count = count } }
        ensures asked { any_asked self.new ≡ call }
        ensures taken { (root : ℕ) → any_taken self.new root ≡ [] }
    {
        match self {
            AnyShape::Cell(shape) => {
                if part.kind == Kind::Cell {
                    *shape = Inline::start(part, call, first, count);
                    return;
                }
            }
            AnyShape::Block(shape) => {
                if part.kind == Kind::Registers {
                    shape.restart(part, call, first, count);
                    return;
                }
            }
            AnyShape::Linked(shape) => {
                if part.kind == Kind::Queue || part.kind == Kind::List {
                    shape.restart(part, call, first, count);
                    return;
                }
            }
        }
        *self = AnyShape::start(part, call, first, count);
    }
}

impl Shape for AnyShape {
    ghost home = { any_home };

    ghost asked = { any_asked };

    ghost next = { any_next };

    ghost taken = { any_taken };

    ghost room = { any_room };

    ghost serves = { IsServed };

    fn start(part: Part, call: Call, first: u32, count: u32) -> AnyShape {
        match part.kind {
            Kind::Cell => AnyShape::Cell(Inline::start(part, call, first, count)),
            Kind::Registers => AnyShape::Block(Blocks::start(part, call, first, count)),
            Kind::Queue | Kind::List => AnyShape::Linked(Nodes::start(part, call, first, count)),
        }
    }

    fn want(&self, root: u64) -> Want {
        match self {
            AnyShape::Cell(shape) => shape.want(root),
            AnyShape::Block(shape) => shape.want(root),
            AnyShape::Linked(shape) => shape.want(root),
        }
    }

    fn take(&mut self, word: u64) {
        match self {
            AnyShape::Cell(shape) => shape.take(word),
            AnyShape::Block(shape) => shape.take(word),
            AnyShape::Linked(shape) => shape.take(word),
        }
    }

    #[inline(always)]
    fn plan(&self, root: u64, own: &ArrayVec<u32, MOST_PLACES>, out: &mut Plan) -> Reply {
        match self {
            AnyShape::Cell(shape) => shape.plan(root, own, out),
            AnyShape::Block(shape) => shape.plan(root, own, out),
            AnyShape::Linked(shape) => shape.plan(root, own, out),
        }
    }
}
