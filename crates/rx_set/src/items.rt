// What a job does.
ghost use Rattle.rx_set.specs.Operations.{operations_of};
ghost use Rattle.std.specs.Prelude.{◌≡◌, ◌≤◌, length};

use rx_seq::Call;
use std::marker::Model;

/// One item of a body.
#[derive(Clone, Copy, Debug, PartialEq, Eq)]
pub enum Item {
    /// So many ticks of work on data of the task's own.
    Work { n: u64 },
    /// A call on a shared object, which is named by its number from 0.
    Op { object: u32, call: Call },
}

/// The items of a task's jobs, in order.
#[derive(Debug, Drop)]
pub struct Body {
    items: Vec<Item>,
}

impl Model for Body {
    ghost use Rattle.std.specs.Prelude.{List};
    ghost use Rattle.rx_set.specs.declared.items.Item.{Item as ItemView};

    ghost Value = { List ItemView };

    ghost view = { λ b. b.items.items };
}

impl Body {
    /// The body of these items. It takes no memory, and constant time.
    pub fn of(items: Vec<Item>) -> Body
        ensures { result ≡ items.items }
    {
        Body { items }
    }

    /// Its items, in order. Its cost is constant.
    pub fn items(&self) -> &[Item]
        ensures { result.now ≡ self.now }
    {
        self.items.as_slice()
    }

    /// How many of its items are operations. Its cost grows with the number of items.
    pub fn operations(&self) -> usize
        ensures count { result ≡ length (operations_of self.now) }
        ensures few { result ≤ length self.now }
    {
        let mut count = 0;
        for item in self.items() {
            match item {
                Item::Work { n: _ } => {}
                Item::Op { object: _, call: _ } => count += 1,
            }
        }
        count
    }
}
