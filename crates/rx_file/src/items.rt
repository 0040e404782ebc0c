// The items of a task.
ghost use Rattle.std.specs.Prelude.{◌≡◌, ◌≤◌, ◌<◌, length, IfOk};
ghost use Rattle.std.specs.List.{All};
ghost use Rattle.toml.specs.View.{view, items_view};
ghost use Rattle.rx_set.specs.Valid.{IsItem};
ghost use Rattle.rx_file.specs.Items.{fitting, operation, item_of, items_of};
ghost use Rattle.rx_file.specs.Gives.{Gives, alone};

use crate::faults::FileFault;
use crate::objects::Objects;
use crate::shapes::{Shape, shape_of};
use rx_seq::{Call, fits};
use rx_set::Item;
use std::alloc::Global;
use toml::Value;

/// A call on the object of this number, which it must fit.
fn fitting(
    objects: &Objects<'_>,
    task: u32,
    item: u32,
    object: u32,
    call: Call,
) -> Result<Item, FileFault>
    requires { object < length objects.now }
    ensures value { result ≡ fitting objects.now task item object call }
    ensures good { IfOk result (IsItem (alone objects.now)) }
{
    if fits(objects.part(object), call) {
        Ok(Item::Op { object, call })
    } else {
        Err(FileFault::Misfit { task, item })
    }
}

/// A call on the object of this name.
fn operation<'a>(
    objects: &Objects<'a>,
    task: u32,
    item: u32,
    name: &'a [u8],
    call: Call,
) -> Result<Item, FileFault>
    ensures value { result ≡ operation objects.now task item name.now call }
    ensures good { IfOk result (IsItem (alone objects.now)) }
{
    match objects.find(name) {
        Some(object) => fitting(objects, task, item, object, call),
        None => Err(FileFault::Unknown { task, item }),
    }
}

/// An item of a task.
#[tactic(auto, unfolding(crate::specs::Items::item_of))]
fn read_item<'a>(
    objects: &Objects<'a>,
    task: u32,
    item: u32,
    value: &'a Value,
) -> Result<Item, FileFault>
    ensures value { result ≡ item_of objects.now task item (view value.now) }
    ensures good { IfOk result (IsItem (alone objects.now)) }
{
    let fault = FileFault::Item { task, item };
    let text = value.as_str().ok_or(fault)?;
    match shape_of(text.as_bytes()) {
        Some(Shape::Work { n }) => Ok(Item::Work { n }),
        Some(Shape::On { object, call }) => operation(objects, task, item, object, call),
        None => Err(fault),
    }
}

/// The items of a task, which are looked at in order. Each is `work n` or a call on one of the objects. The cost grows with
/// the length of the items, and for each with the logarithm of the number of objects.
pub(crate) fn read_items<'a>(
    alloc: Global,
    objects: &Objects<'a>,
    task: u32,
    values: &'a [Value],
) -> Result<Vec<Item>, FileFault>
    requires { length values.now ≤ 64 }
    ensures items { Gives (λ v. v.items) (items_of objects.now task (items_view values.now)) result }
    ensures good { IfOk result (λ v. All (IsItem (alone objects.now)) v.items) }
    ensures count { IfOk result (λ v. length v.items ≡ length values.now) }
{
    let Ok(mut items) = Vec::with_capacity(alloc, values.len()) else {
        return Err(FileFault::NoMemory);
    };
    for value in values {
        let item = read_item(objects, task, items.len() as u32 + 1, value)?;
        let Ok(()) = items.push(item) else {
            return Err(FileFault::NoMemory);
        };
    }
    Ok(items)
}
