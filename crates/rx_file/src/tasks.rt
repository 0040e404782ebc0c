// The rows of `task`.
ghost use Rattle.std.specs.Prelude.{◌≡◌, ◌≤◌, ◌<◌, ◌++◌, ◌∷◌, [], true, false, length, map, get_or, IfOk, IfErr, IfSome};
ghost use Rattle.toml.specs.View.{view, items_view, table_view};
ghost use Rattle.rx_set.specs.Names.{is_name};
ghost use Rattle.rx_set.specs.System.{no_task};
ghost use Rattle.rx_set.specs.Valid.{IsTaskRow, task_name};
ghost use Rattle.rx_set.specs.View.{row_of};
ghost use Rattle.rx_file.specs.declared.faults.FileFault.TheVariants.{NoMemory};
ghost use Rattle.rx_file.specs.Fields.{is_taken};
ghost use Rattle.rx_file.specs.Demands.{task_of};
ghost use Rattle.rx_file.specs.SetOf.{body_at, task_of_table, task_of_value, tasks_of};
ghost use Rattle.rx_file.specs.Gives.{Shows, Gives, alone, AreTasks, read_task};

use crate::faults::{FileFault, Label, Section};
use crate::fields::{array_at, name_at, name_of, number_at, number_or, only_keys};
use crate::items::read_items;
use crate::names::NameIndex;
use crate::objects::Objects;
use crate::places::Place;
use rx_set::{Body, Item, Task};
use std::alloc::Global;
use std::marker::Model;
use toml::{Table, Value};

/// A task whose name lies in the document.
#[derive(Drop)]
struct ReadTask<'a> {
    name: &'a str,
    period: u64,
    deadline: u64,
    offset: u64,
    items: Vec<Item>,
}

/// The tasks that were read, and where their names stand.
#[derive(Drop)]
pub(crate) struct Tasks<'a> {
    rows: Vec<Task>,
    places: NameIndex<'a>,
}

impl<'a> Model for Tasks<'a> {
    ghost use Rattle.std.specs.Prelude.{List, map};
    ghost use Rattle.rx_set.specs.System.{TaskRow};
    ghost use Rattle.rx_set.specs.Valid.{task_name};
    ghost use Rattle.rx_set.specs.View.{row_of};
    ghost use Rattle.rx_file.specs.Index.{IsIndex};

    ghost Value = { List TaskRow };

    ghost view = { λ t. map row_of t.rows.items };

    ghost invariant = { λ t. IsIndex t.places (map task_name (map row_of t.rows.items)) };
}

impl<'a> Tasks<'a> {
    /// No tasks.
    fn new(alloc: Global) -> Tasks<'a>
        ensures { result ≡ [] }
    {
        Tasks {
            rows: Vec::new(alloc),
            places: NameIndex::new(alloc),
        }
    }

    /// How many there are.
    fn len(&self) -> usize
        ensures { result ≡ length self.now }
    {
        self.rows.len()
    }

    /// The number of the task of a name, from 0. Its cost grows with the logarithm of the number of tasks.
    pub(crate) fn find(&self, name: &'a [u8]) -> Option<u32>
        ensures value { result ≡ task_of self.now name.now }
        ensures bound { IfSome result (λ task. task < length self.now) }
    {
        self.places.place(name)
    }

    /// Whether a task has this name.
    fn has(&self, name: &'a [u8]) -> bool
        ensures { result ≡ is_taken (map task_name self.now) name.now }
    {
        self.find(name).is_some()
    }

    /// The items of a task.
    pub(crate) fn body(&self, task: u32) -> &[Item]
        requires { task < length self.now }
        ensures { result.now ≡ (get_or self.now task no_task).items }
    {
        self.rows[task as usize].body.items()
    }

    /// One task more, whose name is new.
    fn with(self, task: ReadTask<'a>) -> Result<Tasks<'a>, FileFault>
        requires few { length self < 64 }
        requires name { is_name task.name.now ≡ true }
        requires new { is_taken (map task_name self) task.name.now ≡ false }
        ensures tasks { IfOk result (λ tasks. tasks ≡ self.entry ++ read_task task.entry ∷ []) }
        ensures memory { IfErr result (λ fault. fault ≡ NoMemory) }
    {
        let mut rows = self.rows;
        let mut places = self.places;
        places.push(task.name.as_bytes(), rows.len() as u32)?;
        let row = Task {
            name: name_of(task.name),
            period: task.period,
            deadline: task.deadline,
            offset: task.offset,
            body: Body::of(task.items),
        };
        let Ok(()) = rows.push(row) else {
            return Err(FileFault::NoMemory);
        };
        Ok(Tasks { rows, places })
    }

    /// The tasks alone.
    pub(crate) fn into_rows(self) -> Vec<Task>
        ensures { map row_of result.items ≡ self.entry }
    {
        self.rows
    }
}

/// The array at `body`.
#[tactic(auto, using(crate::proofs::Read::items_len_view), unfolding(crate::specs::SetOf::body_at))]
fn body_at<'a>(place: Place, row: &'a Table) -> Result<&'a [Value], FileFault>
    ensures value { Shows (λ values. items_view values.now) (body_at place (table_view row.now)) result }
    ensures length { IfOk result (λ values. (1 ≤ length values.now) × (length values.now ≤ 64)) }
{
    let values = array_at(place, Label::Body, row)?;
    if 1 <= values.len() && values.len() <= 64 {
        Ok(values)
    } else {
        Err(place.range(Label::Body))
    }
}

/// The task of a table, among some objects, that comes after these tasks.
#[tactic(auto, unfolding(crate::specs::SetOf::task_of_table, crate::specs::Fields::is_new))]
fn read_table<'a>(
    alloc: Global,
    objects: &Objects<'a>,
    place: Place,
    before: &Tasks<'a>,
    row: &'a Table,
) -> Result<ReadTask<'a>, FileFault>
    ensures task { Gives read_task (task_of_table objects.now place before.now (table_view row.now)) result }
    ensures good { IfOk result (λ task. IsTaskRow (alone objects.now) (read_task task)) }
    ensures new { IfOk result (λ task. is_taken (map task_name before.now) task.name.now ≡ false) }
{
    let name = name_at(place, row)?;
    if before.has(name.as_bytes()) {
        return Err(place.repeat());
    }
    let period = number_at(place, Label::Period, 1, 1_000_000, row)?;
    let deadline = number_or(place, Label::Deadline, period, 1, period, row)?;
    let offset = number_or(place, Label::Offset, 0, 0, 1_000_000, row)?;
    let body = body_at(place, row)?;
    only_keys(
        place,
        &[
            Label::Name,
            Label::Period,
            Label::Deadline,
            Label::Offset,
            Label::Body,
        ],
        row,
    )?;
    let items = read_items(alloc, objects, place.row, body)?;
    Ok(ReadTask {
        name,
        period,
        deadline,
        offset,
        items,
    })
}

/// The task of a row, among some objects, that comes after these tasks.
#[tactic(auto, unfolding(crate::specs::SetOf::task_of_value))]
fn read_row<'a>(
    alloc: Global,
    objects: &Objects<'a>,
    before: &Tasks<'a>,
    value: &'a Value,
) -> Result<ReadTask<'a>, FileFault>
    requires { length before.now < 64 }
    ensures task { Gives read_task (task_of_value objects.now before.now (view value.now)) result }
    ensures good { IfOk result (λ task. IsTaskRow (alone objects.now) (read_task task)) }
    ensures new { IfOk result (λ task. is_taken (map task_name before.now) task.name.now ≡ false) }
{
    let place = Place {
        section: Section::Task,
        row: before.len() as u32 + 1,
    };
    match value.as_table() {
        Some(row) => read_table(alloc, objects, place, before, row),
        None => Err(place.field(Label::Whole)),
    }
}

/// The tasks of some rows, which are looked at in order. Their calls are on these objects. The cost grows with the size of
/// the rows, for each item with the logarithm of the number of objects, and for each row with that of the number of tasks.
pub(crate) fn read_tasks<'a>(
    alloc: Global,
    objects: &Objects<'a>,
    values: &'a [Value],
) -> Result<Tasks<'a>, FileFault>
    requires { length values.now ≤ 64 }
    ensures tasks { Gives (λ tasks. tasks) (tasks_of objects.now (items_view values.now)) result }
    ensures good { IfOk result (AreTasks objects.now) }
    ensures count { IfOk result (λ tasks. length tasks ≡ length values.now) }
{
    let mut tasks = Tasks::new(alloc);
    for value in values {
        let task = read_row(alloc, objects, &tasks, value)?;
        tasks = tasks.with(task)?;
    }
    Ok(tasks)
}
