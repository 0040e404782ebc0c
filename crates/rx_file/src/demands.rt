// The rows of `demand`.
ghost use Rattle.std.specs.Prelude.{◌≡◌, ◌≤◌, ◌<◌, ◌++◌, ◌∷◌, ◌-◌, [], true, false, length, slice_get, IfOk, IfErr, Some};
ghost use Rattle.toml.specs.View.{view, items_view, table_view};
ghost use Rattle.rx_set.specs.Valid.{IsDemandRow};
ghost use Rattle.rx_file.specs.declared.faults.FileFault.TheVariants.{NoMemory};
ghost use Rattle.rx_file.specs.Demands.{is_work, task_at, work_at, is_named, demand_of_table, demand_of_value, demands_of};
ghost use Rattle.rx_file.specs.Gives.{Shows, Gives, AreDemands, HaveBodies, tasks_alone};

use crate::faults::{FileFault, Label, Section};
use crate::fields::{number_at, only_keys, text_at};
use crate::places::Place;
use crate::tasks::Tasks;
use rx_set::{Demand, Item};
use std::alloc::Global;
use std::collections::BTreeSet;
use std::marker::Model;
use toml::{Table, Value};

/// An item of a job, as a demand row names it.
#[derive(Clone, Copy, PartialEq, Eq, PartialOrd, Ord)]
struct Named {
    task: u32,
    job: u64,
    item: u32,
}

/// The demand rows that were read, and what they name.
#[derive(Drop)]
pub(crate) struct Demands {
    rows: Vec<Demand>,
    named: BTreeSet<Named>,
}

impl Model for Demands {
    ghost use Rattle.std.specs.Prelude.{List};
    ghost use Rattle.rx_set.specs.declared.demands.Demand.{Demand as DemandView};
    ghost use Rattle.rx_file.specs.Index.{AreNamed};

    ghost Value = { List DemandView };

    ghost view = { λ d. d.rows.items };

    ghost invariant = { λ d. AreNamed d.named d.rows.items };
}

/// The item of the job that a row names.
fn named_by(row: Demand) -> Named
    ensures { result ≡ record { task = row.task; job = row.job; item = row.item } }
{
    Named {
        task: row.task,
        job: row.job,
        item: row.item,
    }
}

impl Demands {
    /// No rows.
    fn new(alloc: Global) -> Demands
        ensures { result ≡ [] }
    {
        Demands {
            rows: Vec::new(alloc),
            named: BTreeSet::new(alloc),
        }
    }

    /// How many there are.
    fn len(&self) -> usize
        ensures { result ≡ length self.now }
    {
        self.rows.len()
    }

    /// Whether a row names the item of the job that this one names. The cost grows with the logarithm of the number of rows.
    fn has(&self, row: Demand) -> bool
        ensures { result ≡ is_named self.now row }
    {
        self.named.contains(&named_by(row))
    }

    /// One row more, which names what no other one names.
    fn with(self, row: Demand) -> Result<Demands, FileFault>
        requires { is_named self row ≡ false }
        ensures rows { IfOk result (λ rows. rows ≡ self ++ row ∷ []) }
        ensures memory { IfErr result (λ fault. fault ≡ NoMemory) }
    {
        let mut rows = self.rows;
        let mut named = self.named;
        let Ok(_) = named.insert(named_by(row)) else {
            return Err(FileFault::NoMemory);
        };
        let Ok(()) = rows.push(row) else {
            return Err(FileFault::NoMemory);
        };
        Ok(Demands { rows, named })
    }

    /// The rows alone.
    pub(crate) fn into_rows(self) -> Vec<Demand>
        ensures { result.items ≡ self }
    {
        self.rows
    }
}

/// The task whose name is at `task`, by its number from 0.
#[tactic(auto, unfolding(crate::specs::Demands::task_at))]
fn task_at<'a>(tasks: &Tasks<'a>, place: Place, row: &'a Table) -> Result<u32, FileFault>
    ensures value { result ≡ task_at tasks.now place (table_view row.now) }
    ensures bound { IfOk result (λ task. task < length tasks.now) }
{
    let name = text_at(place, Label::Task, row)?;
    match tasks.find(name.as_bytes()) {
        Some(task) => Ok(task),
        None => Err(place.range(Label::Task)),
    }
}

/// Whether an item is one of work.
fn is_work(item: Item) -> bool
    ensures { result ≡ is_work (Some item) }
{
    match item {
        Item::Work { .. } => true,
        Item::Op { .. } => false,
    }
}

/// The number of a work item of a body, from 1.
#[tactic(auto, unfolding(crate::specs::Demands::work_at))]
fn work_at(items: &[Item], place: Place, row: &Table) -> Result<u64, FileFault>
    requires { length items.now ≤ 64 }
    ensures value { result ≡ work_at items.now place (table_view row.now) }
    ensures range { IfOk result (λ number. (1 ≤ number) × (number ≤ length items.now)) }
    ensures work { IfOk result (λ number. is_work (slice_get items.now (number - 1)) ≡ true) }
{
    let number = number_at(place, Label::Item, 1, items.len() as u64, row)?;
    if is_work(items[number as usize - 1]) {
        Ok(number)
    } else {
        Err(place.range(Label::Item))
    }
}

/// The demand row of a table, among some tasks, that comes after these rows.
#[tactic(auto, unfolding(crate::specs::Demands::demand_of_table, crate::specs::Demands::unnamed))]
fn read_table<'a>(
    tasks: &Tasks<'a>,
    place: Place,
    before: &Demands,
    row: &'a Table,
) -> Result<Demand, FileFault>
    requires { HaveBodies tasks.now }
    ensures value { result ≡ demand_of_table tasks.now place before.now (table_view row.now) }
    ensures good { IfOk result (IsDemandRow (tasks_alone tasks.now)) }
    ensures new { IfOk result (λ demand. is_named before.now demand ≡ false) }
{
    let task = task_at(tasks, place, row)?;
    let job = number_at(place, Label::Job, 1, 1_000_000, row)?;
    let item = work_at(tasks.body(task), place, row)?;
    let ticks = number_at(place, Label::Ticks, 1, 1_000_000, row)?;
    only_keys(
        place,
        &[Label::Task, Label::Job, Label::Item, Label::Ticks],
        row,
    )?;
    let demand = Demand {
        task,
        job,
        item: item as u32,
        ticks,
    };
    if before.has(demand) {
        return Err(place.repeat());
    }
    Ok(demand)
}

/// The demand row of a row, among some tasks, that comes after these rows.
#[tactic(auto, unfolding(crate::specs::Demands::demand_of_value))]
fn read_row<'a>(tasks: &Tasks<'a>, before: &Demands, value: &'a Value) -> Result<Demand, FileFault>
    requires bodies { HaveBodies tasks.now }
    requires few { length before.now < 1000 }
    ensures value { result ≡ demand_of_value tasks.now before.now (view value.now) }
    ensures good { IfOk result (IsDemandRow (tasks_alone tasks.now)) }
    ensures new { IfOk result (λ demand. is_named before.now demand ≡ false) }
{
    let place = Place {
        section: Section::Demand,
        row: before.len() as u32 + 1,
    };
    match value.as_table() {
        Some(row) => read_table(tasks, place, before, row),
        None => Err(place.field(Label::Whole)),
    }
}

/// The demand rows of some rows, which are looked at in order. They are rows of these tasks. The cost grows with the size
/// of the rows, and for each with the logarithms of the number of tasks and of the number of rows.
pub(crate) fn read_demands<'a>(
    alloc: Global,
    tasks: &Tasks<'a>,
    values: &'a [Value],
) -> Result<Demands, FileFault>
    requires bodies { HaveBodies tasks.now }
    requires few { length values.now ≤ 1000 }
    ensures demands { Gives (λ demands. demands) (demands_of tasks.now (items_view values.now)) result }
    ensures good { IfOk result (AreDemands tasks.now) }
    ensures count { IfOk result (λ demands. length demands ≡ length values.now) }
{
    let mut demands = Demands::new(alloc);
    for value in values {
        let row = read_row(tasks, &demands, value)?;
        demands = demands.with(row)?;
    }
    Ok(demands)
}
