// The set of a task file.
ghost use Rattle.std.specs.Prelude.{◌≡◌, ◌≤◌, length, IfOk};
ghost use Rattle.toml.specs.View.{items_view, table_view};
ghost use Rattle.rx_file.specs.Arrays.{up_to};
ghost use Rattle.rx_file.specs.SetOf.{policy_of, policy_at, object_rows, task_rows, demand_rows, set_of_file, file_of, set_of};
ghost use Rattle.rx_file.specs.Gives.{Shows, Gives, SetGives};

use crate::demands::read_demands;
use crate::faults::{FileFault, Label, Section};
use crate::fields::{array_at, array_or_empty, find, only_keys};
use crate::objects::read_objects;
use crate::places::TOP;
use crate::tasks::read_tasks;
use rx_set::{Policy, TaskSet};
use std::alloc::Global;
use toml::{Table, Value};

/// The keys at the top.
const TOP_LABELS: [Label; 4] = [Label::Policy, Label::Object, Label::Task, Label::Demand];

/// The policy that a word names.
fn policy_of(word: &[u8]) -> Option<Policy>
    ensures { result ≡ policy_of word.now }
{
    if word == b"rm".as_slice() {
        Some(Policy::Rm)
    } else if word == b"dm".as_slice() {
        Some(Policy::Dm)
    } else if word == b"edf".as_slice() {
        Some(Policy::Edf)
    } else {
        None
    }
}

/// The policy at `policy`, which is rate monotonic where it is left out.
#[tactic(auto, unfolding(crate::specs::SetOf::policy_at, crate::specs::SetOf::policy_in))]
fn policy_at(file: &Table) -> Result<Policy, FileFault>
    ensures { result ≡ policy_at (table_view file.now) }
{
    match find(file, Label::Policy) {
        Some(value) => {
            let word = value.as_str().ok_or(TOP.field(Label::Policy))?;
            policy_of(word.as_bytes()).ok_or(TOP.range(Label::Policy))
        }
        None => Ok(Policy::Rm),
    }
}

/// Refuses more rows of a section than it may have.
#[tactic(auto, using(crate::proofs::Read::items_len_view), unfolding(crate::specs::Arrays::up_to))]
fn up_to(most: usize, section: Section, rows: &[Value]) -> Result<&[Value], FileFault>
    ensures value { Shows (λ rows. items_view rows.now) (up_to most section (items_view rows.now)) result }
    ensures few { IfOk result (λ rows. length rows.now ≤ most) }
    ensures same { IfOk result (λ few. few.now ≡ rows.now) }
{
    if rows.len() > most {
        return Err(FileFault::TooMany {
            section,
            count: rows.len() as u64,
        });
    }
    Ok(rows)
}

/// The array at `object`.
#[tactic(auto, unfolding(crate::specs::SetOf::object_rows))]
fn object_rows<'a>(file: &'a Table) -> Result<&'a [Value], FileFault>
    ensures value { Shows (λ rows. items_view rows.now) (object_rows (table_view file.now)) result }
    ensures few { IfOk result (λ rows. length rows.now ≤ 16) }
{
    let rows = array_or_empty(TOP, Label::Object, file)?;
    up_to(16, Section::Object, rows)
}

/// The array at `task`.
#[tactic(auto, using(crate::proofs::Read::items_len_view), unfolding(crate::specs::SetOf::task_rows, crate::specs::SetOf::some_rows))]
fn task_rows<'a>(file: &'a Table) -> Result<&'a [Value], FileFault>
    ensures value { Shows (λ rows. items_view rows.now) (task_rows (table_view file.now)) result }
    ensures length { IfOk result (λ rows. (1 ≤ length rows.now) × (length rows.now ≤ 64)) }
{
    let rows = array_at(TOP, Label::Task, file)?;
    if rows.is_empty() {
        return Err(TOP.range(Label::Task));
    }
    up_to(64, Section::Task, rows)
}

/// The array at `demand`.
#[tactic(auto, unfolding(crate::specs::SetOf::demand_rows))]
fn demand_rows<'a>(file: &'a Table) -> Result<&'a [Value], FileFault>
    ensures value { Shows (λ rows. items_view rows.now) (demand_rows (table_view file.now)) result }
    ensures few { IfOk result (λ rows. length rows.now ≤ 1000) }
{
    let rows = array_or_empty(TOP, Label::Demand, file)?;
    up_to(1000, Section::Demand, rows)
}

/// The set of a document.
#[tactic(auto, unfolding(crate::specs::SetOf::set_of_file))]
fn read_file(alloc: Global, file: &Table) -> Result<TaskSet, FileFault>
    ensures { Gives (λ set. set) (set_of_file (table_view file.now)) result }
{
    let policy = policy_at(file)?;
    let of_objects = object_rows(file)?;
    let of_tasks = task_rows(file)?;
    let of_demands = demand_rows(file)?;
    only_keys(TOP, &TOP_LABELS, file)?;
    let objects = read_objects(alloc, of_objects)?;
    let tasks = read_tasks(alloc, &objects, of_tasks)?;
    let demands = read_demands(alloc, &tasks, of_demands)?;
    Ok(TaskSet::build(
        policy,
        objects.into_rows(),
        tasks.into_rows(),
        demands.into_rows(),
    ))
}

/// The document that bytes write.
fn read_document(alloc: Global, bytes: &[u8]) -> Result<Table, FileFault>
    ensures { Gives (λ file. table_view file) (file_of bytes.now) result }
{
    let text = match std::str::from_utf8(bytes) {
        Ok(text) => text,
        Err(_) => return Err(FileFault::NotToml),
    };
    match toml::table_from_str(alloc, text) {
        Ok(file) => Ok(file),
        Err(error) => {
            if error.is_memory() {
                Err(FileFault::NoMemory)
            } else {
                Err(FileFault::NotToml)
            }
        }
    }
}

/// Reads a task file into a set of tasks, or answers its first fault. The file is a document in TOML, of at most
/// 1,048,576 bytes, whose only keys are `policy`, `object`, `task` and `demand`.
///
/// `policy` is the string `rm`, `dm` or `edf`, and `rm` where it is left out.
///
/// `object` is an array of at most 16 tables, and empty where it is left out. Each has
///
/// - `name`, a string: 1 to 16 ASCII letters, digits and `_`, the first a letter, and not the name of an earlier object;
/// - `kind`, the string `cell`, `queue`, `list` or `registers`;
/// - `capacity`, an integer from 1 to 64 for a queue or a list and from 1 to 16 for registers. A cell must have none.
///
/// `task` is an array of 1 to 64 tables. Each has
///
/// - `name`, of the same form, and not the name of an earlier task;
/// - `period`, an integer from 1 to 1,000,000;
/// - `deadline`, an integer from 1 to the period, which is the period where it is left out;
/// - `offset`, an integer from 0 to 1,000,000, which is 0 where it is left out;
/// - `body`, an array of 1 to 64 strings, the items: `work n`, with n from 1 to 1,000,000, or a call on the object o that
///   fits it. The calls are `get o`, `set o v`, `add o v` and `swap o x y` on a cell, `put o v` and `take o` on a queue,
///   `insert o k`, `remove o k` and `has o k` on a list, and `read o i`, `shift o f t n` and `multi o`, which 1 to 4
///   rows `i x y` follow, on registers. Numbers have up to 10 digits, and at most 32 bits.
///
/// `demand` is an array of at most 1,000 tables, and empty where it is left out. Each has
///
/// - `task`, a string: the name of a task;
/// - `job`, an integer from 1 to 1,000,000;
/// - `item`, an integer: the number of a work item in the body of that task, from 1;
/// - `ticks`, an integer from 1 to 1,000,000.
///
/// No two rows of `demand` have the same task, job and item.
///
/// The policy, the three arrays and the other keys at the top are looked at first, then the rows of `object`, of `task`
/// and of `demand` in order, each key by key in the order of these lists, then for other keys, and then a task item by
/// item: its shape, its object, and whether the call fits; and a row of `demand` for an earlier row that names the same
/// item of the same job. `NoMemory` may come for any file, and says nothing of it.
///
/// Beside what `toml` takes for the document, the cost grows with the number of bytes, for each name and item with the
/// logarithm of the number of objects or tasks, and for each row of `demand` with that of the number of these rows. What
/// `TaskSet::build` takes comes on top of it.
#[tactic(auto, unfolding(crate::specs::SetOf::set_of))]
pub fn read_set(alloc: Global, bytes: &[u8]) -> Result<TaskSet, FileFault>
    requires { length bytes.now ≤ 1048576 }
    ensures { SetGives (set_of bytes.now) result }
{
    let file = read_document(alloc, bytes)?;
    read_file(alloc, &file)
}
