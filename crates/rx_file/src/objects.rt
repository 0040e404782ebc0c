// The rows of `object`.
ghost use Rattle.std.specs.Prelude.{◌≡◌, ◌≤◌, ◌<◌, ◌++◌, ◌∷◌, [], true, false, length, map, IfOk, IfErr, IfSome};
ghost use Rattle.toml.specs.View.{view, items_view, table_view};
ghost use Rattle.rx_seq.specs.Table.{IsCap, IsPart};
ghost use Rattle.rx_seq.specs.History.{part_at};
ghost use Rattle.rx_set.specs.Names.{is_name};
ghost use Rattle.rx_set.specs.System.{part_of_row};
ghost use Rattle.rx_set.specs.Valid.{IsObjectRow, object_name};
ghost use Rattle.rx_set.specs.View.{object_row};
ghost use Rattle.rx_file.specs.Fields.{is_taken};
ghost use Rattle.rx_file.specs.Objects.{kind_of, kind_at, cap_at, part_of_table, object_of_table, object_of_value, objects_of};
ghost use Rattle.rx_file.specs.Items.{object_of};
ghost use Rattle.rx_file.specs.Gives.{Shows, Gives, AreObjects, read_object};
ghost use Rattle.rx_file.specs.declared.faults.FileFault.TheVariants.{NoMemory};

use crate::faults::{FileFault, Label, Section};
use crate::fields::{name_at, name_of, no_key, number_at, only_keys, text_at};
use crate::names::NameIndex;
use crate::places::Place;
use rx_seq::{Kind, Part};
use rx_set::Object;
use std::alloc::Global;
use std::marker::Model;
use toml::{Table, Value};

/// An object whose name lies in the document.
#[derive(Clone, Copy)]
struct ReadObject<'a> {
    name: &'a str,
    part: Part,
}

/// The objects that were read, and where their names stand.
#[derive(Drop)]
pub(crate) struct Objects<'a> {
    rows: Vec<Object>,
    places: NameIndex<'a>,
}

impl<'a> Model for Objects<'a> {
    ghost use Rattle.std.specs.Prelude.{List, map};
    ghost use Rattle.rx_set.specs.System.{ObjectRow};
    ghost use Rattle.rx_set.specs.Valid.{object_name};
    ghost use Rattle.rx_set.specs.View.{object_row};
    ghost use Rattle.rx_file.specs.Index.{IsIndex};

    ghost Value = { List ObjectRow };

    ghost view = { λ o. map object_row o.rows.items };

    ghost invariant = { λ o. IsIndex o.places (map object_name (map object_row o.rows.items)) };
}

impl<'a> Objects<'a> {
    /// No objects.
    fn new(alloc: Global) -> Objects<'a>
        ensures { result ≡ [] }
    {
        Objects {
            rows: Vec::new(alloc),
            places: NameIndex::new(alloc),
        }
    }

    /// How many there are.
    fn len(&self) -> usize
        ensures { result ≡ length self.now }
    {
        self.rows.len()
    }

    /// The number of the object of a name, from 0. Its cost grows with the logarithm of the number of objects.
    pub(crate) fn find(&self, name: &'a [u8]) -> Option<u32>
        ensures value { result ≡ object_of self.now name.now }
        ensures bound { IfSome result (λ object. object < length self.now) }
    {
        self.places.place(name)
    }

    /// Whether an object has this name.
    fn has(&self, name: &'a [u8]) -> bool
        ensures { result ≡ is_taken (map object_name self.now) name.now }
    {
        self.find(name).is_some()
    }

    /// The part of an object.
    pub(crate) fn part(&self, object: u32) -> Part
        requires { object < length self.now }
        ensures { result ≡ part_at (map part_of_row self.now) object }
    {
        self.rows[object as usize].part
    }

    /// One object more, whose name is new.
    fn with(self, object: ReadObject<'a>) -> Result<Objects<'a>, FileFault>
        requires few { length self < 16 }
        requires good { IsObjectRow (read_object object) }
        requires new { is_taken (map object_name self) object.name.now ≡ false }
        ensures objects { IfOk result (λ objects. objects ≡ self.entry ++ read_object object.entry ∷ []) }
        ensures memory { IfErr result (λ fault. fault ≡ NoMemory) }
    {
        let mut rows = self.rows;
        let mut places = self.places;
        places.push(object.name.as_bytes(), rows.len() as u32)?;
        let row = Object {
            name: name_of(object.name),
            part: object.part,
        };
        let Ok(()) = rows.push(row) else {
            return Err(FileFault::NoMemory);
        };
        Ok(Objects { rows, places })
    }

    /// The objects alone.
    pub(crate) fn into_rows(self) -> Vec<Object>
        ensures { map object_row result.items ≡ self.entry }
    {
        self.rows
    }
}

/// The kind that a word names.
fn kind_of(word: &[u8]) -> Option<Kind>
    ensures { result ≡ kind_of word.now }
{
    if word == b"cell".as_slice() {
        Some(Kind::Cell)
    } else if word == b"queue".as_slice() {
        Some(Kind::Queue)
    } else if word == b"list".as_slice() {
        Some(Kind::List)
    } else if word == b"registers".as_slice() {
        Some(Kind::Registers)
    } else {
        None
    }
}

/// The kind at `kind`.
#[tactic(auto, unfolding(crate::specs::Objects::kind_at))]
fn kind_at(place: Place, row: &Table) -> Result<Kind, FileFault>
    ensures { result ≡ kind_at place (table_view row.now) }
{
    let word = text_at(place, Label::Kind, row)?;
    kind_of(word.as_bytes()).ok_or(place.range(Label::Kind))
}

/// The capacity of an object of this kind. A cell has room for one number, and must have no `capacity`.
#[tactic(auto, unfolding(crate::specs::Objects::cap_at))]
fn cap_at(place: Place, kind: Kind, row: &Table) -> Result<u64, FileFault>
    ensures value { result ≡ cap_at place kind (table_view row.now) }
    ensures cap { IfOk result (IsCap kind) }
    ensures bound { IfOk result (λ cap. cap ≤ 64) }
{
    match kind {
        Kind::Cell => {
            no_key(place, Label::Capacity, row)?;
            Ok(1)
        }
        Kind::Queue | Kind::List => number_at(place, Label::Capacity, 1, 64, row),
        Kind::Registers => number_at(place, Label::Capacity, 1, 16, row),
    }
}

/// The kind and the capacity of the object of a table.
#[tactic(auto, unfolding(crate::specs::Objects::part_of_table))]
fn part_of_table(place: Place, row: &Table) -> Result<Part, FileFault>
    ensures value { result ≡ part_of_table place (table_view row.now) }
    ensures part { IfOk result IsPart }
{
    let kind = kind_at(place, row)?;
    let cap = cap_at(place, kind, row)?;
    Ok(Part {
        kind,
        cap: cap as u32,
    })
}

/// The object of a table that comes after these objects.
#[tactic(auto, unfolding(crate::specs::Objects::object_of_table, crate::specs::Fields::is_new))]
fn read_table<'a>(
    place: Place,
    before: &Objects<'a>,
    row: &'a Table,
) -> Result<ReadObject<'a>, FileFault>
    ensures object { Shows read_object (object_of_table place before.now (table_view row.now)) result }
    ensures good { IfOk result (λ object. IsObjectRow (read_object object)) }
    ensures new { IfOk result (λ object. is_taken (map object_name before.now) object.name.now ≡ false) }
{
    let name = name_at(place, row)?;
    if before.has(name.as_bytes()) {
        return Err(place.repeat());
    }
    let part = part_of_table(place, row)?;
    only_keys(place, &[Label::Name, Label::Kind, Label::Capacity], row)?;
    Ok(ReadObject { name, part })
}

/// The object of a row that comes after these objects.
#[tactic(auto, unfolding(crate::specs::Objects::object_of_value))]
fn read_row<'a>(before: &Objects<'a>, value: &'a Value) -> Result<ReadObject<'a>, FileFault>
    requires { length before.now < 16 }
    ensures object { Shows read_object (object_of_value before.now (view value.now)) result }
    ensures good { IfOk result (λ object. IsObjectRow (read_object object)) }
    ensures new { IfOk result (λ object. is_taken (map object_name before.now) object.name.now ≡ false) }
{
    let place = Place {
        section: Section::Object,
        row: before.len() as u32 + 1,
    };
    match value.as_table() {
        Some(row) => read_table(place, before, row),
        None => Err(place.field(Label::Whole)),
    }
}

/// The objects of some rows, which are looked at in order. The cost grows with the size of the rows, and for each with the
/// logarithm of their number.
pub(crate) fn read_objects<'a>(alloc: Global, values: &'a [Value]) -> Result<Objects<'a>, FileFault>
    requires { length values.now ≤ 16 }
    ensures objects { Gives (λ objects. objects) (objects_of (items_view values.now)) result }
    ensures good { IfOk result AreObjects }
    ensures count { IfOk result (λ objects. length objects ≡ length values.now) }
{
    let mut objects = Objects::new(alloc);
    for value in values {
        let object = read_row(&objects, value)?;
        objects = objects.with(object)?;
    }
    Ok(objects)
}
