// The keys of a table, and what stands there.
ghost use Rattle.std.specs.Prelude.{◌≡◌, ◌≤◌, true, IfOk, option_map};
ghost use Rattle.std.specs.List.{list_all};
ghost use Rattle.toml.specs.Data.{get_member};
ghost use Rattle.toml.specs.View.{view, items_view, table_view};
ghost use Rattle.rx_set.specs.Names.{is_name, is_name_byte};
ghost use Rattle.rx_file.specs.Fields.{key_of, value_at, text_at, name_at, in_range, number_in, number_at, number_or, no_key, is_key, has_only, only_keys};
ghost use Rattle.rx_file.specs.Arrays.{array_at, array_or_empty};
ghost use Rattle.rx_file.specs.Gives.{Shows};

use crate::faults::{FileFault, Label};
use crate::places::Place;
use rx_set::Name;
use toml::{Table, Value};

/// What a key holds.
pub(crate) fn find<'a>(row: &'a Table, label: Label) -> Option<&'a Value>
    ensures { option_map (λ v. view v.now) result ≡ get_member (key_of label) (table_view row.now) }
{
    row.get(label.key())
}

/// What a key holds, which must stand.
#[tactic(auto, unfolding(crate::specs::Fields::value_at))]
fn value_at<'a>(place: Place, label: Label, row: &'a Table) -> Result<&'a Value, FileFault>
    ensures { Shows (λ v. view v.now) (value_at place label (table_view row.now)) result }
{
    find(row, label).ok_or(place.field(label))
}

/// The string at a key.
#[tactic(auto, unfolding(crate::specs::Fields::text_at))]
pub(crate) fn text_at<'a>(place: Place, label: Label, row: &'a Table) -> Result<&'a str, FileFault>
    ensures { Shows (λ text. text.now) (text_at place label (table_view row.now)) result }
{
    value_at(place, label, row)?
        .as_str()
        .ok_or(place.field(label))
}

/// The array at a key that must stand.
#[tactic(auto, unfolding(crate::specs::Arrays::array_at))]
pub(crate) fn array_at<'a>(
    place: Place,
    label: Label,
    row: &'a Table,
) -> Result<&'a [Value], FileFault>
    ensures { Shows (λ rows. items_view rows.now) (array_at place label (table_view row.now)) result }
{
    match value_at(place, label, row)?.as_array() {
        Some(rows) => Ok(rows.as_slice()),
        None => Err(place.field(label)),
    }
}

/// The array at a key that may be left out, which is then empty.
#[tactic(auto, unfolding(crate::specs::Fields::value_at, crate::specs::Arrays::array_at, crate::specs::Arrays::array_or_empty))]
pub(crate) fn array_or_empty<'a>(
    place: Place,
    label: Label,
    row: &'a Table,
) -> Result<&'a [Value], FileFault>
    ensures { Shows (λ rows. items_view rows.now) (array_or_empty place label (table_view row.now)) result }
{
    match find(row, label) {
        Some(_) => array_at(place, label, row),
        None => Ok(&[]),
    }
}

/// Whether all bytes are letters, digits or `_`.
fn are_name_bytes(name: &[u8]) -> bool
    ensures { result ≡ list_all is_name_byte name.now }
{
    for byte in name {
        if !(byte.is_ascii_alphanumeric() || *byte == b'_') {
            return false;
        }
    }
    true
}

/// Whether a text is a name.
fn is_name(name: &[u8]) -> bool
    ensures { result ≡ is_name name.now }
{
    1 <= name.len() && name.len() <= 16 && name[0].is_ascii_alphabetic() && are_name_bytes(name)
}

/// The name at `name`.
#[tactic(auto, unfolding(crate::specs::Fields::name_at))]
pub(crate) fn name_at<'a>(place: Place, row: &'a Table) -> Result<&'a str, FileFault>
    ensures value { Shows (λ name. name.now) (name_at place (table_view row.now)) result }
    ensures name { IfOk result (λ name. is_name name.now ≡ true) }
{
    let text = text_at(place, Label::Name, row)?;
    if is_name(text.as_bytes()) {
        Ok(text)
    } else {
        Err(FileFault::Name {
            section: place.section,
            row: place.row,
        })
    }
}

/// A name on its own, without the document.
pub(crate) fn name_of(text: &str) -> Name
    requires { is_name text.now ≡ true }
    ensures { result.bytes ≡ text.now }
{
    let mut name = Name::new();
    name.push_str(text);
    name
}

/// An integer from least to most.
fn in_range(
    place: Place,
    label: Label,
    least: u64,
    most: u64,
    number: i64,
) -> Result<u64, FileFault>
    ensures value { result ≡ in_range place label least most number }
    ensures range { IfOk result (λ n. (least ≤ n) × (n ≤ most)) }
{
    if number < 0 {
        return Err(place.range(label));
    }
    let n = number as u64;
    if least <= n && n <= most {
        Ok(n)
    } else {
        Err(place.range(label))
    }
}

/// The number that a value is.
#[tactic(auto, unfolding(crate::specs::Fields::number_in))]
fn number_in(
    place: Place,
    label: Label,
    least: u64,
    most: u64,
    value: &Value,
) -> Result<u64, FileFault>
    ensures value { result ≡ number_in place label least most (view value.now) }
    ensures range { IfOk result (λ n. (least ≤ n) × (n ≤ most)) }
{
    match value.as_integer() {
        Some(number) => in_range(place, label, least, most, number),
        None => Err(place.field(label)),
    }
}

/// The number at a key that must stand.
#[tactic(auto, unfolding(crate::specs::Fields::number_at))]
pub(crate) fn number_at(
    place: Place,
    label: Label,
    least: u64,
    most: u64,
    row: &Table,
) -> Result<u64, FileFault>
    ensures value { result ≡ number_at place label least most (table_view row.now) }
    ensures range { IfOk result (λ n. (least ≤ n) × (n ≤ most)) }
{
    let value = value_at(place, label, row)?;
    number_in(place, label, least, most, value)
}

/// The number at a key that may be left out.
#[tactic(auto, unfolding(crate::specs::Fields::number_or))]
pub(crate) fn number_or(
    place: Place,
    label: Label,
    default: u64,
    least: u64,
    most: u64,
    row: &Table,
) -> Result<u64, FileFault>
    requires { (least ≤ default) × (default ≤ most) }
    ensures value { result ≡ number_or place label default least most (table_view row.now) }
    ensures range { IfOk result (λ n. (least ≤ n) × (n ≤ most)) }
{
    match find(row, label) {
        Some(value) => number_in(place, label, least, most, value),
        None => Ok(default),
    }
}

/// Refuses a key that must not stand.
#[tactic(auto, unfolding(crate::specs::Fields::no_key))]
pub(crate) fn no_key(place: Place, label: Label, row: &Table) -> Result<(), FileFault>
    ensures { result ≡ no_key place label (table_view row.now) }
{
    match find(row, label) {
        Some(_) => Err(place.field(label)),
        None => Ok(()),
    }
}

/// Whether a key is that of one of the labels.
fn is_key(labels: &[Label], key: &str) -> bool
    ensures { result ≡ is_key labels.now key.now }
{
    for label in labels {
        if label.key().as_bytes() == key.as_bytes() {
            return true;
        }
    }
    false
}

/// Whether each key is that of one of the labels.
fn has_only(labels: &[Label], row: &Table) -> bool
    ensures { result ≡ has_only labels.now (table_view row.now) }
{
    for (key, _) in row.iter() {
        if !is_key(labels, key.as_str()) {
            return false;
        }
    }
    true
}

/// Refuses a key that has no meaning there.
#[tactic(auto, unfolding(crate::specs::Fields::only_keys))]
pub(crate) fn only_keys(place: Place, labels: &[Label], row: &Table) -> Result<(), FileFault>
    ensures { result ≡ only_keys place labels.now (table_view row.now) }
{
    if has_only(labels, row) {
        Ok(())
    } else {
        Err(place.field(Label::Other))
    }
}
