// The shapes of items, by words.
ghost use Rattle.std.specs.Prelude.{◌≡◌, ◌<◌, get_or, option_map, IfSome, MatchOption, Some};
ghost use Rattle.rx_file.specs.Texts.{words_of};
ghost use Rattle.rx_file.specs.Shapes.{word_of, verb_of, row_of, row_count, multi_of, call_of, call_with, numbers_of, work_of, operation_of, shape_of};
ghost use Rattle.rx_file.specs.Gives.{HaveNoCall, HasTicks, shape_view};

use crate::texts::{next_word, word_number};
use arrayvec::ArrayVec;
use rx_seq::{Call, Row};

/// The most numbers that stand after an object's name: three for each of four registers.
const MOST_NUMBERS: usize = 12;

/// A call, without its numbers.
#[derive(Clone, Copy)]
pub(crate) enum Verb {
    Get,
    Set,
    Add,
    Swap,
    Put,
    Take,
    Insert,
    Remove,
    Has,
    Read,
    Shift,
    Multi,
}

/// The calls in the order in which words are compared with them.
const VERBS: [Verb; 12] = [
    Verb::Get,
    Verb::Set,
    Verb::Add,
    Verb::Swap,
    Verb::Put,
    Verb::Take,
    Verb::Insert,
    Verb::Remove,
    Verb::Has,
    Verb::Read,
    Verb::Shift,
    Verb::Multi,
];

/// What the words of an item spell, whatever objects there are.
#[derive(Clone, Copy)]
pub(crate) enum Shape<'a> {
    /// Ticks of work.
    Work { n: u64 },
    /// A call on the object of this name.
    On { object: &'a [u8], call: Call },
}

impl Verb {
    /// The word of the call.
    fn word(self) -> &'static str
        ensures { result.now ≡ word_of self }
    {
        match self {
            Verb::Get => "get",
            Verb::Set => "set",
            Verb::Add => "add",
            Verb::Swap => "swap",
            Verb::Put => "put",
            Verb::Take => "take",
            Verb::Insert => "insert",
            Verb::Remove => "remove",
            Verb::Has => "has",
            Verb::Read => "read",
            Verb::Shift => "shift",
            Verb::Multi => "multi",
        }
    }
}

/// The call that a word stands for.
fn verb_of(word: &[u8]) -> Option<Verb>
    ensures { result ≡ verb_of word.now }
{
    for verb in VERBS {
        if verb.word().as_bytes() == word {
            return Some(verb);
        }
    }
    None
}

/// A number of these, and 0 past their end.
fn number_or_zero(numbers: &[u32], place: usize) -> u32
    ensures { result ≡ get_or numbers.now place 0 }
{
    match numbers.get(place) {
        Some(number) => *number,
        None => 0,
    }
}

/// The row of a transaction at a place from 0, three numbers to a row: zeros after the last one.
fn row_of(numbers: &[u32], place: usize) -> Row
    requires { place < 4 }
    ensures { result ≡ row_of numbers.now place }
{
    Row {
        i: number_or_zero(numbers, 3 * place),
        old: number_or_zero(numbers, 3 * place + 1),
        new: number_or_zero(numbers, 3 * place + 2),
    }
}

/// How many rows so many numbers make.
fn row_count(numbers: usize) -> Option<u32>
    ensures { result ≡ row_count numbers }
{
    match numbers {
        3 => Some(1),
        6 => Some(2),
        9 => Some(3),
        12 => Some(4),
        _ => None,
    }
}

/// The transaction of 1 to 4 rows.
fn multi_of(numbers: &[u32]) -> Option<Call>
    ensures { result ≡ multi_of numbers.now }
{
    let count = row_count(numbers.len())?;
    Some(Call::Multi {
        count,
        rows: [
            row_of(numbers, 0),
            row_of(numbers, 1),
            row_of(numbers, 2),
            row_of(numbers, 3),
        ],
    })
}

/// The call with these numbers.
fn call_of(verb: Verb, numbers: &[u32]) -> Option<Call>
    ensures { result ≡ call_of verb numbers.now }
{
    match (verb, numbers) {
        (Verb::Get, []) => Some(Call::Get),
        (Verb::Set, [v]) => Some(Call::Set { v: *v }),
        (Verb::Add, [v]) => Some(Call::Add { v: *v }),
        (Verb::Swap, [old, new]) => Some(Call::Swap {
            old: *old,
            new: *new,
        }),
        (Verb::Put, [v]) => Some(Call::Put { v: *v }),
        (Verb::Take, []) => Some(Call::Take),
        (Verb::Insert, [k]) => Some(Call::Insert { k: *k }),
        (Verb::Remove, [k]) => Some(Call::Remove { k: *k }),
        (Verb::Has, [k]) => Some(Call::Has { k: *k }),
        (Verb::Read, [i]) => Some(Call::Read { i: *i }),
        (Verb::Shift, [from, to, n]) => Some(Call::Shift {
            from: *from,
            to: *to,
            n: *n,
        }),
        (Verb::Multi, _) => multi_of(numbers),
        _ => None,
    }
}

/// The numbers that a text spells, or `None` where no call has so many or one of its words is no number.
fn numbers_of(text: &[u8]) -> Option<ArrayVec<u32, MOST_NUMBERS>>
    ensures { MatchOption result (HaveNoCall (words_of text.now)) (λ numbers. numbers_of (words_of text.now) ≡ Some numbers.items) }
{
    let mut numbers = ArrayVec::new();
    let mut text = text;
    while let Some((word, rest)) = next_word(text) {
        if numbers.is_full() {
            return None;
        }
        numbers.push(word_number(word)?);
        text = rest;
    }
    Some(numbers)
}

/// The call that the words after the object's name complete.
fn call_with(verb: Verb, text: &[u8]) -> Option<Call>
    ensures { result ≡ call_with verb (words_of text.now) }
{
    let numbers = numbers_of(text)?;
    call_of(verb, numbers.as_slice())
}

/// A call on an object, of which the first word was read.
fn operation_of(verb: Verb, text: &[u8]) -> Option<Shape<'_>>
    ensures value { option_map shape_view result ≡ operation_of verb (words_of text.now) }
    ensures ticks { IfSome result HasTicks }
{
    let (object, rest) = next_word(text)?;
    let call = call_with(verb, rest)?;
    Some(Shape::On { object, call })
}

/// `work n`, of which the first word was read: 1 to 1,000,000 ticks.
fn work_of(text: &[u8]) -> Option<Shape<'_>>
    ensures value { option_map shape_view result ≡ work_of (words_of text.now) }
    ensures ticks { IfSome result HasTicks }
{
    let (number, rest) = next_word(text)?;
    if next_word(rest).is_some() {
        return None;
    }
    let n = word_number(number)?;
    if 1 <= n && n <= 1_000_000 {
        Some(Shape::Work { n: u64::from(n) })
    } else {
        None
    }
}

/// The shape that a text has, if any. Its words are cut at spaces alone. The cost grows with the length of the text.
pub(crate) fn shape_of(text: &[u8]) -> Option<Shape<'_>>
    ensures value { option_map shape_view result ≡ shape_of (words_of text.now) }
    ensures ticks { IfSome result HasTicks }
{
    let (word, rest) = next_word(text)?;
    if word == b"work".as_slice() {
        work_of(rest)
    } else {
        operation_of(verb_of(word)?, rest)
    }
}
