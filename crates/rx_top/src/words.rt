//! What the words ask.
ghost use Rattle.rx_file.specs.Texts.{number_of};
ghost use Rattle.std.specs.Prelude.{◌≡◌, ◌≤◌, map, string_bytes, IfSome};
ghost use Rattle.std.specs.Option.{ForSome};
ghost use Rattle.rx_top.specs.Words.{IsLimited, command_of, draw_of, from_one_to, lanes_of, number_up_to, one_word, run_of, three_words, two_words};

use rx_file::number_of;

// The most slots of a run.
const MOST_TICKS: u64 = 1_000_000;

// The most lanes, and the most jobs of each task that they make.
const MOST_LANES: u32 = 16;

const MOST_JOBS: u32 = 200;

/// What is asked of the set of the input.
#[derive(Clone, Copy, Debug, PartialEq, Eq)]
pub enum Query {
    /// Its schedule of so many slots.
    Run { ticks: u64 },
    /// What the admission test says of it.
    Admit,
    /// Its operations for so many jobs, made by so many lanes.
    Lanes { workers: u32, jobs: u32 },
}

/// A command, with its numbers in their limits.
#[derive(Clone, Copy, Debug, PartialEq, Eq)]
pub enum Command {
    /// Read a set, and answer a query.
    Ask { query: Query },
    /// Draw the set of a number, and tell the intervals of its schedule.
    Draw { number: u64 },
}

/// The number of a number word, if it is at most so much.
fn number_up_to(most: u64, number: &[u8]) -> Option<u64>
    ensures value { result ≡ number_up_to most (number_of 20 number.now) }
    ensures limit { IfSome result (λ n. n ≤ most) }
{
    let number = number_of(number, 20)?;
    if number <= u128::from(most) {
        Some(number as u64)
    } else {
        None
    }
}

/// The number of a number word, if it is from 1 to the most.
fn from_one_to(most: u32, number: &[u8]) -> Option<u32>
    ensures value { result ≡ from_one_to most (number_of 20 number.now) }
    ensures limits { IfSome result (λ n. (1 ≤ n) × (n ≤ most)) }
{
    let number = number_up_to(u64::from(most), number)?;
    if number >= 1 {
        Some(number as u32)
    } else {
        None
    }
}

/// The command `run` with this number word.
fn run_of(number: &[u8]) -> Option<Command>
    ensures value { result ≡ run_of number.now }
    ensures limits { ForSome result IsLimited }
{
    let ticks = number_up_to(MOST_TICKS, number)?;
    Some(Command::Ask {
        query: Query::Run { ticks },
    })
}

/// The command `gen` with this number word.
fn draw_of(number: &[u8]) -> Option<Command>
    ensures value { result ≡ draw_of number.now }
    ensures limits { ForSome result IsLimited }
{
    let number = number_up_to(u64::MAX, number)?;
    Some(Command::Draw { number })
}

/// The command `lanes` with these number words.
fn lanes_of(workers: &[u8], jobs: &[u8]) -> Option<Command>
    ensures value { result ≡ lanes_of workers.now jobs.now }
    ensures limits { ForSome result IsLimited }
{
    let workers = from_one_to(MOST_LANES, workers)?;
    let jobs = from_one_to(MOST_JOBS, jobs)?;
    Some(Command::Ask {
        query: Query::Lanes { workers, jobs },
    })
}

/// The command of one word.
fn one_word(name: &[u8]) -> Option<Command>
    ensures value { result ≡ one_word name.now }
    ensures limits { ForSome result IsLimited }
{
    if name == b"admit".as_slice() {
        Some(Command::Ask {
            query: Query::Admit,
        })
    } else {
        None
    }
}

/// The command of a word and a number word.
fn two_words(name: &[u8], number: &[u8]) -> Option<Command>
    ensures value { result ≡ two_words name.now number.now }
    ensures limits { ForSome result IsLimited }
{
    if name == b"run".as_slice() {
        run_of(number)
    } else if name == b"gen".as_slice() {
        draw_of(number)
    } else {
        None
    }
}

/// The command of a word and two number words.
fn three_words(name: &[u8], workers: &[u8], jobs: &[u8]) -> Option<Command>
    ensures value { result ≡ three_words name.now workers.now jobs.now }
    ensures limits { ForSome result IsLimited }
{
    if name == b"lanes".as_slice() {
        lanes_of(workers, jobs)
    } else {
        None
    }
}

/// The command that the words spell, if they have a shape.
pub(crate) fn command_of(words: &[String]) -> Option<Command>
    ensures value { result ≡ command_of (map string_bytes words.now) }
    ensures limits { ForSome result IsLimited }
{
    match words {
        [name] => one_word(name.as_str().as_bytes()),
        [name, number] => two_words(name.as_str().as_bytes(), number.as_str().as_bytes()),
        [name, workers, jobs] => three_words(
            name.as_str().as_bytes(),
            workers.as_str().as_bytes(),
            jobs.as_str().as_bytes(),
        ),
        _ => None,
    }
}
