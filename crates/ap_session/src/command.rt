ghost use Rattle.std.specs.Prelude.{◌≡◌, ◌≤◌, ◌<◌, cond, nat_le, Some, None, IfOk, map, option_map, string_bytes};
ghost use Rattle.std.specs.List.{list_all};
ghost use Rattle.ap_session.specs.Command.{is_digit, leads, is_number, read_on, number_in, flag_of, no_options, once, with_workers, with_steps, with_goals, with_revert, with_demo, with_number, with_trace, limits_in, books_command, is_bare, demo_command, command_from, are_books, where_books, of_books, command_of, shown_order, shown_command};

use ap_books::{PlanError, plan};
use ap_events::Limits;
use ap_list::NoMemory;
use std::alloc::{AllocError, Global};

/// The most goals that may be worked at a time, and how many are where the words don't say.
const MOST_WORKERS: u32 = 64;

const USUAL_WORKERS: u32 = 1;

/// The most goals that an attempt may visit, and how many it may where the words don't say.
const MOST_GOALS: u32 = 100_000;

const USUAL_GOALS: u32 = 10_000;

/// The most steps that a clause may spend, and how many it may where the words don't say.
const MOST_STEPS: u32 = 1_000_000;

const USUAL_STEPS: u32 = 100_000;

/// The most pushes at which an attempt may revert, and at how many it does where the words don't say.
const MOST_REVERT: u32 = 100;

const USUAL_REVERT: u32 = 2;

/// The most functions that the demo may have.
const MOST_FUNCTIONS: u32 = 1000;

/// What words that name books command: the names, lent, the limits of their attempts, how many goals may be worked at a
/// time, and whether what was dropped is told.
#[derive(Clone, Copy)]
pub(crate) struct Order<'a> {
    pub(crate) books: &'a [String],
    pub(crate) limits: Limits,
    pub(crate) workers: u32,
    pub(crate) trace: bool,
}

/// The demo: of how many functions, under which limits, and how many goals may be worked at a time.
#[derive(Clone, Copy)]
pub(crate) struct Demo {
    pub(crate) number: u32,
    pub(crate) limits: Limits,
    pub(crate) workers: u32,
}

/// What the words command.
#[derive(Clone, Copy)]
pub(crate) enum Command<'a> {
    Certify(Order<'a>),
    Show(Demo),
}

/// What an option with a number counts.
#[derive(Clone, Copy)]
pub(crate) enum Counted {
    Workers,
    Steps,
    Goals,
    Revert,
    Functions,
}

/// An option of the command.
#[derive(Clone, Copy)]
pub(crate) enum Flag {
    Number(Counted),
    Trace,
}

/// The options that are given: how many goals may be worked at a time, how many steps a clause may spend, how many goals
/// an attempt may visit, at how many pushes it reverts, how many functions the demo has, and whether what was dropped is
/// told.
#[derive(Clone, Copy)]
pub(crate) struct Options {
    pub(crate) workers: Option<u32>,
    pub(crate) steps: Option<u32>,
    pub(crate) goals: Option<u32>,
    pub(crate) revert: Option<u32>,
    pub(crate) demo: Option<u32>,
    pub(crate) trace: bool,
}

fn is_digit(byte: u8) -> bool
    ensures { result ≡ is_digit byte }
{
    48 <= byte && byte <= 57
}

fn leads(word: &[u8]) -> bool
    ensures { result ≡ leads word.now }
{
    match word {
        [] => false,
        [first, ..] => *first != 48,
    }
}

fn are_digits(word: &[u8]) -> bool
    ensures { result ≡ list_all is_digit word.now }
{
    word.iter().all(|byte| is_digit(*byte))
}

/// Whether a word is a number: decimal digits without a sign or a leading zero.
fn is_number(word: &[u8]) -> bool
    ensures { result ≡ is_number word.now }
{
    leads(word) && are_digits(word)
}

/// The number that digits make behind a number, where it is at most `most`, which is below 400,000,000.
#[tactic(auto, using(crate::proofs::Numbers::past))]
fn read_on(value: u32, digits: &[u8], most: u32) -> Option<u32>
    requires so_far { value ≤ most }
    requires few { most < 400000000 }
    ensures { result ≡ cond (nat_le (read_on value digits.now) most) (Some (read_on value digits.now)) None }
{
    match digits {
        [] => Some(value),
        [digit, rest @ ..] => {
            let next = 10 * value + u32::from(*digit).saturating_sub(48);
            if next > most {
                None
            } else {
                read_on(next, rest, most)
            }
        }
    }
}

/// The number that a word is, where it is one of at most `most`.
fn number_in(word: &[u8], most: u32) -> Option<u32>
    requires { most < 400000000 }
    ensures { result ≡ number_in most word.now }
{
    if is_number(word) {
        read_on(0, word, most)
    } else {
        None
    }
}

/// An option's number, where there is one and the option comes for the first time.
fn once(given: Option<u32>, number: Option<u32>) -> Option<u32>
    ensures { result ≡ once given number }
{
    match given {
        None => number,
        Some(_) => None,
    }
}

/// The option that a word is, if it is one.
fn flag_in(word: &String) -> Option<Flag>
    ensures { result ≡ flag_of (string_bytes word.now) }
{
    let word = word.as_bytes();
    if word == b"--workers".as_slice() {
        Some(Flag::Number(Counted::Workers))
    } else if word == b"--steps".as_slice() {
        Some(Flag::Number(Counted::Steps))
    } else if word == b"--goals".as_slice() {
        Some(Flag::Number(Counted::Goals))
    } else if word == b"--revert".as_slice() {
        Some(Flag::Number(Counted::Revert))
    } else if word == b"--demo".as_slice() {
        Some(Flag::Number(Counted::Functions))
    } else if word == b"--trace".as_slice() {
        Some(Flag::Trace)
    } else {
        None
    }
}

/// These options and the number of workers, where there is one.
fn with_workers(options: Options, number: Option<u32>) -> Option<Options>
    ensures { result ≡ with_workers options number }
{
    let workers = number?;
    Some(Options {
        workers: Some(workers),
        ..options
    })
}

/// These options and the number of steps, where there is one.
fn with_steps(options: Options, number: Option<u32>) -> Option<Options>
    ensures { result ≡ with_steps options number }
{
    let steps = number?;
    Some(Options {
        steps: Some(steps),
        ..options
    })
}

/// These options and the number of goals, where there is one.
fn with_goals(options: Options, number: Option<u32>) -> Option<Options>
    ensures { result ≡ with_goals options number }
{
    let goals = number?;
    Some(Options {
        goals: Some(goals),
        ..options
    })
}

/// These options and the number of pushes at which an attempt reverts, where there is one.
fn with_revert(options: Options, number: Option<u32>) -> Option<Options>
    ensures { result ≡ with_revert options number }
{
    let revert = number?;
    Some(Options {
        revert: Some(revert),
        ..options
    })
}

/// These options and the demo's number of functions, where there is one.
fn with_demo(options: Options, number: Option<u32>) -> Option<Options>
    ensures { result ≡ with_demo options number }
{
    let functions = number?;
    Some(Options {
        demo: Some(functions),
        ..options
    })
}

/// One option more that has a number, which this word gives, or `None` where it gives none, or the option was given
/// already.
fn with_number(options: Options, counted: Counted, word: &String) -> Option<Options>
    ensures { result ≡ with_number options counted (string_bytes word.now) }
{
    let word = word.as_bytes();
    match counted {
        Counted::Workers => {
            with_workers(
                options,
                once(options.workers, number_in(word, MOST_WORKERS)),
            )
        }
        Counted::Steps => with_steps(options, once(options.steps, number_in(word, MOST_STEPS))),
        Counted::Goals => with_goals(options, once(options.goals, number_in(word, MOST_GOALS))),
        Counted::Revert => with_revert(options, once(options.revert, number_in(word, MOST_REVERT))),
        Counted::Functions => {
            with_demo(options, once(options.demo, number_in(word, MOST_FUNCTIONS)))
        }
    }
}

/// The option that tells what was dropped, or `None` where it was given already.
fn with_trace(options: Options) -> Option<Options>
    ensures { result ≡ with_trace options }
{
    if options.trace {
        return None;
    }
    Some(Options {
        trace: true,
        ..options
    })
}

/// The limits that options give.
fn limits_in(options: Options) -> Option<Limits>
    ensures { result ≡ limits_in options }
{
    let steps = options.steps.unwrap_or(USUAL_STEPS);
    let goals = options.goals.unwrap_or(USUAL_GOALS);
    let revert = options.revert.unwrap_or(USUAL_REVERT);
    Limits::new(steps, goals, revert)
}

/// What the words behind the options command, where they name books.
fn books_command(options: Options, words: &[String]) -> Option<Command<'_>>
    ensures { option_map shown_command result ≡ books_command options (map string_bytes words.now) }
{
    if options.demo.is_some() {
        return None;
    }
    let limits = limits_in(options)?;
    Some(Command::Certify(Order {
        books: words,
        limits,
        workers: options.workers.unwrap_or(USUAL_WORKERS),
        trace: options.trace,
    }))
}

/// Whether options are none but how many goals are worked at a time, and the demo's.
fn is_bare(options: Options) -> bool
    ensures { result ≡ is_bare options }
{
    options.steps.is_none() && options.goals.is_none() && options.revert.is_none() && !options.trace
}

/// What options command with nothing behind them: the demo, where it is asked for.
fn demo_command<'a>(options: Options) -> Option<Command<'a>>
    ensures { option_map shown_command result ≡ demo_command options }
{
    if !is_bare(options) {
        return None;
    }
    let number = options.demo?;
    let limits = limits_in(options)?;
    Some(Command::Show(Demo {
        number,
        limits,
        workers: options.workers.unwrap_or(USUAL_WORKERS),
    }))
}

/// What the words command behind these options, where those behind all options name books.
fn command_from<'a>(words: &'a [String], options: Options) -> Option<Command<'a>>
    ensures { option_map shown_command result ≡ command_from (map string_bytes words.now) options }
{
    match words {
        [] => demo_command(options),
        [word] => match flag_in(word) {
            None => books_command(options, words),
            Some(_) => None,
        },
        [word, next, rest @ ..] => match flag_in(word) {
            None => books_command(options, words),
            Some(Flag::Trace) => command_from(&words[1..], with_trace(options)?),
            Some(Flag::Number(counted)) => {
                command_from(rest, with_number(options, counted, next)?)
            }
        },
    }
}

/// Whether words name books: 1 to 64 of them, each once.
fn are_books(alloc: Global, words: &[String]) -> Result<bool, NoMemory>
    ensures { IfOk result (λ b. b ≡ are_books (map string_bytes words.now)) }
{
    match plan(alloc, words) {
        Ok(names) => Ok(!names.is_empty()),
        Err(PlanError::NoMemory) => Err(AllocError),
        Err(_) => Ok(false),
    }
}

/// This order, where its words name books.
fn order_in<'a>(alloc: Global, order: Order<'a>) -> Result<Option<Command<'a>>, NoMemory>
    ensures { IfOk result (λ command. option_map shown_command command ≡ where_books (Some (of_books (shown_order order.entry)))) }
{
    if are_books(alloc, order.books)? {
        return Ok(Some(Command::Certify(order)));
    }
    Ok(None)
}

/// What the words command, or `None` where they are no command.
pub(crate) fn command_in(alloc: Global, words: &[String]) -> Result<Option<Command<'_>>, NoMemory>
    ensures { IfOk result (λ command. option_map shown_command command ≡ command_of (map string_bytes words.now)) }
{
    let options = Options {
        workers: None,
        steps: None,
        goals: None,
        revert: None,
        demo: None,
        trace: false,
    };
    match command_from(words, options) {
        Some(Command::Certify(order)) => order_in(alloc, order),
        Some(Command::Show(demo)) => Ok(Some(Command::Show(demo))),
        None => Ok(None),
    }
}
