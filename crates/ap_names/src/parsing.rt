ghost use Rattle.std.specs.Prelude.{◌≡◌, ℕ, ◌^◌, ◌<◌, ◌≤◌, ◌↔◌, List, [], ◌∷◌, ◌++◌, Option, Some, None, codes, decimal, length, take, drop, map, IsTrue, IfOk, MatchOption};
ghost use Rattle.std.specs.Str.{str_to_ascii_lowercase};
ghost use Rattle.ap_list.specs.Lists.{Each};
ghost use Rattle.ap_names.specs.Names.{IsCount};
ghost use Rattle.ap_names.specs.Printed.{primes_text, IsReading};
ghost use Rattle.ap_names.specs.Reading.{name_of};
ghost use Rattle.ap_names.specs.Reads.{IsDigit, EndsNumber, IsWhole, IsNumberHead, HasNoNumber, IsNumbersHead, HasNoNumbers, AddsDotted, HasNoDotted, BeginsWithout, BeginsOtherwise, IsAfter, IsReadingAfter};

use crate::name::GoalName;
use crate::reading::printing_has_one_reading;
use ap_list::{NoMemory, Seq};
use std::alloc::Global;
use std::str;

/// The digits that a text begins with, and the text after them.
fn split_digits(text: &[u8]) -> (&[u8], &[u8])
    ensures all { text.now ≡ result.0.now ++ result.1.now }
    ensures digits { Each IsDigit result.0.now }
    ensures ends { EndsNumber result.1.now }
{
    let mut count = 0;
    while count < text.len() {
        if text[count] < b'0' || text[count] > b'9' {
            return text.split_at(count);
        }
        count += 1;
    }
    text.split_at(count)
}

/// The number that a whole text is in decimal.
fn count_of(text: &[u8]) -> Option<u32>
    ensures { IsWhole IsCount decimal text.now result }
{
    let (first, _) = text.split_first()?;
    if *first < b'1' || *first > b'9' {
        return None;
    }
    let Ok(digits) = str::from_utf8(text) else {
        return None;
    };
    digits.parse().ok()
}

/// The number that a text begins with, and the text after it.
fn number(text: &[u8]) -> Option<(u32, &[u8])>
    ensures { MatchOption result (HasNoNumber text.now) (λ p. IsNumberHead text.now p.0 p.1.now) }
{
    let (digits, rest) = split_digits(text);
    let count = count_of(digits)?;
    Some((count, rest))
}

/// The text after its first byte, where that is `byte`.
fn after_byte(text: &[u8], byte: u8) -> Option<&[u8]>
    ensures { MatchOption result (BeginsWithout byte text.now) (λ rest. text.now ≡ byte ∷ rest.now) }
{
    match text.split_first() {
        Some((first, rest)) if *first == byte => Some(rest),
        _ => None,
    }
}

/// The text after its first bytes, where those are `front`, the case of letters aside.
fn after<'a>(text: &'a [u8], front: &[u8]) -> Option<&'a [u8]>
    ensures { MatchOption result (BeginsOtherwise front.now text.now) (λ rest. IsAfter front.now text.now rest.now) }
{
    let (head, rest) = text.split_at_checked(front.len())?;
    if head.eq_ignore_ascii_case(front) {
        Some(rest)
    } else {
        None
    }
}

/// Adds the numbers that a text begins with, each after a dot, and gives the text after them.
fn with_dotted<'a>(
    mut numbers: Seq<u32>,
    text: &'a [u8],
) -> Result<Option<(Seq<u32>, &'a [u8])>, NoMemory>
    ensures { IfOk result (λ o. MatchOption o (HasNoDotted text.now) (λ p. AddsDotted numbers text.now p.0 p.1.now)) }
{
    let mut rest = text;
    loop {
        let Some(dotted) = after_byte(rest, b'.') else {
            return Ok(Some((numbers, rest)));
        };
        let Some((count, left)) = number(dotted) else {
            return Ok(None);
        };
        numbers.push(count)?;
        rest = left;
    }
}

/// The numbers that a text begins with, with dots between them, and the text after them.
fn numbers<'a>(alloc: Global, text: &'a [u8]) -> Result<Option<(Seq<u32>, &'a [u8])>, NoMemory>
    ensures { IfOk result (λ o. MatchOption o (HasNoNumbers text.now) (λ p. IsNumbersHead text.now p.0 p.1.now)) }
{
    let Some((first, rest)) = number(text) else {
        return Ok(None);
    };
    let mut numbers = Seq::new(alloc);
    numbers.push(first)?;
    with_dotted(numbers, rest)
}

/// The number of primes, where it stands between two of them.
fn counted_primes(text: &[u8]) -> Option<u32>
    ensures { IsWhole (λ n. (4 ≤ n) × (n < 2 ^ 32)) (λ n. codes "'" ++ decimal n ++ codes "'") text.now result }
{
    let counted = after_byte(text, b'\'')?;
    let (count, rest) = number(counted)?;
    if count >= 4 && rest == b"'".as_slice() {
        Some(count)
    } else {
        None
    }
}

/// Whether two texts are one.
fn is_same(text: &[u8], other: &[u8]) -> bool
    ensures { IsTrue result ↔ (text.now ≡ other.now) }
{
    text == other
}

/// The number of primes that a whole text is.
fn primes(text: &[u8]) -> Option<u32>
    ensures { IsWhole (λ n. n < 2 ^ 32) primes_text text.now result }
{
    let len = text.len();
    if len < 4 && is_same(text, &b"'''"[..len]) {
        return Some(len as u32);
    }
    counted_primes(text)
}

/// The name of the root by what stands after `Goal`.
fn root_name(alloc: Global, text: &[u8]) -> Option<GoalName>
    ensures { IsReadingAfter (codes "goal") text.now result }
{
    let primes = primes(text)?;
    Some(GoalName {
        induction: Seq::new(alloc),
        case: None,
        path: Seq::new(alloc),
        primes,
    })
}

/// The name of a pushed goal by what stands after the star.
fn pushed_name(alloc: Global, text: &[u8]) -> Result<Option<GoalName>, NoMemory>
    ensures { IfOk result (λ o. IsReadingAfter (codes "*") text.now o) }
{
    let Some((induction, rest)) = numbers(alloc, text)? else {
        return Ok(None);
    };
    if !rest.is_empty() {
        return Ok(None);
    }
    Ok(Some(GoalName {
        induction,
        case: None,
        path: Seq::new(alloc),
        primes: 0,
    }))
}

/// The name of a subgoal under no induction by what stands after `Subgoal` and a blank.
fn placed_name(alloc: Global, text: &[u8]) -> Result<Option<GoalName>, NoMemory>
    requires { BeginsWithout 42 text.now }
    ensures { IfOk result (λ o. IsReadingAfter (codes "subgoal ") text.now o) }
{
    let Some((path, rest)) = numbers(alloc, text)? else {
        return Ok(None);
    };
    let Some(primes) = primes(rest) else {
        return Ok(None);
    };
    Ok(Some(GoalName {
        induction: Seq::new(alloc),
        case: None,
        path,
        primes,
    }))
}

/// The name of a goal under an induction by what stands after the star.
fn case_name(alloc: Global, text: &[u8]) -> Result<Option<GoalName>, NoMemory>
    ensures { IfOk result (λ o. IsReadingAfter (codes "subgoal *") text.now o) }
{
    let Some((induction, under)) = numbers(alloc, text)? else {
        return Ok(None);
    };
    let Some(cased) = after_byte(under, b'/') else {
        return Ok(None);
    };
    let Some((case, placed)) = number(cased) else {
        return Ok(None);
    };
    let Some((path, rest)) = with_dotted(Seq::new(alloc), placed)? else {
        return Ok(None);
    };
    let Some(primes) = primes(rest) else {
        return Ok(None);
    };
    Ok(Some(GoalName {
        induction,
        case: Some(case),
        path,
        primes,
    }))
}

/// The name of a subgoal by what stands after `Subgoal` and a blank.
fn subgoal_name(alloc: Global, text: &[u8]) -> Result<Option<GoalName>, NoMemory>
    ensures { IfOk result (λ o. IsReadingAfter (codes "subgoal ") text.now o) }
{
    match after_byte(text, b'*') {
        Some(rest) => case_name(alloc, rest),
        None => placed_name(alloc, text),
    }
}

/// The name by its front.
fn read(alloc: Global, text: &[u8]) -> Result<Option<GoalName>, NoMemory>
    ensures { IfOk result (λ o. IsReading text.now o) }
{
    if let Some(rest) = after(text, b"*") {
        return pushed_name(alloc, rest);
    }
    if let Some(rest) = after(text, b"subgoal ") {
        return subgoal_name(alloc, rest);
    }
    match after(text, b"goal") {
        Some(rest) => Ok(root_name(alloc, rest)),
        None => Ok(None),
    }
}

/// The name that prints as a text, the case of letters aside, and `None` exactly where no name does.
/// Takes no more memory than the name. See the manual's topic `goal-spec`.
pub fn parse(alloc: Global, text: &[u8]) -> Result<Option<GoalName>, NoMemory>
    ensures is { IfOk result (λ o. o ≡ name_of text.now) }
    ensures reads { IfOk result (λ o. IsReading text.now o) }
{
    printing_has_one_reading();
    let name = read(alloc, text)?;
    Ok(name)
}
