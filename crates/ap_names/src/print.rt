ghost use Rattle.std.specs.Prelude.{◌≡◌, ◌++◌, decimal, OnOk};
ghost use Rattle.ap_names.specs.Printed.{dotted, primes_text, place_text, induction_text};

use ap_list::{Bytes, NoMemory};
use itoa::Buffer;

/// Adds a number in decimal.
fn put_number(text: &mut Bytes, n: u32) -> Result<(), NoMemory>
    ensures { OnOk result (text.new ≡ text.old ++ decimal n) }
{
    let mut buffer = Buffer::new();
    text.extend(buffer.format(n).as_bytes())
}

/// Adds numbers in decimal, each after a dot.
fn put_dotted(text: &mut Bytes, numbers: &[u32]) -> Result<(), NoMemory>
    ensures { OnOk result (text.new ≡ text.old ++ dotted numbers.now) }
{
    for number in numbers {
        text.extend(b".")?;
        put_number(text, *number)?;
    }
    Ok(())
}

/// Adds the primes: up to three as themselves, more as their number between two.
#[tactic(auto, unfolding(crate::specs::Printed::primes_text))]
pub fn put_primes(text: &mut Bytes, primes: u32) -> Result<(), NoMemory>
    ensures { OnOk result (text.new ≡ text.old ++ primes_text primes) }
{
    if primes < 4 {
        for _ in 0..primes {
            text.push(b'\'')?;
        }
        return Ok(());
    }
    text.extend(b"'")?;
    put_number(text, primes)?;
    text.extend(b"'")
}

/// Adds the name of the root, or of a subgoal of it, without primes.
#[tactic(auto, unfolding(crate::specs::Printed::place_text))]
pub fn put_place(text: &mut Bytes, path: &[u32]) -> Result<(), NoMemory>
    ensures { OnOk result (text.new ≡ text.old ++ place_text path.now) }
{
    let Some((first, rest)) = path.split_first() else {
        return text.extend(b"Goal");
    };
    text.extend(b"Subgoal ")?;
    put_number(text, *first)?;
    put_dotted(text, rest)
}

/// Adds the name of a pushed goal, or of a goal under its induction, without primes.
#[tactic(auto, unfolding(crate::specs::Printed::induction_text))]
pub fn put_induction(
    text: &mut Bytes,
    first: u32,
    rest: &[u32],
    case: Option<u32>,
    path: &[u32],
) -> Result<(), NoMemory>
    ensures { OnOk result (text.new ≡ text.old ++ induction_text first rest.now case path.now) }
{
    let Some(case) = case else {
        text.extend(b"*")?;
        put_number(text, first)?;
        return put_dotted(text, rest);
    };
    text.extend(b"Subgoal *")?;
    put_number(text, first)?;
    put_dotted(text, rest)?;
    text.extend(b"/")?;
    put_number(text, case)?;
    put_dotted(text, path)
}
