ghost use Rattle.std.specs.Prelude.{◌≡◌, ◌≤◌, ◌^◌, IfOk, Some};
ghost use Rattle.ap_elim.specs.Naming.{vars_of, numbered, first_new, new_name};

use ap_kernel::{not_symbol, occurs_in};
use ap_list::{Bytes, NoMemory, Seq, Text};
use ap_term::{Term, copy_terms, vars};
use ap_value::Symbol;
use itoa::Buffer;
use std::alloc::{AllocError, Global};

/// The variables of some literals, each once, in order of first occurrence: those of a call on them.
#[tactic(auto, using(ap_world::proofs::Written::vars_call))]
pub fn vars_of(alloc: Global, literals: &[Term]) -> Result<Seq<Symbol>, NoMemory>
    ensures { IfOk result (λ xs. xs ≡ vars_of literals.now) }
{
    let whole = Term::call(alloc, not_symbol(), copy_terms(alloc, literals)?)?;
    vars(alloc, &whole)
}

/// A stem and a number.
fn numbered(alloc: Global, stem: &[u8], number: u64) -> Result<Symbol, NoMemory>
    ensures { IfOk result (λ s. s ≡ numbered stem.now number) }
{
    let mut name = Bytes::from_slice(alloc, stem)?;
    let mut buffer = Buffer::new();
    name.extend(buffer.format(number).as_bytes())?;
    let name = Text::new(alloc, name)?;
    Ok(Symbol {
        keyword: false,
        name,
    })
}

/// The stem with the least number from 1 that makes it new, among so many numbers.
fn first_new(
    alloc: Global,
    stem: &[u8],
    literals: &[Term],
    limit: u64,
) -> Result<Option<Symbol>, NoMemory>
    requires { limit ≤ 2 ^ 63 }
    ensures { IfOk result (λ o. o ≡ first_new stem.now literals.now limit 1) }
{
    let mut number: u64 = 1;
    let mut left = limit;
    while left > 0 {
        let name = numbered(alloc, stem, number)?;
        if !occurs_in(&name, literals) {
            return Ok(Some(name));
        }
        number += 1;
        left -= 1;
    }
    Ok(None)
}

/// A stem with the least number from 1 that makes it a variable which is in none of some literals. The only
/// error is want of memory, which is also the answer where 2^63 variables occur.
pub fn new_name(alloc: Global, stem: &[u8], literals: &[Term]) -> Result<Symbol, NoMemory>
    ensures { IfOk result (λ a. new_name stem.now literals.now ≡ Some a) }
{
    let count = vars_of(alloc, literals)?.len() as u64;
    if count >= 1 << 63 {
        return Err(AllocError);
    }
    match first_new(alloc, stem, literals, count + 1)? {
        Some(name) => Ok(name),
        None => unreachable!(),
    }
}
