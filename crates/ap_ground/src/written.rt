//! Terms as the table of the ground world writes them.
ghost use Rattle.std.specs.Prelude.{◌≡◌, [], ◌∷◌, IfOk, OnOk, map, reverse};
ghost use Rattle.ap_value.specs.Values.{acl2};
ghost use Rattle.ap_ground.specs.Written.{first_of, after_first, with_word, terms_of, term_of};

use ap_list::{NoMemory, Seq};
use ap_term::Term;
use ap_value::{Symbol, Value, acl2};
use std::alloc::Global;

/// A word of a written term: Lisp without its parentheses, each head with the number of its arguments.
#[derive(Clone, Copy, Debug)]
pub(crate) enum Word {
    Var(&'static [u8]),
    Int(i128),
    Sym(&'static [u8]),
    One(&'static [u8]),
    Two(&'static [u8]),
    Three(&'static [u8]),
}

/// The symbol of package `ACL2` with this name.
pub(crate) fn symbol(alloc: Global, name: &[u8]) -> Result<Symbol, NoMemory>
    ensures { IfOk result (λ s. s ≡ acl2 name.now) }
{
    acl2(alloc, name)
}

/// The symbols of these names.
pub(crate) fn symbols(alloc: Global, names: &[&'static [u8]]) -> Result<Seq<Symbol>, NoMemory>
    ensures { IfOk result (λ ss. ss ≡ map (λ n. acl2 n.now) names.now) }
{
    let mut out = Seq::with_capacity(alloc, names.len())?;
    for name in names {
        out.push(symbol(alloc, name)?)?;
    }
    Ok(out)
}

/// Takes the last term, or 0 where there is none.
fn take(stack: &mut Seq<Term>) -> Term
    ensures first { result ≡ first_of (reverse stack.old) }
    ensures rest { reverse stack.new ≡ after_first (reverse stack.old) }
{
    match stack.pop() {
        Some(term) => term,
        None => Term::quote(Value::Int(0)),
    }
}

/// The term that a word makes of those that are written after it, the last one first.
fn made(alloc: Global, stack: &mut Seq<Term>, word: &Word) -> Result<Term, NoMemory>
    ensures { IfOk result (λ u. u ∷ reverse stack.new ≡ with_word word.now (reverse stack.old)) }
{
    match word {
        Word::Var(name) => Ok(Term::var(symbol(alloc, name)?)),
        Word::Int(n) => Ok(Term::quote(Value::Int(*n))),
        Word::Sym(name) => Ok(Term::quote(Value::Sym(symbol(alloc, name)?))),
        Word::One(head) => {
            let mut arguments = Seq::with_capacity(alloc, 1)?;
            arguments.push(take(stack))?;
            Term::call(alloc, symbol(alloc, head)?, arguments)
        }
        Word::Two(head) => {
            let mut arguments = Seq::with_capacity(alloc, 2)?;
            arguments.push(take(stack))?;
            arguments.push(take(stack))?;
            Term::call(alloc, symbol(alloc, head)?, arguments)
        }
        Word::Three(head) => {
            let mut arguments = Seq::with_capacity(alloc, 3)?;
            arguments.push(take(stack))?;
            arguments.push(take(stack))?;
            arguments.push(take(stack))?;
            Term::call(alloc, symbol(alloc, head)?, arguments)
        }
    }
}

/// The term that the words write.
pub(crate) fn term(alloc: Global, words: &[Word]) -> Result<Term, NoMemory>
    ensures { IfOk result (λ u. u ≡ term_of words.now) }
{
    let mut stack = Seq::new(alloc);
    let mut place = words.len();
    while place > 0 {
        place -= 1;
        let term = made(alloc, &mut stack, &words[place])?;
        stack.push(term)?;
    }
    Ok(take(&mut stack))
}

/// The terms that the lists of words write.
pub(crate) fn terms(alloc: Global, list: &[&[Word]]) -> Result<Seq<Term>, NoMemory>
    ensures { IfOk result (λ us. us ≡ map (λ ws. term_of ws.now) list.now) }
{
    let mut out = Seq::with_capacity(alloc, list.len())?;
    for words in list {
        out.push(term(alloc, words)?)?;
    }
    Ok(out)
}
