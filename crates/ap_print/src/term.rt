ghost use Rattle.std.specs.Prelude.{◌≡◌, ◌++◌, OnOk, IfOk, map};
ghost use Rattle.ap_term.specs.Printed.{spaced, list_text, quote_text, term_text, clause_text};

use crate::atom::put_symbol;
use crate::value::put_value;
use ap_term::{Bytes, Clause, NoMemory, Seq, Shape, Term};
use std::alloc::Global;

#[cycle(terms)]
#[tactic(auto, using(ap_term::proofs::Seen::trees), unfolding(ap_term::specs::Printed::quote_text, ap_term::specs::Printed::list_text))]
fn put_term(text: &mut Bytes, t: &Term) -> Result<(), NoMemory>
    ensures { OnOk result (text.new ≡ text.old ++ term_text t.now) }
{
    match &t.shape {
        Shape::Var(x) => put_symbol(text, x),
        Shape::Quote(v) => {
            text.extend(b"'")?;
            put_value(text, v)
        }
        Shape::Call(f, xs) => {
            text.extend(b"(")?;
            put_symbol(text, f)?;
            put_terms(text, xs.as_slice())?;
            text.extend(b")")
        }
    }
}

/// Adds terms, each after a space.
#[cycle(terms)]
fn put_terms(text: &mut Bytes, xs: &[Term]) -> Result<(), NoMemory>
    ensures { OnOk result (text.new ≡ text.old ++ spaced (map term_text xs.now)) }
{
    for x in xs {
        text.extend(b" ")?;
        put_term(text, x)?;
    }
    Ok(())
}

/// The printed bytes of a term in translated form: a variable by its name, a constant behind a quote
/// mark, a call as a list with one space between its parts.
pub fn print_term(alloc: Global, t: &Term) -> Result<Bytes, NoMemory>
    ensures { IfOk result (λ text. text ≡ term_text t.now) }
{
    let mut text = Seq::new(alloc);
    put_term(&mut text, t)?;
    Ok(text)
}

#[tactic(auto, unfolding(ap_term::specs::Printed::clause_text, ap_term::specs::Printed::list_text))]
fn put_literals(text: &mut Bytes, literals: &[Term]) -> Result<(), NoMemory>
    ensures { OnOk result (text.new ≡ text.old ++ clause_text (map term_text literals.now)) }
{
    match literals {
        [] => text.extend(b"NIL"),
        [literal] => put_term(text, literal),
        _ => {
            text.extend(b"(OR")?;
            put_terms(text, literals)?;
            text.extend(b")")
        }
    }
}

/// The printed bytes of a clause: `NIL` where it is empty, its literal where it has one, else the call of
/// `OR` on its literals.
pub fn print_clause(alloc: Global, c: &Clause) -> Result<Bytes, NoMemory>
    ensures { IfOk result (λ text. text ≡ clause_text (map term_text c.now.0)) }
{
    let mut text = Seq::new(alloc);
    put_literals(&mut text, c.0.as_slice())?;
    Ok(text)
}
