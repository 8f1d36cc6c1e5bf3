// Terms in memory have integers of 128 bits: the type of each says so where it is read.
ghost use Rattle.std.specs.Prelude.{◌≡◌, true, map};
ghost use Rattle.ap_list.specs.Lists.{all_true};
ghost use Rattle.ap_value.specs.Fits.{fits, all_fit};
ghost use Rattle.ap_term.specs.Terms.{term_fits};

use ap_term::{Shape, Term};
use ap_value::Value;

/// An integer has 128 bits. It does nothing.
fn integer_fits(n: i128)
    ensures { fits n ≡ true }
{
    let _ = n;
}

/// Each integer of a value has 128 bits, as is seen where it is read. Takes no memory.
fn value_fits(v: &Value)
    ensures { all_fit v.now ≡ true }
{
    match v {
        Value::Int(n) => integer_fits(*n),
        Value::Chr(_) | Value::Str(_) | Value::Sym(_) => {}
        Value::Cons(first, rest) => {
            value_fits(first.get());
            value_fits(rest.get());
        }
    }
}

/// Each integer of a term has 128 bits, as is seen where it is read. Takes no memory.
#[cycle(fitting)]
#[tactic(auto, using(ap_term::proofs::Seen::trees))]
fn term_fits(t: &Term)
    ensures { term_fits t.now ≡ true }
{
    match &t.shape {
        Shape::Var(_) => {}
        Shape::Quote(v) => value_fits(v),
        Shape::Call(_, xs) => terms_fit(xs.as_slice()),
    }
}

/// Each integer of terms has 128 bits. So of two different ones one comes before the other. Takes no memory.
#[cycle(fitting)]
pub(crate) fn terms_fit(terms: &[Term])
    ensures { all_true (map term_fits terms.now) ≡ true }
{
    for t in terms {
        term_fits(t);
    }
}
