ghost use Rattle.std.specs.Prelude.{◌≡◌, ◌∷◌, [], ◌++◌, IfOk, OnOk, map};
ghost use Rattle.ap_clausify.specs.Places.{first_in, first_place, found};

use ap_kernel::is_if;
use ap_list::{NoMemory, Seq};
use ap_term::{Shape, Term};
use std::alloc::AllocError;

/// Where an `if` stands in a clause: the place of its literal, and the places of arguments in that, the
/// outermost first.
#[derive(Debug, Drop)]
pub(crate) struct Place {
    pub literal: usize,
    pub at: Seq<u32>,
}

// The room with which a search begins.
pub(crate) const USUAL_DEPTH: usize = 16;

/// Adds the place of an argument. Where it doesn't fit 32 bits, the call doesn't fit the memory.
fn push_place(at: &mut Seq<u32>, place: usize) -> Result<(), NoMemory>
    ensures { OnOk result (at.new ≡ at.old ++ place ∷ []) }
{
    match u32::try_from(place) {
        Ok(place) => at.push(place),
        Err(_) => Err(AllocError),
    }
}

/// Whether a term has an `if`; the place of the first one whose test has none is then added.
#[cycle(finding)]
#[tactic(auto, using(ap_term::proofs::Seen::trees, crate::proofs::Placed::placing))]
pub(crate) fn find(t: &Term, at: &mut Seq<u32>) -> Result<bool, NoMemory>
    ensures { IfOk result (λ b. (b, at.new) ≡ found at.old (first_place t.now)) }
{
    match &t.shape {
        Shape::Call(f, ts) => match (is_if(f), ts.as_slice()) {
            (true, [test, _, _]) => {
                push_place(at, 0)?;
                if !find(test, at)? {
                    at.pop();
                }
                Ok(true)
            }
            _ => find_among(ts.as_slice(), at),
        },
        Shape::Var(_) => Ok(false),
        Shape::Quote(_) => Ok(false),
    }
}

/// The same of arguments, in their order.
#[cycle(finding)]
fn find_among(ts: &[Term], at: &mut Seq<u32>) -> Result<bool, NoMemory>
    ensures { IfOk result (λ b. (b, at.new) ≡ found at.old (first_in 0 (map first_place ts.now))) }
{
    for (place, t) in ts.iter().enumerate() {
        push_place(at, place)?;
        if find(t, at)? {
            return Ok(true);
        }
        at.pop();
    }
    Ok(false)
}
