ghost use Rattle.std.specs.Prelude.{◌≡◌, [], ◌∷◌, IfOk, map};
ghost use Rattle.ap_kernel.specs.declared.reductions.Reduction.{Reduction};
ghost use Rattle.ap_list.specs.Lists.{Each};
ghost use Rattle.ap_world.specs.World.{function_of};
ghost use Rattle.ap_kernel.specs.Reductions.{Reduces, claims, all_from, all_to, chained};

use crate::derivations::{Derivation, Row};
use crate::reductions::Reduction;
use ap_list::{NoMemory, Seq, Shared};
use ap_term::Clause;
use ap_world::World;
use std::alloc::Global;

/// What is gathered of reductions: how they were made, and the clauses to which they lead, in order.
#[derive(Drop)]
struct Gains {
    whys: Seq<Shared<Derivation>>,
    goals: Seq<Clause>,
}

/// How one reduction and those of its clauses were made, in order, and the clauses of these. All is moved.
fn gathered(
    alloc: Global,
    first: Shared<Derivation>,
    list: Seq<Reduction>,
) -> Result<Gains, NoMemory>
    ensures whys { IfOk result (λ g. g.whys ≡ first ∷ map (λ (r : Reduction). r.why) list) }
    ensures goals { IfOk result (λ g. g.goals ≡ all_to (claims list)) }
{
    let mut whys = Seq::with_capacity(alloc, list.len().saturating_add(1))?;
    whys.push(first)?;
    let mut goals = Seq::new(alloc);
    for r in list.into_vec() {
        let (says, why) = r.into_made();
        whys.push(why)?;
        goals.append(says.to)?;
    }
    Ok(Gains { whys, goals })
}

/// From a clause to the clauses that those it is reduced to are reduced to in their turn, in their order.
/// There is one reduction from each. It copies nothing.
pub fn chain(
    alloc: Global,
    w: &World,
    a: Reduction,
    b: Seq<Reduction>,
) -> Result<Reduction, NoMemory>
    requires first { Reduces w.now a }
    requires rest { Each (Reduces w.now) b }
    requires goals { all_from (claims b) ≡ a.says.to }
    ensures stands { IfOk result (λ r. Reduces w.now r) }
    ensures made { IfOk result (λ r. r.says ≡ chained a.says (claims b)) }
{
    w.recall_sound();
    let (says, first) = a.into_made();
    let Gains { whys, goals } = gathered(alloc, first, b)?;
    let why = Derivation::of_list(alloc, Row::Chain, whys)?;
    Ok(Reduction::made(says.from, goals, why))
}

/// From a clause to what the one clause that it is reduced to is reduced to in its turn. It copies nothing.
pub fn then(
    alloc: Global,
    w: &World,
    first: Reduction,
    next: Reduction,
) -> Result<Reduction, NoMemory>
    requires first { Reduces w.now first }
    requires next { Reduces w.now next }
    requires one { first.says.to ≡ next.says.from ∷ [] }
    ensures stands { IfOk result (λ r. Reduces w.now r) }
    ensures made { IfOk result (λ r. r.says ≡ record { from = first.says.from; to = next.says.to }) }
{
    w.recall_sound();
    let (says, why) = first.into_made();
    let (then, second) = next.into_made();
    let why = Derivation::of_two(alloc, Row::Chain, why, second)?;
    Ok(Reduction::made(says.from, then.to, why))
}
