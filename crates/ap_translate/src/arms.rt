ghost use Rattle.std.specs.Prelude.{◌≡◌, ◌+◌, ◌≤◌, ◌<◌, ◌∷◌, ◌++◌, [], IfOk, IfSome, IfNone};
ghost use Rattle.ap_translate.specs.Kept.{arm_size, arm_alone, arm_pair, list_arms, AreArms, armed, arms_before, kept_arms};
ghost use Rattle.ap_translate.specs.Sizes.{few_by, more_by};

use crate::build::{if_term, or_term};
use crate::sizes::{more_nodes, small};
use ap_list::{NoMemory, Seq};
use ap_term::Term;
use std::alloc::Global;

/// A clause of `cond`: its test, and its value if it has one.
#[derive(Drop)]
pub struct Arm {
    pub test: Term,
    pub value: Option<Term>,
}

/// Clauses, and the number of their terms' nodes.
#[derive(Drop)]
pub(crate) struct Arms {
    pub(crate) arms: Seq<Arm>,
    pub(crate) nodes: u64,
}

/// No clauses.
pub(crate) fn no_arms(alloc: Global) -> Arms
    ensures none { result.arms ≡ [] }
    ensures counted { AreArms result }
{
    Arms {
        arms: Seq::new(alloc),
        nodes: 0,
    }
}

/// The clause `(a)`.
pub(crate) fn alone(test: Option<Term>) -> Option<Arm>
    ensures { result ≡ arm_alone test }
{
    match test {
        Some(test) => Some(Arm { test, value: None }),
        None => None,
    }
}

/// The clause `(a b)`.
pub(crate) fn pair(test: Option<Term>, value: Option<Term>) -> Option<Arm>
    ensures { result ≡ arm_pair test value }
{
    match (test, value) {
        (Some(test), Some(value)) => Some(Arm {
            test,
            value: Some(value),
        }),
        _ => None,
    }
}

/// The number of a clause's nodes and so many more, where they are at most 4,096.
fn more_arm_nodes(nodes: u64, arm: &Arm) -> Option<u64>
    requires { nodes ≤ 4096 }
    ensures some { IfSome result (λ n. n ≡ nodes + arm_size arm.now) }
    ensures low { IfSome result (λ n. n ≤ 4096) }
    ensures past { IfNone result (4096 < nodes + arm_size arm.now) }
{
    let tested = more_nodes(nodes, &arm.test)?;
    match &arm.value {
        Some(value) => more_nodes(tested, value),
        None => Some(tested),
    }
}

/// One clause more, where their terms have at most 4,096 nodes together.
pub(crate) fn add_arm(all: Option<Arms>, next: Option<Arm>) -> Result<Option<Arms>, NoMemory>
    requires { IfSome all AreArms }
    ensures value { IfOk result (λ o. list_arms o ≡ more_by arm_size (list_arms all) next) }
    ensures counted { IfOk result (λ o. IfSome o AreArms) }
{
    let (Some(all), Some(next)) = (all, next) else {
        return Ok(None);
    };
    push_arm(all, next)
}

/// One clause more, where their terms have at most 4,096 nodes together.
fn push_arm(all: Arms, next: Arm) -> Result<Option<Arms>, NoMemory>
    requires { AreArms all }
    ensures value { IfOk result (λ o. list_arms o ≡ few_by arm_size (all.arms ++ next ∷ [])) }
    ensures counted { IfOk result (λ o. IfSome o AreArms) }
{
    let Arms { mut arms, nodes } = all;
    match more_arm_nodes(nodes, &next) {
        None => Ok(None),
        Some(nodes) => {
            arms.push(next)?;
            Ok(Some(Arms { arms, nodes }))
        }
    }
}

/// One clause before the term of the rest.
fn armed(alloc: Global, arm: Arm, rest: Term) -> Result<Term, NoMemory>
    ensures { IfOk result (λ u. u ≡ armed arm rest) }
{
    let Arm { test, value } = arm;
    match value {
        None => or_term(alloc, test, rest),
        Some(value) => if_term(alloc, test, value, rest),
    }
}

/// Clauses before a last term.
#[tactic(auto, using(crate::proofs::Chains::arms_last))]
fn arms_before(alloc: Global, arms: Seq<Arm>, last: Term) -> Result<Term, NoMemory>
    ensures { IfOk result (λ u. u ≡ arms_before arms last) }
{
    let mut left = arms;
    let mut chain = last;
    while let Some(arm) = left.pop() {
        chain = armed(alloc, arm, chain)?;
    }
    Ok(chain)
}

/// Clauses before a last term, where the whole has at most 4,096 nodes.
pub(crate) fn arms_built(
    alloc: Global,
    all: Option<Arms>,
    last: Option<Term>,
) -> Result<Option<Term>, NoMemory>
    ensures { IfOk result (λ o. o ≡ kept_arms (list_arms all) last) }
{
    let (Some(all), Some(last)) = (all, last) else {
        return Ok(None);
    };
    let term = arms_before(alloc, all.arms, last)?;
    Ok(small(term))
}
