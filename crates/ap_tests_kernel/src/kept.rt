//! A literal that is rewritten twice with one memo.
ghost use Rattle.std.specs.Prelude.{◌≡◌};
ghost use Rattle.ap_world.specs.World.{function_of};
ghost use Rattle.ap_rules.specs.Index.{IsIndex};
ghost use Rattle.ap_kernel.specs.Standing.{DefinesNot};

use crate::known::first_world;
use ap_eval::is_known;
use ap_kernel::{Ctx, Equiv, NoMemory, Seq, Term, World};
use ap_rewrite::{Memo, literal, literal_kept, memo};
use ap_rules::{RuleIndex, index};
use ap_strategy::Oracles;
use ap_term::Steps;
use ap_tests_terms::term;
use ap_world::Theory;
use std::alloc::{AllocError, Global};
use std::test::Fail;

/// What a literal is rewritten by.
#[derive(Clone, Copy)]
struct By<'a> {
    w: &'a World,
    rules: &'a RuleIndex,
    theory: &'a Theory,
    expand: &'a Seq<Term>,
}

/// The steps that rewriting a term leaves of a thousand, where there is no fact.
fn left_without(alloc: Global, by: By<'_>, t: &Term) -> Result<u32, NoMemory>
    requires ground { DefinesNot (function_of by.w.now.entries) }
    requires index { IsIndex by.rules.now by.w.now.entries }
{
    if !is_known(by.w, t) {
        return Err(AllocError);
    }
    let ctx = Ctx::new(alloc, Seq::new(alloc))?;
    let mut steps = Steps { left: 1000 };
    let _found = literal(
        alloc, by.w, by.rules, by.theory, by.expand, &Oracles, &ctx, &mut steps, t,
    )?;
    Ok(steps.left)
}

/// The same with a memo, a second time.
fn left_with(alloc: Global, by: By<'_>, memo: &mut Memo<'_>, t: &Term) -> Result<u32, NoMemory>
    requires ground { DefinesNot (function_of by.w.now.entries) }
    requires index { IsIndex by.rules.now by.w.now.entries }
    requires world { memo.old.world ≡ by.w.now }
    requires theory { memo.old.theory ≡ by.theory.now }
    requires expand { memo.old.expand ≡ by.expand.now }
    ensures kept { memo.new ≡ memo.old }
{
    if !is_known(by.w, t) {
        return Err(AllocError);
    }
    let ctx = Ctx::new(alloc, Seq::new(alloc))?;
    let mut steps = Steps { left: 1000 };
    let _found = literal_kept(
        memo, alloc, by.w, by.rules, by.theory, by.expand, &Oracles, &ctx, &mut steps, t,
    )?;
    Ok(steps.left)
}

/// The steps that are left without a memo, with a new one, and with the same a second time; and whether something was
/// known the first time, and the second.
fn twice(alloc: Global, text: &str) -> Result<(u32, u32, u32, bool, bool), NoMemory> {
    let w = first_world(alloc)?;
    let rules = index(alloc, &w)?;
    let expand = Seq::new(alloc);
    let by = By {
        w: &w,
        rules: &rules,
        theory: w.theory(),
        expand: &expand,
    };
    let t = term(alloc, text)?;
    let without = left_without(alloc, by, &t)?;
    let mut kept = memo(alloc, &w, w.theory(), &expand)?;
    let once = left_with(alloc, by, &mut kept, &t)?;
    let before = kept.hits;
    let again = left_with(alloc, by, &mut kept, &t)?;
    Ok((without, once, again, before > 0, kept.hits > before))
}

#[test]
fn what_is_known_again_costs_the_same_steps(rt: HostRuntime) -> Result<(), Fail> {
    let found = twice(rt.alloc(), "(equal (cons (car x) y) (cons (car x) z))")?;
    let (without, once, again, _, known) = found;
    assert_eq!(rt; once, without);
    assert_eq!(rt; again, without);
    assert!(rt; known);
    Ok(())
}
