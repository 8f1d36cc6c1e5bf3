ghost use Rattle.std.specs.Prelude.{◌≡◌, ◌↔◌, IsTrue, IfOk};
ghost use Rattle.ap_world.specs.Holding.{part_of};
ghost use Rattle.ap_kernel.specs.Applying.{LeadsToTrue, AllLead, PartRelieved};

use crate::applying::has_part;
use crate::objects::{Ctx, Equiv};
use crate::parts::hypotheses;
use ap_list::NoMemory;
use ap_term::{Subst, Term, same_term, subst};
use ap_value::Symbol;
use ap_world::{World, t_term};
use std::alloc::Global;

/// Whether two lists of facts are one. Takes no memory.
fn same_facts(a: &[(Term, bool)], b: &[(Term, bool)]) -> bool
    ensures { IsTrue result ↔ (a.now ≡ b.now) }
{
    if a.len() != b.len() {
        return false;
    }
    for i in 0..a.len() {
        if a[i].1 != b[i].1 || !same_term(&a[i].0, &b[i].0) {
            return false;
        }
    }
    true
}

/// Whether an equivalence leads under these facts from the instance of a hypothesis to `'T`.
fn leads_to_true(alloc: Global, ctx: &Ctx, s: &Subst, h: &Term, q: &Equiv) -> Result<bool, NoMemory>
    ensures { IfOk result (λ b. IsTrue b ↔ LeadsToTrue ctx.now s.now.0 h.now q.now.says) }
{
    let instance = subst(alloc, h, s)?;
    let truth = t_term();
    let facts = same_facts(q.ctx().facts(), ctx.facts());
    let left = same_term(q.lhs(), &instance);
    let right = same_term(q.rhs(), &truth);
    Ok(facts && left && right)
}

/// Whether there is one equivalence for each hypothesis, in order, that leads to `'T`.
fn all_lead(
    alloc: Global,
    ctx: &Ctx,
    s: &Subst,
    hs: &[Term],
    qs: &[Equiv],
) -> Result<bool, NoMemory>
    ensures { IfOk result (λ b. IsTrue b ↔ AllLead ctx.now s.now.0 hs.now qs.now) }
{
    let mut left = hs;
    let mut shown = qs;
    while let [h, rest @ ..] = left {
        let [q, more @ ..] = shown else {
            return Ok(false);
        };
        if !leads_to_true(alloc, ctx, s, h, q)? {
            return Ok(false);
        }
        left = rest;
        shown = more;
    }
    Ok(shown.is_empty())
}

/// Whether equivalences are those that [`apply_theorem`](crate::apply_theorem) asks for: the world has a theorem
/// of this name that has this part, and they lead under these facts from the instance of each hypothesis to `'T`,
/// one for each, in order.
pub fn are_relieved(
    alloc: Global,
    w: &World,
    ctx: &Ctx,
    name: &Symbol,
    part: u32,
    s: &Subst,
    hyps: &[Equiv],
) -> Result<bool, NoMemory>
    ensures { IfOk result (λ b. IsTrue b ↔ PartRelieved ctx.now s.now.0 (part_of w.now.entries name.now part) hyps.now) }
{
    if !has_part(w, name, part) {
        return Ok(false);
    }
    let Some(theorem) = w.lookup_thm(name) else {
        return Ok(false);
    };
    let asked = hypotheses(alloc, &theorem.term)?;
    all_lead(alloc, ctx, s, asked.as_slice(), hyps)
}
