ghost use Rattle.std.specs.Prelude.{◌≡◌, IsTrue, IfOk, IfSome};
ghost use Rattle.ap_world.specs.Facts.{KnownFacts};
ghost use Rattle.ap_world.specs.Sound.{known};
ghost use Rattle.ap_rewrite.specs.Answering.{defs_in, where_applied, inner_of, seen_at, got, From, Here, IsLevel};

use crate::memos::Memo;
use ap_kernel::{Ctx, Equiv, Mode, NoMemory, Seq, Symbol, Term, TypeOracle, World};
use ap_rules::RuleIndex;
use ap_world::Theory;
use std::alloc::Global;

/// What stays the same while a clause is rewritten: the world, its rules by their heads, the theory that says
/// which of them, and which definitions, may be used, the calls that are to be opened, and what tells types.
#[derive_where(Clone, Copy)]
pub struct Rewriter<'a, O> {
    pub alloc: Global,
    pub w: &'a World,
    pub rules: &'a RuleIndex,
    pub theory: &'a Theory,
    pub expand: &'a Seq<Term>,
    pub oracle: &'a O,
}

/// Where a term stands: the facts in force, the functions that aren't opened, and the number of hypotheses that
/// are being relieved around it.
#[derive(Clone, Copy)]
pub struct Place<'a> {
    pub ctx: &'a Ctx,
    pub closed: &'a [Symbol],
    pub chain: u32,
}

/// What changes while a clause is rewritten: the steps that are left, and what is known so far of what terms became.
pub struct Run<'m> {
    pub left: u32,
    pub memo: Memo<'m>,
}

/// What something that may not apply came to.
#[derive(Drop)]
pub enum Tried<T> {
    /// It applied, and this is what it gave.
    Applied(T),
    /// It doesn't apply.
    PassedBy,
}

/// It applied where something was found. Takes no memory.
pub(crate) fn from_found<T>(found: Option<T>) -> Tried<T>
    ensures { where_applied result ≡ found }
{
    match found {
        Some(it) => Tried::Applied(it),
        None => Tried::PassedBy,
    }
}

/// What rewrites a term one level deeper. `None` where the steps run out.
pub trait Below {
    ghost use denote.Ref.{Bor, MutBor};
    ghost use Rattle.std.specs.Prelude.{Option, Result};
    ghost use Rattle.std.specs.declared.alloc.AllocError.{AllocError};
    ghost use Rattle.ap_rewrite.specs.declared.rewriter.Run.{Run};
    ghost use Rattle.ap_term.specs.declared.term.Term.{Term};
    ghost use Rattle.ap_kernel.specs.declared.objects.Equiv.{Equiv};
    ghost use Rattle.ap_kernel.specs.declared.objects.Mode.{Mode};
    ghost use Rattle.ap_rewrite.specs.declared.rewriter.Place.{Place};

    ghost may: { Self → MutBor Run → Mode → Bor Place → Bor Term → Type 0 };

    ghost gives: { Self → MutBor Run → Mode → Bor Place → Bor Term → Result (Option Equiv) AllocError → MutBor Run → Type 0 };

    /// The term, under a mode, where it stands.
    fn rewrite(
        &self,
        steps: &mut Run<'_>,
        mode: Mode,
        at: &Place<'_>,
        t: &Term,
    ) -> Result<Option<Equiv>, NoMemory>
        requires { may self.now steps mode at t }
        ensures { gives self.now steps.entry mode at.entry t.entry result steps.exit };
}

/// A closure, where it may be called.
impl<F: Fn(&mut Run<'_>, Mode, &Place<'_>, &Term) -> Result<Option<Equiv>, NoMemory>> Below for F {
    ghost use denote.Ref.{Bor, MutBor};
    ghost use Rattle.std.specs.Prelude.{◌≡◌};
    ghost use Rattle.ap_rewrite.specs.declared.rewriter.Run.{Run};
    ghost use Rattle.ap_rewrite.specs.declared.rewriter.Place.{Place};

    ghost may = { λ f s o p t. (y : MutBor Run) (q : Bor Place) → y.now ≡ s.now → q.now ≡ p.now → F.pre f y o q t };

    ghost gives = { λ f s o p t a u. (y : MutBor Run) × (q : Bor Place) × (y.now ≡ s.now) × (q.now ≡ p.now) × ((v : MutBor Run) × (v.now ≡ u.now) × F.post f y o q t a v) };

    fn rewrite(
        &self,
        steps: &mut Run<'_>,
        mode: Mode,
        at: &Place<'_>,
        t: &Term,
    ) -> Result<Option<Equiv>, NoMemory> {
        self(steps, mode, at, t)
    }
}

/// How the terms within a term are rewritten: with so many levels left, by `below`.
#[derive_where(Clone, Copy)]
pub struct Level<'a, 'b, O, F> {
    pub r: &'a Rewriter<'b, O>,
    pub levels: u32,
    pub below: &'a F,
}

/// A term one level deeper. `None` where the steps run out.
pub fn deeper<O: TypeOracle, F: Below>(
    l: &Level<'_, '_, O, F>,
    steps: &mut Run<'_>,
    mode: Mode,
    at: &Place<'_>,
    t: &Term,
) -> Result<Option<Equiv>, NoMemory>
    requires level { IsLevel (F.may l.now.below.now) (F.gives l.now.below.now) l.now.r.now l.now.levels }
    requires facts { KnownFacts (defs_in l.now.r.now) at.now.ctx.now.0 }
    requires term { IsTrue (known (defs_in l.now.r.now) t.now) }
    requires here { Here l.now.r.now at.now steps.old.memo }
    ensures is { IfOk result (λ o. got o steps.new.left ≡ inner_of l.now.r.now l.now.levels mode (seen_at at.now) t.now steps.old.left) }
    ensures from { IfOk result (λ o. IfSome o (From l.now.r.now.w.now mode at.now.ctx.now t.now)) }
    ensures kept { steps.new.memo ≡ steps.old.memo }
{
    l.below.rewrite(steps, mode, at, t)
}
