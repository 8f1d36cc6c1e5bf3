ghost use Rattle.std.specs.Prelude.{◌≡◌, ◌∷◌, [], List, Option, Some, None, IfOk, OnOk, OnErr};
ghost use Rattle.ap_term.specs.declared.term.Term.{Term};
ghost use Rattle.ap_rewrite.specs.InWorld.{world_setting};
ghost use Rattle.ap_rewrite.specs.Rewriting.{rewrite_to};
ghost use Rattle.ap_rewrite.specs.Keys.{place_term};
ghost use Rattle.ap_rewrite.specs.Answering.{From, seen_at};
ghost use Rattle.ap_rewrite.specs.Remembering.{RecalledIs};

use crate::known::{Recalled, cost_of, is_hit, known_of, recall_from};
use crate::rewriter::Place;
use crate::table::{Table, entry_of, key_of, pop_table, push_table, put, table_at};
use ap_kernel::{Equiv, Mode, NoMemory, Seq, Term, World};
use ap_world::Theory;
use std::alloc::Global;
use std::marker::Model;

/// The most entries that a memo keeps.
const MOST_ENTRIES: u32 = 4096;

/// How many answers the memo of a clause passes over before it keeps the first: most clauses have fewer, and nothing is
/// asked again in them.
pub(crate) const PASSED_OVER: u32 = 8;

/// What terms became, for a world, a theory and the calls that are opened, each at its place. Contracts see these, the
/// place at which rewriting stands and those around it; its type keeps that each entry is the definition's.
pub struct Memo<'a> {
    w: &'a World,
    theory: &'a Theory,
    expand: &'a Seq<Term>,
    here: Option<Table>,
    around: Vec<Option<Table>>,
    last: Option<Table>,
    /// How many entries more are kept.
    room: u32,
    /// How many answers more are passed over before one is kept.
    passed_over: u32,
    /// How often something was known, up to the greatest number.
    pub hits: u64,
}

// One call wherever a memo is let go, whatever it keeps.
impl<'a> Drop for Memo<'a> {
    fn drop(self) {
        let Memo {
            w: _,
            theory: _,
            expand: _,
            here: _here,
            around: _around,
            last: _last,
            room: _,
            passed_over: _,
            hits: _,
        } = self;
    }
}

impl<'a> Model for Memo<'a> {
    ghost use Rattle.std.specs.Coded.{codes};
    ghost use Rattle.ap_term.specs.contracts.term.Term as term;
    ghost use Rattle.ap_value.specs.contracts.value.Value as value;
    ghost use Rattle.ap_rewrite.specs.Shown.{MemoShown};
    ghost use Rattle.ap_rewrite.specs.Remembers.{shown, Remembers};

    ghost Value = { MemoShown };

    ghost coded = { Prim.hlevel (codes, term.the_row.coded, value.the_row.coded) };

    ghost view = { λ m. shown m.w.now m.theory.now m.expand.now m.here m.around.items };

    ghost invariant = { λ m. Remembers m.w.now m.theory.now m.expand.now m.here m.around.items m.last };
}

impl<'a> Memo<'a> {
    /// A memo of nothing, which stands at no place, and passes over so many answers before it keeps one. Takes no
    /// memory.
    pub(crate) fn new(
        alloc: Global,
        w: &'a World,
        theory: &'a Theory,
        expand: &'a Seq<Term>,
        passed_over: u32,
    ) -> Memo<'a>
        ensures { result ≡ record { world = w.now; theory = theory.now; expand = expand.now; place = None; around = [] } }
    {
        Memo {
            w,
            theory,
            expand,
            here: None,
            around: Vec::new(alloc),
            last: None,
            room: MOST_ENTRIES,
            passed_over,
            hits: 0,
        }
    }

    /// A new one, for the same. Takes no memory.
    pub(crate) fn bare(&self, alloc: Global) -> Memo<'a> {
        Memo::new(alloc, self.w, self.theory, self.expand, 0)
    }

    /// What is known of a term here, with so many levels and steps left.
    fn find(
        &self,
        alloc: Global,
        levels: u32,
        mode: Mode,
        at: &Place<'_>,
        t: &Term,
        left: u32,
    ) -> Result<Recalled, NoMemory>
        requires here { self.now.place ≡ Some (place_term at.now.ctx.now.0 at.now.closed.now) }
        ensures is { IfOk result (RecalledIs self.now levels mode at.now t.now left) }
    {
        let Some(table) = &self.here else {
            return Ok(Recalled::Unknown);
        };
        if table.entries.is_empty() {
            return Ok(Recalled::Unknown);
        }
        let found = entry_of(table, key_of(mode, t));
        recall_from(alloc, found, levels, mode, at.chain, t, left)
    }

    /// What is known of a term here, with so many levels and steps left; what is known is counted.
    pub(crate) fn recall(
        &mut self,
        alloc: Global,
        levels: u32,
        mode: Mode,
        at: &Place<'_>,
        t: &Term,
        left: u32,
    ) -> Result<Recalled, NoMemory>
        requires here { self.old.place ≡ Some (place_term at.now.ctx.now.0 at.now.closed.now) }
        ensures kept { self.new ≡ self.old }
        ensures is { IfOk result (RecalledIs self.old levels mode at.now t.now left) }
    {
        let found = self.find(alloc, levels, mode, at, t, left)?;
        if is_hit(&found) {
            self.hits = self.hits.saturating_add(1);
        }
        Ok(found)
    }

    /// Keeps what a term became here, where it cost enough steps and no more than there were levels, room is left, and
    /// enough was passed over.
    pub(crate) fn keep(
        &mut self,
        alloc: Global,
        levels: u32,
        mode: Mode,
        at: &Place<'_>,
        t: &Term,
        before: u32,
        answer: &Equiv,
        after: u32,
    ) -> Result<(), NoMemory>
        requires here { self.old.place ≡ Some (place_term at.now.ctx.now.0 at.now.closed.now) }
        requires is { rewrite_to (world_setting self.old.world self.old.theory self.old.expand) levels mode (seen_at at.now) t.now before ≡ Some (answer.now.says.rhs, after) }
        requires leads { From self.old.world mode at.now.ctx.now t.now answer.now }
        ensures kept { self.new ≡ self.old }
    {
        let Some(cost) = cost_of(before, after) else {
            return Ok(());
        };
        if cost > levels || self.room == 0 {
            return Ok(());
        }
        if self.passed_over > 0 {
            self.passed_over -= 1;
            return Ok(());
        }
        let known = known_of(alloc, answer, cost, at.chain)?;
        self.room = self.room.saturating_sub(1);
        put(&mut self.here, key_of(mode, t), known)
    }

    /// Rewriting stands at this place until it is left.
    pub(crate) fn enter(&mut self, alloc: Global, at: &Place<'_>) -> Result<(), NoMemory>
        ensures ok { OnOk result (self.new ≡ record self.old { place = Some (place_term at.now.ctx.now.0 at.now.closed.now); around = self.old.place ∷ self.old.around }) }
        ensures err { OnErr result (self.new ≡ self.old) }
    {
        let table = table_at(alloc, &mut self.last, at)?;
        push_table(&mut self.here, &mut self.around, table)
    }

    /// Rewriting stands again where it stood before the last place was entered. Takes no memory.
    pub(crate) fn leave(&mut self)
        requires entered { (p : Option Term) × (rest : List (Option Term)) × (self.old.around ≡ p ∷ rest) }
        ensures left { (p : Option Term) (rest : List (Option Term)) → self.old.around ≡ p ∷ rest → self.new ≡ record self.old { place = p; around = rest } }
    {
        pop_table(&mut self.here, &mut self.around, &mut self.last);
    }
}
