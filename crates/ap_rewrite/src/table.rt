ghost use Rattle.std.specs.Prelude.{◌≡◌, ◌++◌, ◌∷◌, [], ◌⊎◌, List, Option, None, Some, nat_eq, IsTrue, IfOk, OnOk, OnErr};
ghost use Rattle.std.specs.Map.{lookup};
ghost use Rattle.std.specs.Option.{option_copied};
ghost use Rattle.ap_rewrite.specs.declared.table.Table.{Table};
ghost use Rattle.ap_rewrite.specs.Remembers.{Puts, IsFor, Leaves};

use crate::known::Known;
use crate::rewriter::Place;
use ap_kernel::{Ctx, Mode, NoMemory, Seq, Symbol, Term};
use ap_term::{copy_symbols, same_term};
use indexmap::IndexMap;
use std::alloc::{AllocError, Global};
use std::hash::{BuildHasherDefault, Hasher};

/// What makes a hash of a number that is one already: a multiplication for each byte. A hasher of its own leaves the
/// hasher of names, which is called far oftener, to be compiled into its callers.
#[derive(Clone, Copy)]
pub(crate) struct Folded(u64);

impl Default for Folded {
    ghost is_default = { λ s. s ≡ record { 0 = 0xcbf29ce484222325 } };

    fn default() -> Folded {
        Folded(0xcbf29ce484222325)
    }
}

impl Hasher for Folded {
    ghost use Rattle.ap_rewrite.specs.Folds.{folded};

    ghost write = { folded };

    ghost finish = { λ s. s.0 };

    #[inline(always)]
    fn finish(&self) -> u64 {
        self.0
    }

    #[inline(always)]
    fn write(&mut self, bytes: &[u8]) {
        for b in bytes {
            self.0 = (self.0 ^ u64::from(*b)).wrapping_mul(0x100000001b3);
        }
    }
}

/// What terms became at one place, each under a number that its hash and the mode give.
pub(crate) struct Table {
    pub ctx: Ctx,
    pub closed: Seq<Symbol>,
    pub entries: IndexMap<u64, Known, BuildHasherDefault<Folded>>,
}

// One call wherever a table is let go, whatever it keeps.
impl Drop for Table {
    fn drop(self) {
        let Table {
            ctx: _ctx,
            closed: _closed,
            entries: _entries,
        } = self;
    }
}

/// The number under which a term is kept: of two terms it may be one, so an entry is compared with the term. Takes no
/// memory.
pub(crate) fn key_of(mode: Mode, t: &Term) -> u64 {
    match mode {
        Mode::Equal => t.hash(),
        Mode::Iff => t.hash().wrapping_add(1),
    }
}

/// The entry under a number.
pub(crate) fn entry_of<'e>(table: &'e Table, key: u64) -> Option<&'e Known>
    ensures { option_copied result ≡ lookup (nat_eq key) table.now.entries.entries }
{
    table.entries.get(&key)
}

/// An entry more, or another in its place, where rewriting stands at a place.
pub(crate) fn put(here: &mut Option<Table>, key: u64, known: Known) -> Result<(), NoMemory>
    ensures { Puts here.old here.new key known }
{
    if let Some(table) = here {
        table.entries.insert(key, known)?;
    }
    Ok(())
}

/// Whether two lists of facts are one.
fn same_facts(a: &[(Term, bool)], b: &[(Term, bool)]) -> bool
    ensures { IsTrue result → a.now ≡ b.now }
{
    if a.len() != b.len() {
        return false;
    }
    for i in 0..a.len() {
        if a[i].1 != b[i].1 || !same_term(&a[i].0, &b[i].0) {
            return false;
        }
    }
    true
}

/// Whether a table is of this place, where no function is closed.
fn is_of(table: &Table, at: &Place<'_>) -> bool
    ensures ctx { IsTrue result → table.now.ctx ≡ at.now.ctx.now }
    ensures closed { IsTrue result → table.now.closed ≡ at.now.closed.now }
{
    table.closed.is_empty() && at.closed.is_empty() && same_facts(table.ctx.facts(), at.ctx.facts())
}

/// An empty table of a place.
fn empty_table(alloc: Global, at: &Place<'_>) -> Result<Table, NoMemory>
    ensures { IfOk result (λ t. (t.ctx ≡ at.now.ctx.now) × (t.closed ≡ at.now.closed.now) × (t.entries.entries ≡ [])) }
{
    let ctx = at.ctx.share()?;
    let closed = copy_symbols(alloc, at.closed)?;
    Ok(Table {
        ctx,
        closed,
        entries: IndexMap::with_hasher(alloc, BuildHasherDefault::new()),
    })
}

/// The table of a place: the one that was left last, where it is of this place, or an empty one.
pub(crate) fn table_at(
    alloc: Global,
    last: &mut Option<Table>,
    at: &Place<'_>,
) -> Result<Table, NoMemory>
    ensures table { IfOk result (IsFor at.now.ctx.now at.now.closed.now last.old) }
    ensures last { (last.new ≡ None) ⊎ (last.new ≡ last.old) }
{
    match last.take() {
        Some(table) => {
            if is_of(&table, at) {
                return Ok(table);
            }
            empty_table(alloc, at)
        }
        None => empty_table(alloc, at),
    }
}

/// The table of the place that is entered, on top of those of the places around it.
pub(crate) fn push_table(
    here: &mut Option<Table>,
    around: &mut Vec<Option<Table>>,
    table: Table,
) -> Result<(), NoMemory>
    ensures ok { OnOk result ((here.new ≡ Some table) × (around.new.items ≡ around.old.items ++ here.old ∷ [])) }
    ensures err { OnErr result ((here.new ≡ here.old) × (around.new.items ≡ around.old.items)) }
{
    let outer = here.replace(table);
    match around.push(outer) {
        Ok(()) => Ok(()),
        Err(failed) => {
            *here = failed.value;
            Err(AllocError)
        }
    }
}

/// The table of the place around, where there is one; that of the outermost place is kept. Takes no memory.
pub(crate) fn pop_table(
    here: &mut Option<Table>,
    around: &mut Vec<Option<Table>>,
    last: &mut Option<Table>,
)
    requires { (o : Option Table) × (os : List (Option Table)) × (around.old.items ≡ os ++ o ∷ []) }
    ensures { Leaves here.old here.new around.old.items around.new.items last.old last.new }
{
    if let Some(outer) = around.pop() {
        let inner = std::mem::replace(here, outer);
        if around.is_empty() {
            *last = inner;
        }
    }
}
