ghost use Rattle.std.specs.Prelude.{◌≡◌, [], ◌<◌, length, Some, IfOk, OnOk, OnErr, IfSome};
ghost use Rattle.ap_term.specs.declared.term.Term.{Term};
ghost use Rattle.std.specs.Map.{lookup};
ghost use Rattle.indexmap.specs.IndexMap.{insert_entry};
ghost use Rattle.ap_bank.specs.Whole.{whole_eq};
ghost use Rattle.ap_bank.specs.Banks.{term_at, terms_at, held_term, node_term, Apart, Begins};

use crate::node::{Held, Node, TermId};
use crate::whole::Whole;
use ap_list::{NoMemory, Seq, SharedSeq};
use ap_term::{Shape, Term, copy_term};
use ap_value::{copy, copy_symbol};
use indexmap::{IndexMap, IndexSet};
use std::alloc::{AllocError, Global};
use std::marker::Model;

/// Distinct terms, each with its number. Contracts see the list of the terms, which has none twice. A term that was
/// numbered before is found by the hash that it keeps, and a node by its arguments' numbers.
pub struct Bank {
    nodes: IndexSet<Held>,
    terms: Seq<Term>,
    known: IndexMap<Whole, TermId>,
}

// One call wherever a bank is let go.
impl Drop for Bank {
    fn drop(self) {
        let Bank {
            nodes: _nodes,
            terms: _terms,
            known: _known,
        } = self;
    }
}

impl Model for Bank {
    ghost use Rattle.std.specs.Prelude.{List};
    ghost use Rattle.std.specs.Coded.{coded_list};
    ghost use Rattle.ap_term.specs.declared.term.Term.{Term};
    ghost use Rattle.ap_term.specs.contracts.term.Term as term;
    ghost use Rattle.ap_bank.specs.Banks.{IsBank};

    ghost Value = { List Term };

    ghost coded = { coded_list term.the_row.coded };

    ghost view = { λ b. b.terms };

    ghost invariant = { λ b. IsBank b.nodes.keys b.terms b.known.entries };
}

impl Bank {
    /// No term. Takes no memory.
    pub fn empty(alloc: Global) -> Bank
        ensures { result ≡ [] }
    {
        Bank {
            nodes: IndexSet::new(alloc),
            terms: Seq::new(alloc),
            known: IndexMap::new(alloc),
        }
    }

    /// The number of terms. No term stands twice.
    pub fn len(&self) -> usize
        ensures is { result ≡ length self.now }
        ensures apart { Apart self.now }
    {
        self.terms.len()
    }

    /// A term's outside, lent. Takes no memory.
    pub fn view(&self, id: TermId) -> Node<'_>
        requires { id.0 < length self.now }
        ensures { node_term self.now result ≡ term_at self.now id }
    {
        let place = id.0 as usize;
        let held = &self.nodes[place];
        match held {
            Held::Var(x) => Node::Var(x),
            Held::Quote(v) => Node::Quote(v),
            Held::Call(f, ids) => Node::Call(f, ids.as_slice()),
        }
    }

    /// A term, lent. Takes no memory.
    pub fn lent(&self, id: TermId) -> &Term
        requires { id.0 < length self.now }
        ensures { term_at self.now id ≡ Some result.now }
    {
        &self.terms.as_slice()[id.0 as usize]
    }

    /// A term, which shares its parts with the bank's.
    pub fn term(&self, alloc: Global, id: TermId) -> Result<Term, NoMemory>
        requires { id.0 < length self.now }
        ensures { IfOk result (λ t. term_at self.now id ≡ Some t) }
    {
        copy_term(alloc, self.lent(id))
    }

    /// The number of the term that a node stands for, which is added where it isn't there.
    fn put(&mut self, held: Held, term: Term) -> Result<TermId, NoMemory>
        requires { held_term self.old held ≡ Some term }
        ensures is { IfOk result (λ i. term_at self.new i ≡ Some term) }
        ensures begins { Begins self.old self.new }
    {
        if let Some(place) = self.nodes.get_index_of(&held) {
            let Ok(number) = u32::try_from(place) else {
                return Err(AllocError);
            };
            return Ok(TermId(number));
        }
        let place = self.terms.len();
        let Ok(number) = u32::try_from(place) else {
            return Err(AllocError);
        };
        self.terms.push(term)?;
        let Ok(_) = self.nodes.insert(held) else {
            self.terms.truncate(place);
            return Err(AllocError);
        };
        Ok(TermId(number))
    }

    /// Keeps the number of a term, so that it is found by the term's hash.
    fn remember(&mut self, whole: Whole, id: TermId) -> Result<(), NoMemory>
        requires { term_at self.old id ≡ Some whole.term }
        ensures { self.new ≡ self.old }
    {
        add_known(&mut self.known, whole, id)
    }

    /// The number of a term that was numbered before.
    fn number_of(&self, whole: &Whole) -> Option<TermId>
        ensures { IfSome result (λ i. term_at self.now i ≡ Some whole.now.term) }
    {
        known_id(&self.known, whole)
    }

    /// The number of the term that a node stands for, which is found by the term's hash from now on.
    fn put_whole(&mut self, alloc: Global, held: Held, whole: Whole) -> Result<TermId, NoMemory>
        requires { held_term self.old held ≡ Some whole.term }
        ensures is { IfOk result (λ i. term_at self.new i ≡ Some whole.term) }
        ensures begins { Begins self.old self.new }
    {
        let term = copy_term(alloc, &whole.term)?;
        let id = self.put(held, term)?;
        self.remember(whole, id)?;
        Ok(id)
    }

    /// The number of a term, which is added with its parts where it isn't there. Earlier numbers keep their terms. Of a
    /// term that was numbered before it takes one look-up by its hash.
    #[cycle(interning)]
    #[tactic(auto, using(ap_term::proofs::Seen::trees))]
    pub fn intern(&mut self, alloc: Global, t: &Term) -> Result<TermId, NoMemory>
        ensures is { IfOk result (λ i. term_at self.new i ≡ Some t.now) }
        ensures begins { Begins self.old self.new }
    {
        let whole = whole_of(alloc, t)?;
        if let Some(id) = self.number_of(&whole) {
            return Ok(id);
        }
        let held = match &t.shape {
            Shape::Var(x) => Held::Var(copy_symbol(alloc, x)?),
            Shape::Quote(v) => Held::Quote(copy(alloc, v)?),
            Shape::Call(f, us) => {
                let ids = self.intern_all(alloc, us.as_slice())?;
                let ids = SharedSeq::new(alloc, ids)?;
                Held::Call(copy_symbol(alloc, f)?, ids)
            }
        };
        self.put_whole(alloc, held, whole)
    }

    /// The numbers of terms, in their order.
    #[cycle(interning)]
    fn intern_all(&mut self, alloc: Global, us: &[Term]) -> Result<Seq<TermId>, NoMemory>
        ensures is { IfOk result (λ is. terms_at self.new is ≡ Some us.now) }
        ensures begins { Begins self.old self.new }
    {
        let mut ids = Seq::with_capacity(alloc, us.len())?;
        for u in us {
            let id = self.intern(alloc, u)?;
            ids.push(id)?;
        }
        Ok(ids)
    }
}

/// A copy of a term, by which it is looked up.
fn whole_of(alloc: Global, t: &Term) -> Result<Whole, NoMemory>
    ensures { IfOk result (λ w. w.term ≡ t.now) }
{
    let term = copy_term(alloc, t)?;
    Ok(Whole { term })
}

/// The number that is kept of a term.
fn known_id(known: &IndexMap<Whole, TermId>, whole: &Whole) -> Option<TermId>
    ensures { result ≡ lookup (whole_eq whole.now) known.now.entries }
{
    match known.get(whole) {
        Some(id) => Some(*id),
        None => None,
    }
}

/// A number more, or the same in its place.
fn add_known(known: &mut IndexMap<Whole, TermId>, whole: Whole, id: TermId) -> Result<(), NoMemory>
    ensures ok { OnOk result (known.new.entries ≡ insert_entry whole_eq known.old.entries whole id) }
    ensures err { OnErr result (known.new.entries ≡ known.old.entries) }
{
    known.insert(whole, id)?;
    Ok(())
}
