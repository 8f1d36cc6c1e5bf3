ghost use Rattle.std.specs.Prelude.{◌≡◌, ◌<◌, ◌≤◌, [], ◌∷◌, drop, vec_len, IfOk, OnOk, OnErr};

use crate::rule::RewriteRule;
use ap_list::{Fixed, NoMemory, Seq};
use ap_term::Term;
use ap_value::{Value, named};
use std::alloc::Global;
use std::marker::Model;

/// The rules of one head, newest first: those from `start` on. The room before them is for rules to come, so
/// that adding one doesn't move the others; where it is used up it is made as wide as the group. Contracts see
/// the rules.
#[derive(Drop)]
pub(crate) struct Group {
    slots: Vec<RewriteRule>,
    start: usize,
}

impl Model for Group {
    ghost use Rattle.std.specs.Prelude.{◌≤◌, List, drop, vec_len};
    ghost use Rattle.std.specs.Coded.{coded_list};
    ghost use Rattle.ap_rules.specs.declared.rule.RewriteRule.{RewriteRule};
    ghost use Rattle.ap_rules.specs.contracts.rule.RewriteRule as rule;

    ghost Value = { List RewriteRule };

    ghost coded = { coded_list rule.the_row.coded };

    ghost view = { λ g. drop g.start g.slots.items };

    ghost invariant = { λ g. g.start ≤ vec_len g.slots };
}

/// What stands in the room for rules to come. Takes no memory.
fn filler(alloc: Global) -> RewriteRule {
    RewriteRule {
        theorem: named(Fixed::Nil),
        part: 0,
        iff: false,
        lhs: Term::quote(Value::Int(0)),
        rhs: Term::quote(Value::Int(0)),
        hyps: Seq::new(alloc),
        permutative: true,
        bound_by_left: true,
    }
}

/// As many fillers.
fn fillers(alloc: Global, count: usize) -> Result<Vec<RewriteRule>, NoMemory>
    ensures { IfOk result (λ v. vec_len v ≡ count) }
{
    let mut out = Vec::new(alloc);
    while out.len() < count {
        out.push(filler(alloc))?;
    }
    Ok(out)
}

/// Puts room before the rules, one more than they are, and answers where they start then. Where memory is
/// refused they stay as they were.
fn make_room(alloc: Global, slots: &mut Vec<RewriteRule>) -> Result<usize, NoMemory>
    ensures some { IfOk result (λ n. 0 < n) }
    ensures within { IfOk result (λ n. n ≤ vec_len slots.new) }
    ensures ok { IfOk result (λ n. drop n slots.new.items ≡ slots.old.items) }
    ensures err { OnErr result (slots.new.items ≡ slots.old.items) }
{
    let count = slots.len().saturating_add(1);
    let mut wider = fillers(alloc, count)?;
    wider.append(slots)?;
    *slots = wider;
    Ok(count)
}

/// Sees that there is room before the rules, and answers where they start then. Where memory is refused they
/// stay as they were.
fn with_room(alloc: Global, slots: &mut Vec<RewriteRule>, start: usize) -> Result<usize, NoMemory>
    requires { start ≤ vec_len slots.old }
    ensures some { IfOk result (λ n. 0 < n) }
    ensures within { IfOk result (λ n. n ≤ vec_len slots.new) }
    ensures ok { IfOk result (λ n. drop n slots.new.items ≡ drop start slots.old.items) }
    ensures err { OnErr result (slots.new.items ≡ slots.old.items) }
{
    if start == 0 {
        make_room(alloc, slots)
    } else {
        Ok(start)
    }
}

impl Group {
    /// No rules. Takes no memory.
    pub(crate) fn new(alloc: Global) -> Group
        ensures { result ≡ [] }
    {
        Group {
            slots: Vec::new(alloc),
            start: 0,
        }
    }

    /// The rules, lent.
    pub(crate) fn as_slice(&self) -> &[RewriteRule]
        ensures { result.now ≡ self.now }
    {
        &self.slots[self.start..]
    }

    /// Adds a rule, which is then the first one. Where memory is refused the group stays as it was.
    pub(crate) fn add(&mut self, alloc: Global, rule: RewriteRule) -> Result<(), NoMemory>
        ensures ok { OnOk result (self.new ≡ rule ∷ self.old) }
        ensures err { OnErr result (self.new ≡ self.old) }
    {
        let start = with_room(alloc, &mut self.slots, self.start)?;
        let place = start - 1;
        self.slots[place] = rule;
        self.start = place;
        Ok(())
    }

    /// Takes the first rule away, where there is one. Takes no memory.
    pub(crate) fn remove_first(&mut self)
        ensures { self.new ≡ drop 1 self.old }
    {
        if self.start < self.slots.len() {
            self.start += 1;
        }
    }
}
