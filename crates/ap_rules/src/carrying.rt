ghost use Rattle.std.specs.Prelude.{◌≡◌, ◌-◌, ◌≤◌, ◌∷◌, [], ◌++◌, List, Some, OnOk, OnErr, IfOk, length, map, take, true};
ghost use Rattle.ap_list.specs.Lists.{Each};
ghost use Rattle.ap_term.specs.declared.term.Term.{out-Term};
ghost use Rattle.ap_world.specs.declared.entry.Entry.{Entry};
ghost use Rattle.ap_world.specs.Prescribing.{called};
ghost use Rattle.ap_world.specs.Rules.{Rule, is_left, rules_in_entry};
ghost use Rattle.ap_rules.specs.Made.{rule_in};
ghost use Rattle.ap_rules.specs.Linear.{linear_in_entry};
ghost use Rattle.ap_rules.specs.Carried.{Keeps, RewritesCarried, LinearCarried, Carried};

use crate::linear::LinearRule;
use crate::linears::Linears;
use crate::making::{EntryRules, entry_rules};
use crate::rule::RewriteRule;
use crate::table::{Groups, RuleIndex};
use ap_list::{NoMemory, Seq};
use ap_term::{Shape, Term};
use ap_value::{Symbol, copy_symbol};
use ap_world::Entry;
use std::alloc::{AllocError, Global};

/// The rules of a world's entries by their heads. `heads` has the head of each rewrite rule, in the order of the
/// entries, and `starts` for each entry how many come before its own, so that they are found again when
/// entries are taken away; and so `linear_starts` for the linear rules.
pub(crate) struct Carrier {
    pub rules: RuleIndex,
    pub heads: Seq<Symbol>,
    pub starts: Seq<usize>,
    pub linear_starts: Seq<usize>,
}

// One call wherever a world with its index is let go.
impl Drop for Carrier {
    fn drop(self) {
        let Carrier {
            rules: _rules,
            heads: _heads,
            starts: _starts,
            linear_starts: _linear_starts,
        } = self;
    }
}

/// The head of a rule's left side.
#[tactic(auto, using(ap_term::proofs::Seen::trees))]
fn head_of(alloc: Global, t: &Term) -> Result<Symbol, NoMemory>
    requires { is_left (out-Term t.now) ≡ true }
    ensures { IfOk result (λ h. called (out-Term t.now) ≡ Some h) }
{
    match &t.shape {
        Shape::Call(f, _) => copy_symbol(alloc, f),
        // No left side is one of these.
        Shape::Var(_) => Err(AllocError),
        Shape::Quote(_) => Err(AllocError),
    }
}

/// Adds a copy of a head.
fn push_head(alloc: Global, heads: &mut Seq<Symbol>, head: &Symbol) -> Result<(), NoMemory>
    ensures ok { OnOk result (heads.new ≡ heads.old ++ head.now ∷ []) }
    ensures err { OnErr result (heads.new ≡ heads.old) }
{
    let copy = copy_symbol(alloc, head)?;
    heads.push(copy)
}

/// Adds a rule as the newest. Where memory is refused the others stay.
fn add_rule(
    alloc: Global,
    groups: &mut Groups,
    heads: &mut Seq<Symbol>,
    rule: RewriteRule,
) -> Result<(), NoMemory>
    requires { is_left (out-Term rule.lhs) ≡ true }
    ensures ok { OnOk result ((rs : List Rule) → Keeps groups.old heads.old rs → Keeps groups.new heads.new (rs ++ rule_in rule ∷ [])) }
    ensures err { OnErr result ((rs : List Rule) → Keeps groups.old heads.old rs → Keeps groups.new heads.new rs) }
{
    let head = head_of(alloc, &rule.lhs)?;
    push_head(alloc, heads, &head)?;
    if let Err(error) = groups.add(alloc, head, rule) {
        heads.pop();
        return Err(error);
    }
    Ok(())
}

/// Takes the last rule away, where there is one. Takes no memory.
fn remove_last(groups: &mut Groups, heads: &mut Seq<Symbol>)
    ensures keeps { (rs : List Rule) → Keeps groups.old heads.old rs → Keeps groups.new heads.new (take (length rs - 1) rs) }
    ensures fewer { length heads.new ≡ length heads.old - 1 }
{
    if let Some(head) = heads.pop() {
        groups.remove_first(&head);
    }
}

/// Keeps the first `kept` rules. Takes no memory.
fn cut(groups: &mut Groups, heads: &mut Seq<Symbol>, kept: usize)
    ensures { (rs : List Rule) → Keeps groups.old heads.old rs → Keeps groups.new heads.new (take kept rs) }
{
    while heads.len() > kept {
        remove_last(groups, heads);
    }
}

/// Adds rules in their order, so that the last is the newest. Where memory is refused the others stay.
fn add_rules(
    alloc: Global,
    groups: &mut Groups,
    heads: &mut Seq<Symbol>,
    rules: Seq<RewriteRule>,
) -> Result<(), NoMemory>
    requires { Each (λ g. is_left (out-Term g.lhs) ≡ true) rules }
    ensures ok { OnOk result ((rs : List Rule) → Keeps groups.old heads.old rs → Keeps groups.new heads.new (rs ++ map rule_in rules)) }
    ensures err { OnErr result ((rs : List Rule) → Keeps groups.old heads.old rs → Keeps groups.new heads.new rs) }
{
    let kept = heads.len();
    for rule in rules.into_vec() {
        if let Err(error) = add_rule(alloc, groups, heads, rule) {
            cut(groups, heads, kept);
            return Err(error);
        }
    }
    Ok(())
}

/// Adds the rewrite rules of one entry more, and how many come before them. Where memory is refused those of the
/// others stay.
fn add_rewrites(
    alloc: Global,
    groups: &mut Groups,
    heads: &mut Seq<Symbol>,
    starts: &mut Seq<usize>,
    rules: Seq<RewriteRule>,
) -> Result<(), NoMemory>
    requires { Each (λ g. is_left (out-Term g.lhs) ≡ true) rules }
    ensures ok { OnOk result ((W : List Entry) (y : Entry) → map rule_in rules ≡ rules_in_entry y → RewritesCarried W groups.old heads.old starts.old → RewritesCarried (W ++ y ∷ []) groups.new heads.new starts.new) }
    ensures err { OnErr result ((W : List Entry) → RewritesCarried W groups.old heads.old starts.old → RewritesCarried W groups.new heads.new starts.new) }
{
    let start = heads.len();
    starts.push(start)?;
    if let Err(error) = add_rules(alloc, groups, heads, rules) {
        starts.pop();
        return Err(error);
    }
    Ok(())
}

/// Keeps the rewrite rules of the first `count` entries. Takes no memory.
fn cut_rewrites(groups: &mut Groups, heads: &mut Seq<Symbol>, starts: &mut Seq<usize>, count: usize)
    ensures { (W : List Entry) → RewritesCarried W groups.old heads.old starts.old → RewritesCarried (take count W) groups.new heads.new starts.new }
{
    if let Some(start) = starts.get(count) {
        cut(groups, heads, *start);
        starts.truncate(count);
    }
}

/// Adds the linear rules of one entry more, and how many come before them. Where memory is refused those of the
/// others stay.
fn add_linear(
    alloc: Global,
    linear: &mut Linears,
    starts: &mut Seq<usize>,
    rules: Seq<LinearRule>,
) -> Result<(), NoMemory>
    ensures rules { OnOk result (linear.new ≡ linear.old ++ rules) }
    ensures starts { OnOk result (starts.new ≡ starts.old ++ length linear.old ∷ []) }
    ensures err { OnErr result ((linear.new ≡ linear.old) × (starts.new ≡ starts.old)) }
{
    let start = linear.len();
    starts.push(start)?;
    if let Err(error) = linear.append(alloc, rules) {
        starts.pop();
        return Err(error);
    }
    Ok(())
}

/// Keeps the linear rules of the first `count` entries. Takes no memory.
fn cut_linear(linear: &mut Linears, starts: &mut Seq<usize>, count: usize)
    ensures { (W : List Entry) → LinearCarried W linear.old starts.old → LinearCarried (take count W) linear.new starts.new }
{
    if let Some(start) = starts.get(count) {
        linear.truncate(*start);
        starts.truncate(count);
    }
}

impl Carrier {
    /// The rules of no entries. Takes no memory.
    pub(crate) fn new(alloc: Global) -> Carrier
        ensures { Carried [] result }
    {
        Carrier {
            rules: RuleIndex::new(alloc),
            heads: Seq::new(alloc),
            starts: Seq::new(alloc),
            linear_starts: Seq::new(alloc),
        }
    }

    /// Adds the rules of one entry more. Where memory is refused those of the others stay.
    pub(crate) fn add(&mut self, alloc: Global, rules: EntryRules) -> Result<(), NoMemory>
        requires { Each (λ g. is_left (out-Term g.lhs) ≡ true) rules.rewrites }
        ensures ok { OnOk result ((W : List Entry) (y : Entry) → map rule_in rules.rewrites ≡ rules_in_entry y → rules.linear ≡ linear_in_entry y → Carried W self.old → Carried (W ++ y ∷ []) self.new) }
        ensures err { OnErr result ((W : List Entry) → Carried W self.old → Carried W self.new) }
    {
        let EntryRules { rewrites, linear } = rules;
        let kept = self.rules.linear.len();
        let count = self.linear_starts.len();
        add_linear(
            alloc,
            &mut self.rules.linear,
            &mut self.linear_starts,
            linear,
        )?;
        if let Err(error) = add_rewrites(
            alloc,
            &mut self.rules.groups,
            &mut self.heads,
            &mut self.starts,
            rewrites,
        ) {
            self.rules.linear.truncate(kept);
            self.linear_starts.truncate(count);
            return Err(error);
        }
        Ok(())
    }

    /// Adds the rules of an entry.
    pub(crate) fn add_entry(&mut self, alloc: Global, entry: &Entry) -> Result<(), NoMemory>
        ensures ok { OnOk result ((W : List Entry) → Carried W self.old → Carried (W ++ entry.now ∷ []) self.new) }
        ensures err { OnErr result ((W : List Entry) → Carried W self.old → Carried W self.new) }
    {
        let rules = entry_rules(alloc, entry)?;
        self.add(alloc, rules)
    }

    /// Adds the rules of the entries from a place on, where it has those of the entries before. Where memory is
    /// refused these stay.
    pub(crate) fn add_from(
        &mut self,
        alloc: Global,
        entries: &[Entry],
        start: usize,
    ) -> Result<(), NoMemory>
        requires { start ≤ length entries.now }
        ensures ok { OnOk result (Carried (take start entries.now) self.old → Carried entries.now self.new) }
        ensures err { OnErr result (Carried (take start entries.now) self.old → Carried (take start entries.now) self.new) }
    {
        for place in start..entries.len() {
            if let Err(error) = self.add_entry(alloc, &entries[place]) {
                self.truncate(start);
                return Err(error);
            }
        }
        Ok(())
    }

    /// Keeps the rules of the first `count` entries. Takes no memory.
    pub(crate) fn truncate(&mut self, count: usize)
        ensures { (W : List Entry) → Carried W self.old → Carried (take count W) self.new }
    {
        cut_rewrites(
            &mut self.rules.groups,
            &mut self.heads,
            &mut self.starts,
            count,
        );
        cut_linear(&mut self.rules.linear, &mut self.linear_starts, count);
    }

    /// The rules of entries.
    pub(crate) fn of(alloc: Global, entries: &[Entry]) -> Result<Carrier, NoMemory>
        ensures { IfOk result (λ c. Carried entries.now c) }
    {
        let mut carrier = Carrier::new(alloc);
        for entry in entries {
            carrier.add_entry(alloc, entry)?;
        }
        Ok(carrier)
    }
}
