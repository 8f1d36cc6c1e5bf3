//! Events with a name: what one states is put into the world where what that owes is proved.
ghost use Rattle.std.specs.Prelude.{◌≡◌, ◌≤◌, ◌++◌, [], IfOk, OnOk, OnErr, false, true, option_map};
ghost use Rattle.ap_list.specs.Lists.{Each};
ghost use Rattle.ap_world.specs.Meaning.{Valid};
ghost use Rattle.ap_world.specs.Sound.{HasFunctions};
ghost use Rattle.ap_world.specs.World.{Shown, function_of};
ghost use Rattle.ap_hints.specs.Known.{KnownHints};
ghost use Rattle.ap_stated.specs.declared.refusing.Refusal.{Refusal};
ghost use Rattle.ap_plain.specs.Attempts.{Tried, first_rule, plan_for, before, tried, Tries};
ghost use Rattle.ap_plain.specs.Ends.{Did, refused};
ghost use Rattle.ap_stated.specs.Hinting.{given_hints};
ghost use Rattle.ap_plain.specs.Proposals.{opening_of, owed_of, said_of, put, IsStated, proved_event, tried_event, hinted_event, proposed_event};
ghost use Rattle.ap_stated.specs.Texts.{said_line, refused_line, event_text};
ghost use Rattle.ap_attempt.specs.declared.verdict.Verdict.{Verdict};

use crate::attempting::{Crew, Trial, first_rule};
use crate::end::{Outcome, without_drops};
use crate::limits::Limits;
use crate::owing::try_owed;
use crate::proposing::{Proposal, opening_of, owed_of, put, said_of};
use ap_attempt::{Gate, Verdict};
use ap_hints::Hints;
use ap_list::{Bytes, NoMemory};
use ap_reader::Form;
use ap_rules::Ruled;
use ap_stated::{Refusal, given_hints, texts};
use ap_walk::{Reason, Rule};
use std::alloc::Global;
use std::sync::Wait;
use std::thread::Threads;

/// What an event with a name asks for, beside what it states: its title; its hints, if they are given; whether
/// `:otf-flg` is set for its attempts; and whether what it makes is enabled.
#[derive(Drop)]
pub(crate) struct Asked<'a> {
    pub title: &'a [u8],
    pub hints: Option<&'a Form>,
    pub otf: bool,
    pub enabled: bool,
}

/// What a refused event prints, behind other lines.
fn refused_text(
    alloc: Global,
    title: &[u8],
    lines: &[u8],
    refusal: Refusal,
) -> Result<Bytes, NoMemory>
    ensures { IfOk result (λ text. text ≡ event_text title.now lines.now (refused_line title.now refusal)) }
{
    let last = texts::refused_line(alloc, title, refusal)?;
    texts::event_text(alloc, title, lines, last.as_slice())
}

/// An event that is refused before its attempts.
fn refused_event(alloc: Global, title: &[u8], refusal: Refusal) -> Result<Outcome, NoMemory>
    ensures done { IfOk result (λ e. (w : Shown) → Did (refused (event_text title.now [] (refused_line title.now refusal)) []) w w e) }
    ensures alone { IfOk result (λ e. e.drops ≡ []) }
{
    let text = refused_text(alloc, title, b"", refusal)?;
    Ok(without_drops(alloc, text, false))
}

/// What an event prints that is admitted.
fn admitted_text(
    alloc: Global,
    title: &[u8],
    lines: &[u8],
    proposal: &Proposal,
) -> Result<Bytes, NoMemory>
    ensures { IfOk result (λ text. text ≡ event_text title.now lines.now (said_line title.now (said_of proposal.now))) }
{
    let last = texts::said_line(alloc, title, said_of(proposal))?;
    texts::event_text(alloc, title, lines, last.as_slice())
}

/// Ends an event whose attempts are all `Qed`.
fn admit(
    alloc: Global,
    w: &mut Ruled,
    asked: &Asked<'_>,
    proposal: Proposal,
    trial: Trial,
) -> Result<Outcome, NoMemory>
    requires functions { HasFunctions (function_of w.old.entries) }
    requires stated { IsStated w.old proposal }
    requires valid { Each (λ o. Valid (function_of w.old.entries) o.clause.0) (owed_of proposal) }
    ensures ok { OnOk result (w.new ≡ put asked.now.enabled w.old proposal) }
    ensures made { IfOk result (λ e. e ≡ record { text = event_text asked.now.title.now trial.lines (said_line asked.now.title.now (said_of proposal)); admitted = true; goals = trial.goals; drops = trial.drops }) }
    ensures error { OnErr result (w.new ≡ w.old) }
{
    let text = admitted_text(alloc, asked.title, trial.lines.as_slice(), &proposal)?;
    put(alloc, w, asked.enabled, proposal)?;
    Ok(Outcome {
        text,
        admitted: true,
        goals: trial.goals,
        drops: trial.drops,
    })
}

/// Ends an event of which an attempt failed.
fn fail(alloc: Global, title: &[u8], reason: Reason, trial: Trial) -> Result<Outcome, NoMemory>
    ensures { IfOk result (λ e. e ≡ record { text = event_text title.now trial.lines (refused_line title.now (Refusal.Attempt reason)); admitted = false; goals = trial.goals; drops = trial.drops }) }
{
    let text = refused_text(
        alloc,
        title,
        trial.lines.as_slice(),
        Refusal::Attempt(reason),
    )?;
    Ok(Outcome {
        text,
        admitted: false,
        goals: trial.goals,
        drops: trial.drops,
    })
}

/// Ends an event by its attempts, whose lines stand behind the opening. What it states is put into the world where each
/// is `Qed`.
fn end_tried(
    alloc: Global,
    w: &mut Ruled,
    asked: &Asked<'_>,
    proposal: Proposal,
    trial: Trial,
) -> Result<Outcome, NoMemory>
    requires functions { HasFunctions (function_of w.old.entries) }
    requires stated { IsStated w.old proposal }
    requires valid { trial.verdict ≡ Verdict.Qed → Each (λ o. Valid (function_of w.old.entries) o.clause.0) (owed_of proposal) }
    ensures done { IfOk result (λ e. (t : Tried) → Tries t trial → Did (proved_event w.old asked.now.title.now asked.now.enabled proposal t.lines t.walks t.verdict) w.old w.new e) }
    ensures same { IfOk result (λ e. e.drops ≡ trial.drops) }
    ensures error { OnErr result (w.new ≡ w.old) }
{
    match trial.verdict {
        Verdict::Qed => admit(alloc, w, asked, proposal, trial),
        Verdict::Failed(reason) => fail(alloc, asked.title, reason, trial),
    }
}

/// Puts the opening of a proposal before the lines of its attempts.
fn with_opening(alloc: Global, proposal: &Proposal, trial: Trial) -> Result<Trial, NoMemory>
    ensures { IfOk result (λ t. t ≡ record { lines = opening_of proposal.now ++ trial.lines; verdict = trial.verdict; goals = trial.goals; drops = trial.drops }) }
{
    let mut lines = opening_of(alloc, proposal)?;
    lines.extend(trial.lines.as_slice())?;
    Ok(Trial {
        lines,
        verdict: trial.verdict,
        goals: trial.goals,
        drops: trial.drops,
    })
}

/// Tries what a proposal owes by hints, each attempt's first walk by this rule. The world is as it was.
fn try_proposal<R: Threads + Wait + Sync, G: Gate + Sync>(
    crew: &Crew<'_, R, G>,
    alloc: Global,
    w: &mut Ruled,
    limits: &Limits,
    rule: Rule,
    hints: Hints,
    proposal: &Proposal,
) -> Result<Trial, NoMemory>
    requires functions { HasFunctions (function_of w.old.entries) }
    requires stated { IsStated w.old proposal.now }
    requires hints { KnownHints w.old.entries hints }
    ensures same { w.new ≡ w.old }
    ensures tried { IfOk result (Tries (before (opening_of proposal.now) [] (tried rule (plan_for limits.now w.old hints) (owed_of proposal.now)))) }
    ensures valid { IfOk result (λ t. t.verdict ≡ Verdict.Qed → Each (λ o. Valid (function_of w.old.entries) o.clause.0) (owed_of proposal.now)) }
    ensures alone { IfOk result (λ t. crew.now.workers ≤ 1 → t.drops ≡ []) }
{
    w.world().recall_sound();
    let owed = owed_of(alloc, proposal)?;
    let trial = try_owed(crew, alloc, w, limits, rule, hints, owed.as_slice())?;
    with_opening(alloc, proposal, trial)
}

/// Tries what a proposal owes by hints, and ends its event.
fn tried_event<R: Threads + Wait + Sync, G: Gate + Sync>(
    crew: &Crew<'_, R, G>,
    alloc: Global,
    w: &mut Ruled,
    limits: &Limits,
    asked: &Asked<'_>,
    hints: Hints,
    proposal: Proposal,
) -> Result<Outcome, NoMemory>
    requires functions { HasFunctions (function_of w.old.entries) }
    requires stated { IsStated w.old proposal }
    requires hints { KnownHints w.old.entries hints }
    ensures done { IfOk result (Did (tried_event w.old asked.now.title.now asked.now.enabled proposal (tried (first_rule limits.now asked.now.otf) (plan_for limits.now w.old hints) (owed_of proposal))) w.old w.new) }
    ensures alone { IfOk result (λ e. crew.now.workers ≤ 1 → e.drops ≡ []) }
    ensures error { OnErr result (w.new ≡ w.old) }
{
    let rule = first_rule(limits, asked.otf);
    let trial = try_proposal(crew, alloc, w, limits, rule, hints, &proposal)?;
    end_tried(alloc, w, asked, proposal, trial)
}

/// Does the event of a proposal, unless the hints that are given are refused.
#[tactic(auto, unfolding(crate::specs::Proposals::hinted_event))]
fn hinted_event<R: Threads + Wait + Sync, G: Gate + Sync>(
    crew: &Crew<'_, R, G>,
    alloc: Global,
    w: &mut Ruled,
    limits: &Limits,
    asked: &Asked<'_>,
    proposal: Proposal,
) -> Result<Outcome, NoMemory>
    requires functions { HasFunctions (function_of w.old.entries) }
    requires stated { IsStated w.old proposal }
    ensures done { IfOk result (Did (hinted_event limits.now asked.now.otf w.old asked.now.title.now asked.now.enabled proposal (given_hints w.old (option_map (λ f. f.now) asked.now.hints))) w.old w.new) }
    ensures alone { IfOk result (λ e. crew.now.workers ≤ 1 → e.drops ≡ []) }
    ensures error { OnErr result (w.new ≡ w.old) }
{
    match given_hints(alloc, w, asked.hints)? {
        Ok(hints) => tried_event(crew, alloc, w, limits, asked, hints, proposal),
        Err(refusal) => refused_event(alloc, asked.title, refusal),
    }
}

/// Does an event with a name, by what it states or by why that is refused. Where memory is wanting the world is as it was.
#[tactic(auto, unfolding(crate::specs::Proposals::proposed_event))]
pub(crate) fn proposed_event<R: Threads + Wait + Sync, G: Gate + Sync>(
    crew: &Crew<'_, R, G>,
    alloc: Global,
    w: &mut Ruled,
    limits: &Limits,
    asked: &Asked<'_>,
    stated: Result<Proposal, Refusal>,
) -> Result<Outcome, NoMemory>
    requires functions { HasFunctions (function_of w.old.entries) }
    requires stated { IfOk stated (IsStated w.old) }
    ensures done { IfOk result (Did (proposed_event limits.now asked.now.otf w.old asked.now.title.now asked.now.enabled (option_map (λ f. f.now) asked.now.hints) stated) w.old w.new) }
    ensures alone { IfOk result (λ e. crew.now.workers ≤ 1 → e.drops ≡ []) }
    ensures error { OnErr result (w.new ≡ w.old) }
{
    match stated {
        Ok(proposal) => hinted_event(crew, alloc, w, limits, asked, proposal),
        Err(refusal) => refused_event(alloc, asked.title, refusal),
    }
}
