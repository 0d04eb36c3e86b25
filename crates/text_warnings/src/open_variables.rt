//! Arithmetic tests and negations of variables that have only a domain.

ghost use Rattle.std.specs.Prelude.{◌≡◌, ◌||◌, ◌&&◌, ◌<◌, ◌++◌, ℕ, not, [], length, map, All, IfOk, IfSome, OnOk};
ghost use Rattle.std.specs.List.{list_any};
ghost use Rattle.std.specs.Option.{option_to_list};
ghost use Rattle.term_pool.specs.Contents.{atom_name, Contents};
ghost use Rattle.term_pool.specs.PlacedTerms.{placed_of};
ghost use Rattle.term_reader.specs.Sentences.{sentence_of, sentences_of, AreOwn, IsSentence};
ghost use Rattle.text_warnings.specs.Numbers.{is_in};
ghost use Rattle.text_warnings.specs.OpenVariables.{is_negation, negation_warnings, nothing_passed, numbers_of, occurrences, open_in, open_in_sentence, open_variables, outer_goals, warnings_behind, with_equation, with_given, with_tied, Passed as PassedGoals};
ghost use Rattle.text_warnings.specs.OpenViews.{open_all, IsOpenWarning, IsPassed, PassesGoal};
ghost use Rattle.text_warnings.specs.WarningViews.{warning_in, Adds, IsWarningWithin};

use crate::occurrences::{Occurrence, find_goals, find_variables};
use crate::roles::{Role, is_negation, role_of};
use crate::terms::{SentenceForm, sentence_form};
use crate::{Concern, Warning};
use fd_language::NoMemory;
use indexmap::IndexSet;
use std::alloc::Global;
use term_pool::{AtomId, Pool, TermId};
use term_reader::{Sentence, Sentences};

/// The variables of the goals in front.
#[derive(Drop)]
struct Passed {
    /// Those of constraints.
    tied: IndexSet<usize>,
    /// Those that may have got a value.
    given: IndexSet<usize>,
    /// Whether some variable is both.
    mixed: bool,
}

/// Puts the variables into a set, and tells whether the clause is mixed then: whether it was, or one of them is in the other set.
fn put_variables(
    found: &[Occurrence],
    into: &mut IndexSet<usize>,
    other: &IndexSet<usize>,
    mixed: bool,
) -> Result<bool, NoMemory>
    ensures members { OnOk result ((n : ℕ) → is_in into.new.keys n ≡ (is_in into.old.keys n
        || is_in (numbers_of found.now) n)) }
    ensures mixed { IfOk result (λ m. m ≡ (mixed || list_any (is_in other.now.keys)
        (numbers_of found.now))) }
{
    let mut mixed = mixed;
    for occurrence in found {
        into.insert(occurrence.number)?;
        mixed = mixed || other.contains(&occurrence.number);
    }
    Ok(mixed)
}

/// Whether the variable has only a domain.
fn is_open(passed: &Passed, number: usize) -> bool
    ensures { result ≡ (not passed.now.mixed && is_in passed.now.tied.keys number) }
{
    !passed.mixed && passed.tied.contains(&number)
}

/// The warning of a variable at its place, if it has only a domain, and a name.
fn open_warning(
    names: &[AtomId],
    passed: &Passed,
    negated: bool,
    occurrence: Occurrence,
) -> Option<Warning>
    ensures within { (c : Contents) → All (λ a. a.number < length c.names) names.now
        → IfSome result (IsWarningWithin c) }
    ensures is { IsOpenWarning names.now passed.now negated occurrence result }
{
    if !is_open(passed, occurrence.number) {
        return None;
    }
    let name = *names.get(occurrence.number)?;
    let place = occurrence.place;
    let concern = if negated {
        Concern::OpenNegation(name)
    } else {
        Concern::OpenTest(name)
    };
    Some(Warning { place, concern })
}

/// Appends a warning, if there is one.
fn put_some(warning: Option<Warning>, warnings: &mut Vec<Warning>) -> Result<(), NoMemory>
    ensures { OnOk result (warnings.new.items ≡ warnings.old.items ++ option_to_list warning) }
{
    match warning {
        Some(found) => Ok(warnings.push(found)?),
        None => Ok(()),
    }
}

/// Warns of those of the variables that have only a domain.
fn put_found(
    pool: &Pool,
    names: &[AtomId],
    passed: &Passed,
    negated: bool,
    found: &[Occurrence],
    warnings: &mut Vec<Warning>,
) -> Result<(), NoMemory>
    requires { All (λ a. a.number < length pool.now.names) names.now }
    ensures { OnOk result ((s : PassedGoals) → IsPassed s passed.now → Adds pool.now
        (open_all pool.now names.now negated s found.now) warnings.old.items
        warnings.new.items) }
{
    for occurrence in found {
        let warning = open_warning(names, passed, negated, *occurrence);
        put_some(warning, warnings)?;
    }
    Ok(())
}

/// Room for a walk.
#[derive(Drop)]
struct Room {
    ahead: Vec<TermId>,
    found: Vec<Occurrence>,
}

/// Warns of the term's variables that have only a domain.
fn put_open(
    pool: &Pool,
    names: &[AtomId],
    passed: &Passed,
    negated: bool,
    t: TermId,
    room: &mut Room,
    warnings: &mut Vec<Warning>,
) -> Result<(), NoMemory>
    requires names { All (λ a. a.number < length pool.now.names) names.now }
    requires term { t.number < length pool.now.entries }
    ensures { OnOk result ((s : PassedGoals) → IsPassed s passed.now → Adds pool.now (open_in
        (map (atom_name pool.now) names.now) negated s (placed_of pool.now t)) warnings.old.items
        warnings.new.items) }
{
    find_variables(pool, t, &mut room.ahead, &mut room.found)?;
    put_found(pool, names, passed, negated, &room.found, warnings)
}

/// Passes a constraint.
fn tie(pool: &Pool, t: TermId, room: &mut Room, passed: &mut Passed) -> Result<(), NoMemory>
    requires { t.number < length pool.now.entries }
    ensures { OnOk result ((s : PassedGoals) → IsPassed s passed.old → IsPassed
        (with_tied s (placed_of pool.now t)) passed.new) }
{
    find_variables(pool, t, &mut room.ahead, &mut room.found)?;
    let mixed = passed.mixed;
    passed.mixed = put_variables(&room.found, &mut passed.tied, &passed.given, mixed)?;
    Ok(())
}

/// Passes a term whose variables may get values.
fn give(pool: &Pool, t: TermId, room: &mut Room, passed: &mut Passed) -> Result<(), NoMemory>
    requires { t.number < length pool.now.entries }
    ensures { OnOk result ((s : PassedGoals) → IsPassed s passed.old → IsPassed
        (with_given s (placed_of pool.now t)) passed.new) }
{
    find_variables(pool, t, &mut room.ahead, &mut room.found)?;
    let mixed = passed.mixed;
    passed.mixed = put_variables(&room.found, &mut passed.given, &passed.tied, mixed)?;
    Ok(())
}

/// Passes an equation.
fn equate(pool: &Pool, t: TermId, room: &mut Room, passed: &mut Passed) -> Result<(), NoMemory>
    requires { t.number < length pool.now.entries }
    ensures { OnOk result ((s : PassedGoals) → IsPassed s passed.old → IsPassed
        (with_equation s (placed_of pool.now t)) passed.new) }
{
    find_variables(pool, t, &mut room.ahead, &mut room.found)?;
    if room.found.len() == 1 {
        give(pool, t, room, passed)
    } else {
        tie(pool, t, room, passed)
    }
}

/// Warns of a goal that is negated.
fn put_negated(
    pool: &Pool,
    names: &[AtomId],
    passed: &Passed,
    inner: TermId,
    room: &mut Room,
    warnings: &mut Vec<Warning>,
) -> Result<(), NoMemory>
    requires names { All (λ a. a.number < length pool.now.names) names.now }
    requires inner { inner.number < length pool.now.entries }
    ensures { OnOk result ((s : PassedGoals) → IsPassed s passed.now → Adds pool.now
        (negation_warnings (map (atom_name pool.now) names.now) s (placed_of pool.now inner))
        warnings.old.items warnings.new.items) }
{
    if is_negation(pool, inner) {
        return Ok(());
    }
    put_open(pool, names, passed, true, inner, room, warnings)
}

/// Warns of a goal, and passes it.
fn put_goal(
    pool: &Pool,
    names: &[AtomId],
    goal: TermId,
    passed: &mut Passed,
    room: &mut Room,
    warnings: &mut Vec<Warning>,
) -> Result<(), NoMemory>
    requires names { All (λ a. a.number < length pool.now.names) names.now }
    requires goal { goal.number < length pool.now.entries }
    ensures { OnOk result (PassesGoal pool.now names.now goal passed.old passed.new
        warnings.old.items warnings.new.items) }
{
    match role_of(pool, goal) {
        Role::Ties => tie(pool, goal, room, passed),
        Role::Equates => equate(pool, goal, room, passed),
        Role::Gives => give(pool, goal, room, passed),
        Role::Compares => put_open(pool, names, passed, false, goal, room, warnings),
        Role::Evaluates(left, right) => {
            put_open(pool, names, passed, false, right, room, warnings)?;
            give(pool, left, room, passed)
        }
        Role::Negates(inner) => put_negated(pool, names, passed, inner, room, warnings),
    }
}

/// Warns of these goals, from left to right.
fn put_goals(
    pool: &Pool,
    names: &[AtomId],
    goals: &[TermId],
    passed: &mut Passed,
    room: &mut Room,
    warnings: &mut Vec<Warning>,
) -> Result<(), NoMemory>
    requires names { All (λ a. a.number < length pool.now.names) names.now }
    requires goals { All (λ g. g.number < length pool.now.entries) goals.now }
    ensures { OnOk result ((s : PassedGoals) → IsPassed s passed.old → Adds pool.now
        (warnings_behind (map (atom_name pool.now) names.now) s (map (placed_of pool.now)
        goals.now)) warnings.old.items warnings.new.items) }
{
    for goal in goals {
        put_goal(pool, names, *goal, passed, room, warnings)?;
    }
    Ok(())
}

/// Warns of the goals of a body behind a head. `goals` and `room` are room.
fn put_body(
    pool: &Pool,
    names: &[AtomId],
    body: TermId,
    passed: &mut Passed,
    goals: &mut Vec<TermId>,
    room: &mut Room,
    warnings: &mut Vec<Warning>,
) -> Result<(), NoMemory>
    requires names { All (λ a. a.number < length pool.now.names) names.now }
    requires body { body.number < length pool.now.entries }
    ensures { OnOk result ((s : PassedGoals) → IsPassed s passed.old → Adds pool.now
        (warnings_behind (map (atom_name pool.now) names.now) s (outer_goals
        (placed_of pool.now body))) warnings.old.items warnings.new.items) }
{
    find_goals(pool, body, &mut room.ahead, goals)?;
    put_goals(pool, names, goals, passed, room, warnings)
}

/// No goal is passed.
fn none_passed(alloc: Global) -> Passed
    ensures { IsPassed nothing_passed result }
{
    Passed {
        tied: IndexSet::new(alloc),
        given: IndexSet::new(alloc),
        mixed: false,
    }
}

/// Warns of the goals of the sentence. No goal is passed yet. `goals` and `room` are room.
fn put_open_of(
    pool: &Pool,
    sentence: &Sentence,
    passed: &mut Passed,
    goals: &mut Vec<TermId>,
    room: &mut Room,
    warnings: &mut Vec<Warning>,
) -> Result<(), NoMemory>
    requires sentence { IsSentence pool.now sentence.now }
    requires passed { IsPassed nothing_passed passed.old }
    ensures { OnOk result (Adds pool.now (open_in_sentence (sentence_of pool.now sentence.now))
        warnings.old.items warnings.new.items) }
{
    let names = sentence.names.as_slice();
    match sentence_form(pool, sentence.term) {
        SentenceForm::Query(body) => put_body(pool, names, body, passed, goals, room, warnings),
        SentenceForm::Clause(head, body) => {
            give(pool, head, room, passed)?;
            put_body(pool, names, body, passed, goals, room, warnings)
        }
        SentenceForm::Directive | SentenceForm::Fact(_) => Ok(()),
    }
}

/// Warns of the goals of the sentence. `goals` and `room` are room.
fn put_open_in(
    alloc: Global,
    pool: &Pool,
    sentence: &Sentence,
    goals: &mut Vec<TermId>,
    room: &mut Room,
    warnings: &mut Vec<Warning>,
) -> Result<(), NoMemory>
    requires { IsSentence pool.now sentence.now }
    ensures { OnOk result (Adds pool.now (open_in_sentence (sentence_of pool.now sentence.now))
        warnings.old.items warnings.new.items) }
{
    let mut passed = none_passed(alloc);
    put_open_of(pool, sentence, &mut passed, goals, room, warnings)
}

/// Warns of each arithmetic test and each negation of a variable that has only a domain, sentence by sentence.
pub(crate) fn put_open_variables(
    alloc: Global,
    sentences: &Sentences,
    warnings: &mut Vec<Warning>,
) -> Result<(), NoMemory>
    requires { AreOwn sentences.now }
    ensures { OnOk result (Adds sentences.now.pool (open_variables (sentences_of sentences.now))
        warnings.old.items warnings.new.items) }
{
    let mut goals = Vec::new(alloc);
    let mut room = Room {
        ahead: Vec::new(alloc),
        found: Vec::new(alloc),
    };
    for sentence in &sentences.list {
        put_open_in(
            alloc,
            &sentences.pool,
            sentence,
            &mut goals,
            &mut room,
            warnings,
        )?;
    }
    Ok(())
}
