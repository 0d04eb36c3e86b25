//! The goals of bodies, read from left to right into one vector.

ghost use Rattle.std.specs.Prelude.{◌≡◌, ℕ, ◌<◌, ◌≤◌, List, None, length, IfOk, IfErr, OnOk};
ghost use Rattle.fd_language.specs.Range.{Range};
ghost use Rattle.fd_model.specs.Refusals as model;
ghost use Rattle.fd_model.specs.Refusals.{form_of_functor, labelling_refusal};
ghost use Rattle.term_pool.specs.Contents.{Contents};
ghost use Rattle.term_pool.specs.Terms.{term_of};
ghost use Rattle.term_pool.specs.PlacedTerms.{placed_of};
ghost use Rattle.term_reader.specs.Sentences.{AreOwn};
ghost use Rattle.clause_check.specs.Causes.{RefusedBy};
ghost use Rattle.clause_check.specs.declared.faults.Fault.TheVariants as fault;
ghost use Rattle.clause_check.specs.Forms.{order_in, HasFormArity};
ghost use Rattle.clause_check.specs.declared.forms.GoalKind.TheVariants.{Optimum};
ghost use Rattle.clause_check.specs.GoalStores.{flat_part, joined_by, start_in, IsClosed, IsDenied, IsJoined, IsRead, IsStore, IsTaken, IsTask, IsTurned};
ghost use Rattle.clause_check.specs.Programs.{IsPart};
ghost use Rattle.clause_check.specs.Heads.{AreHeads};
ghost use Rattle.clause_check.specs.GoalRecords.{KeepsForm, KeepsTerm};
ghost use Rattle.clause_check.specs.PartVerdicts.{AcceptsForm, AcceptsGoal, RefusesBody, RefusesForm, RefusesGoal, RefusesTask};
ghost use Rattle.clause_check.specs.declared.goals.Task.TheVariants.{Visit};

use crate::faults::{Cause, Fault, refused};
use crate::forms::{GoalKind, form_named, is_reserved};
use crate::program::{FlatGoal, Part};
use crate::ranges::accepted_range;
use crate::terms::{Body, Functor, Joint, body_form, first_part, functor_of, second_part};
use fd_language::NoMemory;
use fd_model::kinds::Order;
use indexmap::IndexSet;
use monotone_check::Checked;
use std::alloc::Global;
use term_pool::{Pool, TermId};
use term_reader::Sentences;

/// What is still to be read of a body.
#[derive(Clone, Copy)]
pub(crate) enum Task {
    /// A part of the body.
    Visit(TermId),
    /// The right side of a `;` or a `->`, once the goals of the left side, pending from `start` on, are read.
    Turn {
        joint: Joint,
        start: usize,
        right: TermId,
    },
    /// The `;` or the `->` itself, once the goals of the right side, pending from `start` on, are read too.
    Join {
        joint: Joint,
        start: usize,
        left: Part,
    },
    /// The `\+`, once the goals that must fail, pending from `start` on, are read.
    Deny {
        start: usize,
    },
}

/// The goals that are read and the ranges that they name. Those of the body that is being read are pending until their part is whole.
#[derive(Drop)]
pub(crate) struct GoalStore {
    pub ranges: Vec<Checked>,
    pub goals: Vec<FlatGoal>,
    pending: Vec<FlatGoal>,
    tasks: Vec<Task>,
}

/// The order of the labelling that the term is, if it is one.
fn labelling_order(pool: &Pool, t: TermId) -> Option<Order>
    requires { t.number < length pool.now.entries }
    ensures { result ≡ order_in (form_of_functor (model.functor_of (placed_of pool.now t))) }
{
    let Functor { name, arity } = functor_of(pool, t)?;
    match form_named(pool.name_of(name), arity) {
        Some(GoalKind::Labelling(order)) => Some(order),
        _ => None,
    }
}

/// The goal that asks for the best leaf of the labelling that the first part of the term is.
fn best_goal(pool: &Pool, t: TermId, least: bool) -> Result<FlatGoal, Fault>
    requires { t.number < length pool.now.entries }
    ensures accepted { IfOk result (λ g. labelling_refusal (model.first_part (placed_of pool.now t))
        ≡ None) }
    ensures kept { IfOk result (λ g. (N : ℕ) (ranges : List Range) → KeepsForm N pool.now t
        (Optimum least) ranges ranges g) }
    ensures fault { IfErr result (RefusedBy pool.now (labelling_refusal (model.first_part (placed_of
        pool.now t)))) }
    ensures memory { IfErr result (λ e. e ≡ fault.NoMemory → ⊥) }
{
    let labelling = first_part(pool, t);
    match labelling_order(pool, labelling) {
        Some(order) => {
            let list = first_part(pool, labelling);
            Ok(FlatGoal::Best(order, least, list, second_part(pool, t)))
        }
        None => Err(refused(pool, labelling, Cause::BadGoal)),
    }
}

/// The goal of the language that the term is. Its range is put behind the others.
fn formed_goal(
    alloc: Global,
    pool: &Pool,
    t: TermId,
    form: GoalKind,
    infinity: u32,
    ranges: &mut Vec<Checked>,
) -> Result<FlatGoal, Fault>
    requires term { t.number < length pool.now.entries }
    requires arity { HasFormArity form (term_of pool.now t) }
    ensures accepted { IfOk result (λ g. AcceptsForm infinity pool.now t form) }
    ensures kept { IfOk result (KeepsForm infinity pool.now t form ranges.old.items ranges.new.items) }
    ensures fault { IfErr result (RefusesForm infinity pool.now t form) }
{
    match form {
        GoalKind::Truth => Ok(FlatGoal::True),
        GoalKind::Failure => Ok(FlatGoal::Fail),
        GoalKind::Cut => Ok(FlatGoal::Cut),
        GoalKind::Unification => Ok(FlatGoal::Unify(first_part(pool, t), second_part(pool, t))),
        GoalKind::Posting => {
            let range = accepted_range(alloc, pool, second_part(pool, t), infinity)?;
            let number = ranges.len();
            ranges.push(range)?;
            Ok(FlatGoal::Post(first_part(pool, t), number))
        }
        GoalKind::Constraint(kind) => Ok(FlatGoal::Constrain(kind, t)),
        GoalKind::Labelling(order) => Ok(FlatGoal::Label(order, first_part(pool, t))),
        GoalKind::Optimum(least) => best_goal(pool, t, least),
        GoalKind::Builtin(kind) => Ok(FlatGoal::Builtin(kind, t)),
    }
}

/// The goal that the term is, where it is not made of bodies.
fn read_goal(
    alloc: Global,
    sentences: &Sentences,
    heads: &IndexSet<Functor>,
    infinity: u32,
    t: TermId,
    ranges: &mut Vec<Checked>,
) -> Result<FlatGoal, Fault>
    requires own { AreOwn sentences.now }
    requires heads { AreHeads sentences.now heads.now.keys }
    requires term { t.number < length sentences.now.pool.entries }
    ensures accepted { IfOk result (λ g. AcceptsGoal infinity sentences.now t) }
    ensures kept { IfOk result (KeepsTerm infinity sentences.now.pool t ranges.old.items
        ranges.new.items) }
    ensures fault { IfErr result (RefusesGoal infinity sentences.now t) }
{
    let pool = &sentences.pool;
    let Some(functor) = functor_of(pool, t) else {
        return Err(refused(pool, t, Cause::BadGoal));
    };
    let Functor { name, arity } = functor;
    let text = pool.name_of(name);
    if is_reserved(text) {
        return Err(refused(pool, t, Cause::BadGoal));
    }
    if let Some(form) = form_named(text, arity) {
        return formed_goal(alloc, pool, t, form, infinity, ranges);
    }
    if heads.contains(&functor) {
        return Ok(FlatGoal::Call(t));
    }
    Err(refused(pool, t, Cause::Unknown { name, arity }))
}

/// The goal that is made of two parts of these goals. A `;` behind a `->` alone is the other way of that if.
fn joined_goal(goals: &[FlatGoal], joint: Joint, left: Part, right: Part) -> FlatGoal
    requires { IsPart (length goals.now) left }
    ensures { result ≡ joined_by joint (flat_part goals.now left) left right }
{
    match joint {
        Joint::Semicolon => match &goals[left.from..left.to] {
            &[FlatGoal::If(test, holds, None)] => FlatGoal::If(test, holds, Some(right)),
            _ => FlatGoal::Either(left, right),
        },
        Joint::Arrow => FlatGoal::If(left, right, None),
    }
}

impl GoalStore {
    /// The empty store.
    pub(crate) fn new(alloc: Global) -> GoalStore
        ensures { (c : Contents) → IsStore c result }
    {
        GoalStore {
            ranges: Vec::new(alloc),
            goals: Vec::new(alloc),
            pending: Vec::new(alloc),
            tasks: Vec::new(alloc),
        }
    }

    /// Puts the pending goals from `start` on behind the others, as a part.
    fn close(&mut self, start: usize) -> Result<Part, NoMemory>
        requires { start ≤ length self.old.pending.items }
        ensures { IfOk result (IsClosed start self.old self.new) }
    {
        let from = self.goals.len();
        self.goals.extend_from_slice(&self.pending[start..])?;
        self.pending.truncate(start);
        let to = self.goals.len();
        Ok(Part { from, to })
    }

    /// Reads a part of a body.
    fn visit(
        &mut self,
        alloc: Global,
        sentences: &Sentences,
        heads: &IndexSet<Functor>,
        infinity: u32,
        t: TermId,
    ) -> Result<(), Fault>
        requires own { AreOwn sentences.now }
        requires heads { AreHeads sentences.now heads.now.keys }
        requires store { IsStore sentences.now.pool self.old }
        requires term { t.number < length sentences.now.pool.entries }
        ensures taken { OnOk result (IsTaken infinity sentences.now self.old self.new (Visit t)) }
        ensures fault { IfErr result (RefusesBody infinity sentences.now t) }
    {
        match body_form(&sentences.pool, t) {
            Body::Both(left, right) => {
                self.tasks.push(Task::Visit(right))?;
                self.tasks.push(Task::Visit(left))?;
            }
            Body::Joined(joint, left, right) => {
                let start = self.pending.len();
                self.tasks.push(Task::Turn {
                    joint,
                    start,
                    right,
                })?;
                self.tasks.push(Task::Visit(left))?;
            }
            Body::Denied(inner) => {
                let start = self.pending.len();
                self.tasks.push(Task::Deny { start })?;
                self.tasks.push(Task::Visit(inner))?;
            }
            Body::Goal => {
                let goal = read_goal(alloc, sentences, heads, infinity, t, &mut self.ranges)?;
                self.pending.push(goal)?;
            }
        }
        Ok(())
    }

    /// Turns from the left side of a `;` or a `->`, whose goals are read, to the right one.
    fn turn(&mut self, joint: Joint, start: usize, right: TermId) -> Result<(), NoMemory>
        requires { start ≤ length self.old.pending.items }
        ensures { OnOk result (IsTurned joint start right self.old self.new) }
    {
        let left = self.close(start)?;
        self.tasks.push(Task::Join { joint, start, left })?;
        self.tasks.push(Task::Visit(right))?;
        Ok(())
    }

    /// Joins the two sides of a `;` or a `->`, whose goals are read.
    fn join(&mut self, joint: Joint, start: usize, left: Part) -> Result<(), NoMemory>
        requires start { start ≤ length self.old.pending.items }
        requires left { IsPart (length self.old.goals.items) left }
        ensures { OnOk result (IsJoined joint start left self.old self.new) }
    {
        let right = self.close(start)?;
        let goal = joined_goal(&self.goals, joint, left, right);
        self.pending.push(goal)?;
        Ok(())
    }

    /// Makes a `\+` of the goals that must fail, which are read.
    fn deny(&mut self, start: usize) -> Result<(), NoMemory>
        requires { start ≤ length self.old.pending.items }
        ensures { OnOk result (IsDenied start self.old self.new) }
    {
        let inner = self.close(start)?;
        self.pending.push(FlatGoal::Not(inner))?;
        Ok(())
    }

    /// Takes the task, which is no longer among the others.
    fn take(
        &mut self,
        alloc: Global,
        sentences: &Sentences,
        heads: &IndexSet<Functor>,
        infinity: u32,
        task: Task,
    ) -> Result<(), Fault>
        requires own { AreOwn sentences.now }
        requires heads { AreHeads sentences.now heads.now.keys }
        requires store { IsStore sentences.now.pool self.old }
        requires start { start_in (length self.old.pending.items) task ≤
            length self.old.pending.items }
        requires task { IsTask sentences.now.pool (length self.old.goals.items) task }
        ensures taken { OnOk result (IsTaken infinity sentences.now self.old self.new task) }
        ensures fault { IfErr result (RefusesTask infinity sentences.now task) }
    {
        match task {
            Task::Visit(t) => self.visit(alloc, sentences, heads, infinity, t),
            Task::Turn {
                joint,
                start,
                right,
            } => Ok(self.turn(joint, start, right)?),
            Task::Join { joint, start, left } => Ok(self.join(joint, start, left)?),
            Task::Deny { start } => Ok(self.deny(start)?),
        }
    }

    /// Reads a body. Its goals are put behind the others, those of which one is made before it.
    pub(crate) fn read_body(
        &mut self,
        alloc: Global,
        sentences: &Sentences,
        heads: &IndexSet<Functor>,
        infinity: u32,
        body: TermId,
    ) -> Result<Part, Fault>
        requires own { AreOwn sentences.now }
        requires heads { AreHeads sentences.now heads.now.keys }
        requires store { IsStore sentences.now.pool self.old }
        requires term { body.number < length sentences.now.pool.entries }
        ensures read { IfOk result (IsRead infinity sentences.now self.old self.new
            (placed_of sentences.now.pool body)) }
        ensures fault { IfErr result (RefusesBody infinity sentences.now body) }
    {
        self.pending.clear();
        self.tasks.clear();
        self.tasks.push(Task::Visit(body))?;
        while let Some(task) = self.tasks.pop() {
            self.take(alloc, sentences, heads, infinity, task)?;
        }
        Ok(self.close(0)?)
    }
}
