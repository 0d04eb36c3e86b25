//! The walk over two terms, task by task.

ghost use Rattle.std.specs.Prelude.{◌≡◌, ℕ, ◌<◌, List, [], ◌∷◌, length, Ok, Err, IfErr, MatchResult};
ghost use Rattle.fd_language.specs.Term.{Var, Int};
ghost use Rattle.fd_model.specs.Linear as linear;
ghost use Rattle.fd_model.specs.Linear.{of_both, difference_of, sum_of, product_of, collect_term};
ghost use Rattle.term_pool.specs.Terms.{term_of};
ghost use Rattle.linear_forms.specs.declared.LinearFault.TheVariants as fault;
ghost use Rattle.linear_forms.specs.declared.walk.Task.TheVariants as task;
ghost use Rattle.linear_forms.specs.LinearForm.{IsOwnFault};
ghost use Rattle.linear_forms.specs.Sums.{Gives, signed};
ghost use Rattle.linear_forms.specs.Tasks.{before, on_two, operator_tasks, compound_tasks, Opens, IsOf, Makes, Applies, TakesTwo, HasNotTwo, Does, Refuses, Means};

use crate::LinearFault;
use crate::sums::{Sum, constant_alone, multiply, plus, variable_alone};
use std::alloc::Global;
use term_pool::{Node, Pool, TermId};

/// What is still to be done.
#[derive(Clone, Copy)]
pub(crate) enum Task {
    /// A term is to be collected, and negated at `true`.
    Collect(TermId, bool),
    /// The last two sums are to be added.
    Add,
    /// The last two sums are to be multiplied.
    Multiply,
}

/// The sums that are made, the last one last, and how many variables were met.
#[derive(Drop)]
pub(crate) struct Made {
    pub sums: Vec<Sum>,
    pub met: u64,
}

/// The fault of an atom. No memory.
fn no_number() -> Result<(), LinearFault>
    ensures { result ≡ Err fault.NotANumber }
{
    Err(LinearFault::NotANumber)
}

/// The tasks of an operator and its operands, the left operand last. No memory.
fn tasks_of_operator(
    name: &str,
    left: TermId,
    right: TermId,
    negated: bool,
) -> Result<[Task; 3], LinearFault>
    ensures { Means (operator_tasks name.now left right negated) (λ tasks. tasks) result }
{
    if name == "+" {
        Ok([
            Task::Add,
            Task::Collect(right, negated),
            Task::Collect(left, negated),
        ])
    } else if name == "-" {
        Ok([
            Task::Add,
            Task::Collect(right, !negated),
            Task::Collect(left, negated),
        ])
    } else if name == "*" {
        Ok([
            Task::Multiply,
            Task::Collect(right, negated),
            Task::Collect(left, false),
        ])
    } else {
        Err(LinearFault::NotANumber)
    }
}

/// The task of a compound term that hasn't two parts: that of an opposite. No memory.
fn task_of_opposite(name: &str, parts: &[TermId], negated: bool) -> Result<Task, LinearFault>
    requires { length parts.now ≡ 2 → ⊥ }
    ensures { Means (compound_tasks name.now parts.now negated) (λ task. task ∷ []) result }
{
    match parts {
        [only] => {
            if name == "-" {
                Ok(Task::Collect(*only, !negated))
            } else {
                Err(LinearFault::NotANumber)
            }
        }
        _ => Err(LinearFault::NotANumber),
    }
}

/// Leaves a compound term to tasks, those of an operator's left operand first.
fn open_compound(
    name: &str,
    parts: &[TermId],
    negated: bool,
    ahead: &mut Vec<Task>,
) -> Result<(), LinearFault>
    ensures { Opens (compound_tasks name.now parts.now negated) ahead.old.items ahead.new.items
        result }
{
    if let [left, right] = parts {
        let tasks = tasks_of_operator(name, *left, *right, negated)?;
        ahead.extend_from_slice(&tasks)?;
    } else {
        ahead.push(task_of_opposite(name, parts, negated)?)?;
    }
    Ok(())
}

impl Made {
    fn push_variable(
        &mut self,
        alloc: Global,
        variable: u64,
        negated: bool,
    ) -> Result<(), LinearFault>
        ensures { Applies (λ ss. before ss (signed negated (collect_term (Var variable)))) self.old
            self.new result }
    {
        let Some(met) = self.met.checked_add(1) else {
            return Err(LinearFault::NoMemory);
        };
        let alone = variable_alone(alloc, variable, negated, self.met)?;
        self.sums.push(alone)?;
        self.met = met;
        Ok(())
    }

    fn push_constant(
        &mut self,
        alloc: Global,
        integer: i64,
        negated: bool,
    ) -> Result<(), LinearFault>
        ensures { Applies (λ ss. before ss (signed negated (collect_term (Int integer)))) self.old
            self.new result }
    {
        let alone = constant_alone(alloc, integer, negated)?;
        self.sums.push(alone)?;
        Ok(())
    }

    /// Collects a variable or an integer, and leaves another term to tasks.
    fn collect(
        &mut self,
        alloc: Global,
        pool: &Pool,
        term: TermId,
        negated: bool,
        ahead: &mut Vec<Task>,
    ) -> Result<(), LinearFault>
        requires { term.number < length pool.now.entries }
        ensures { MatchResult result (λ _. Does pool.now (task.Collect term negated) self.old
            ahead.old.items self.new ahead.new.items) (Refuses pool.now (task.Collect term negated)
            self.old) }
    {
        match pool.view(term) {
            Node::Var(variable) => self.push_variable(alloc, variable, negated),
            Node::Int(integer) => self.push_constant(alloc, integer, negated),
            Node::Atom(_) => no_number(),
            Node::Comp(name, parts) => open_compound(pool.name_of(name), parts, negated, ahead),
        }
    }

    /// The last two sums. There are two, since an operator stands behind its operands. No memory.
    fn take_two(&mut self) -> Result<(Sum, Sum), LinearFault>
        ensures taken { MatchResult result (λ p. (ss : List linear.Sum) → Makes self.old ss
            → TakesTwo self.old p.0 p.1 self.new ss) (λ f. (ss : List linear.Sum)
            → Makes self.old ss → HasNotTwo f ss) }
        ensures memory { IfErr result IsOwnFault }
    {
        let Some(right) = self.sums.pop() else {
            return Err(LinearFault::NotANumber);
        };
        let Some(left) = self.sums.pop() else {
            return Err(LinearFault::NotANumber);
        };
        Ok((left, right))
    }

    fn add(&mut self) -> Result<(), LinearFault>
        ensures { Applies (on_two sum_of) self.old self.new result }
    {
        let (left, right) = self.take_two()?;
        let whole = plus(left, right)?;
        self.sums.push(whole)?;
        Ok(())
    }

    fn multiply(&mut self, alloc: Global) -> Result<(), LinearFault>
        ensures { Applies (on_two product_of) self.old self.new result }
    {
        let (left, right) = self.take_two()?;
        let whole = multiply(alloc, left, right)?;
        self.sums.push(whole)?;
        Ok(())
    }

    fn take(
        &mut self,
        alloc: Global,
        pool: &Pool,
        task: Task,
        ahead: &mut Vec<Task>,
    ) -> Result<(), LinearFault>
        requires { IsOf pool.now task }
        ensures { MatchResult result (λ _. Does pool.now task self.old ahead.old.items self.new
            ahead.new.items) (Refuses pool.now task self.old) }
    {
        match task {
            Task::Collect(term, negated) => self.collect(alloc, pool, term, negated, ahead),
            Task::Add => self.add(),
            Task::Multiply => self.multiply(alloc),
        }
    }
}

/// Left minus right as a sum.
pub(crate) fn collect_difference(
    alloc: Global,
    pool: &Pool,
    left: TermId,
    right: TermId,
) -> Result<Sum, LinearFault>
    requires left { left.number < length pool.now.entries }
    requires right { right.number < length pool.now.entries }
    ensures { (lo : ℕ) × (hi : ℕ)
        × Gives (of_both difference_of (collect_term (term_of pool.now left))
        (collect_term (term_of pool.now right))) lo hi result }
{
    let mut made = Made {
        sums: Vec::new(alloc),
        met: 0,
    };
    let mut ahead = Vec::new(alloc);
    ahead.extend_from_slice(&[
        Task::Add,
        Task::Collect(right, true),
        Task::Collect(left, false),
    ])?;
    while let Some(task) = ahead.pop() {
        made.take(alloc, pool, task, &mut ahead)?;
    }
    match made.sums.pop() {
        Some(whole) => Ok(whole),
        None => Err(LinearFault::NotANumber),
    }
}
