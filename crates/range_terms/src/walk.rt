//! The walk over a term, node by node.

ghost use Rattle.std.specs.Prelude.{◌≡◌, ◌<◌, ◌*◌, [], length, IfOk, OnOk};
ghost use Rattle.term_pool.specs.Terms.{term_of, size};
ghost use Rattle.term_pool.specs.PlacedTerms.{placed_of};
ghost use Rattle.range_terms.specs.TermNodes.{wanted};
ghost use Rattle.range_terms.specs.Walk.{of_task, task_weight, IsOf, Puts, Refuses, Replaces, IsLeft};
ghost use Rattle.range_terms.specs.Forms.{of_operand};
ghost use Rattle.range_terms.specs.declared.forms.Position.TheVariants as place_in;

use crate::forms::{Operand, Position, RangeForm, form_of};
use fd_language::{NoMemory, RangeNode};
use std::alloc::Global;
use term_pool::{Pool, TermId};

/// What is still ahead.
#[derive(Clone, Copy)]
pub(crate) enum Task {
    /// A part of the term.
    Read(Operand),
    /// A node whose operands are read, with its place.
    Put(RangeNode, usize),
}

/// What is read so far: the nodes with their places, and the smallest place of what fits nowhere.
#[derive(Drop)]
pub(crate) struct Found {
    pub nodes: Vec<RangeNode>,
    pub places: Vec<usize>,
    pub offender: Option<usize>,
}

impl Found {
    fn put(&mut self, node: RangeNode, place: usize) -> Result<(), NoMemory>
        ensures { OnOk result (Puts node place self.old self.new) }
    {
        self.nodes.push(node)?;
        self.places.push(place)?;
        Ok(())
    }

    fn refuse(&mut self, place: usize)
        ensures { Refuses place self.old self.new }
    {
        self.offender = match self.offender {
            Some(earlier) => Some(earlier.min(place)),
            None => Some(place),
        };
    }

    /// Reads a part, and leaves its operands to tasks.
    fn read(
        &mut self,
        pool: &Pool,
        operand: Operand,
        infinity: u32,
        ahead: &mut Vec<Task>,
    ) -> Result<(), NoMemory>
        requires { operand.term.number < length pool.now.entries }
        ensures { OnOk result (Replaces infinity pool.now (of_operand infinity pool.now operand)
            (2 * size (term_of pool.now operand.term)) self.old ahead.old.items self.new
            ahead.new.items) }
    {
        let place = pool.place(operand.term);
        match form_of(pool, operand, infinity) {
            RangeForm::Leaf(node) => self.put(node, place)?,
            RangeForm::Unary(node, only) => {
                ahead.extend_from_slice(&[Task::Put(node, place), Task::Read(only)])?;
            }
            RangeForm::Binary(node, first, second) => {
                ahead.extend_from_slice(&[
                    Task::Put(node, place),
                    Task::Read(second),
                    Task::Read(first),
                ])?;
            }
            RangeForm::Misfit => self.refuse(place),
        }
        Ok(())
    }

    fn take(
        &mut self,
        pool: &Pool,
        task: Task,
        infinity: u32,
        ahead: &mut Vec<Task>,
    ) -> Result<(), NoMemory>
        requires { IsOf pool.now task }
        ensures { OnOk result (Replaces infinity pool.now (of_task infinity pool.now task)
            (task_weight pool.now task) self.old ahead.old.items self.new ahead.new.items) }
    {
        match task {
            Task::Read(operand) => self.read(pool, operand, infinity, ahead),
            Task::Put(node, place) => self.put(node, place),
        }
    }
}

/// All that is found of a term where a range is wanted. `infinity` is the number of the word.
pub(crate) fn read_term(
    alloc: Global,
    pool: &Pool,
    t: TermId,
    infinity: u32,
) -> Result<Found, NoMemory>
    requires { t.number < length pool.now.entries }
    ensures { IfOk result (λ f. IsLeft infinity pool.now
        (wanted infinity place_in.Range (placed_of pool.now t)) f []) }
{
    let mut found = Found {
        nodes: Vec::new(alloc),
        places: Vec::new(alloc),
        offender: None,
    };
    let mut ahead = Vec::new(alloc);
    ahead.push(Task::Read(Operand {
        term: t,
        position: Position::Range,
    }))?;
    while let Some(task) = ahead.pop() {
        found.take(pool, task, infinity, &mut ahead)?;
    }
    Ok(found)
}
