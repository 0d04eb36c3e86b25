//! The variables of a sentence, numbered from 0 as they come.

ghost use Rattle.std.specs.Prelude.{◌≡◌, ◌<◌, ◌++◌, ◌∷◌, [], ℕ, List, length, slice_get, Some, None, IfOk, OnOk, MatchOption};
ghost use Rattle.term_reader.specs.VariableNumbers.{IsIndexed, id_number, with_id};

use fd_language::NoMemory;
use std::alloc::Global;
use std::mem::replace;
use term_pool::AtomId;

/// The names of the variables so far, by their numbers.
#[derive(Drop)]
pub(crate) struct Variables {
    names: Vec<AtomId>,
    /// By the number of a name the number of the variable that had it last.
    numbers: Vec<usize>,
    /// The name of variables of which each is one of its own.
    anonymous: AtomId,
}

/// Makes the vector reach past the index.
fn reach(numbers: &mut Vec<usize>, index: usize) -> Result<(), NoMemory>
    ensures kept { OnOk result ((more : List ℕ) × (numbers.new.items ≡ numbers.old.items ++ more)) }
    ensures reached { OnOk result (index < length numbers.new.items) }
{
    while numbers.len() <= index {
        numbers.push(0)?;
    }
    Ok(())
}

impl Variables {
    pub(crate) fn new(alloc: Global, anonymous: AtomId) -> Variables
        ensures names { result.names.items ≡ [] }
        ensures anonymous { result.anonymous ≡ anonymous }
        ensures indexed { IsIndexed result.anonymous result.names.items result.numbers.items }
    {
        Variables {
            names: Vec::new(alloc),
            numbers: Vec::new(alloc),
            anonymous,
        }
    }

    fn find(&self, name: AtomId) -> Option<usize>
        ensures { MatchOption result ((j : ℕ) → slice_get self.now.names.items j ≡ Some name
            → slice_get self.now.numbers.items name.number ≡ Some j → ⊥)
            (λ k. (slice_get self.now.names.items k ≡ Some name)
            × (slice_get self.now.numbers.items name.number ≡ Some k)) }
    {
        let Some(number) = self.numbers.get(name.number).copied() else {
            return None;
        };
        let Some(named) = self.names.get(number).copied() else {
            return None;
        };
        if named.number == name.number {
            Some(number)
        } else {
            None
        }
    }

    fn add(&mut self, name: AtomId) -> Result<usize, NoMemory>
        requires indexed { IsIndexed self.old.anonymous self.old.names.items
            self.old.numbers.items }
        requires new { (j : ℕ) → slice_get self.old.names.items j ≡ Some name → name
            ≡ self.old.anonymous }
        ensures number { IfOk result (λ n. n ≡ length self.old.names.items) }
        ensures names { OnOk result (self.new.names.items ≡ self.old.names.items ++ name ∷ []) }
        ensures anonymous { self.new.anonymous ≡ self.old.anonymous }
        ensures indexed { OnOk result (IsIndexed self.new.anonymous self.new.names.items
            self.new.numbers.items) }
    {
        let number = self.names.len();
        reach(&mut self.numbers, name.number)?;
        self.numbers[name.number] = number;
        self.names.push(name)?;
        Ok(number)
    }

    /// The number of the variable with this name.
    pub(crate) fn number(&mut self, name: AtomId) -> Result<usize, NoMemory>
        requires { IsIndexed self.old.anonymous self.old.names.items self.old.numbers.items }
        ensures number { IfOk result (λ n. n ≡ id_number self.old.anonymous self.old.names.items
            name) }
        ensures names { OnOk result (self.new.names.items ≡ with_id self.old.anonymous
            self.old.names.items name) }
        ensures anonymous { self.new.anonymous ≡ self.old.anonymous }
        ensures indexed { OnOk result (IsIndexed self.new.anonymous self.new.names.items
            self.new.numbers.items) }
    {
        if name.number == self.anonymous.number {
            return self.add(name);
        }
        match self.find(name) {
            Some(number) => Ok(number),
            None => self.add(name),
        }
    }

    /// The names; after it there is no variable.
    pub(crate) fn take(&mut self, alloc: Global) -> Vec<AtomId>
        ensures names { result.items ≡ self.old.names.items }
        ensures none { self.new.names.items ≡ [] }
        ensures anonymous { self.new.anonymous ≡ self.old.anonymous }
        ensures indexed { IsIndexed self.new.anonymous self.new.names.items self.new.numbers.items }
    {
        replace(&mut self.names, Vec::new(alloc))
    }
}
