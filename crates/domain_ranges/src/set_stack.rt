//! Sets that wait for their operators.

ghost use Rattle.std.specs.Prelude.{◌≡◌, ◌<◌, ◌≤◌, ◌+◌, ◌-◌, ◌||◌, ◌==◌, ℕ, List, [], ◌∷◌, length, filter, IfOk, IfSome, OnOk, OnErr, MatchOption};
ghost use Rattle.fd_language.specs.Family.{has, universe, IsRising};
ghost use Rattle.domain_ranges.specs.Spans.{IsSpans};
ghost use Rattle.domain_ranges.specs.Narrowing.{between};
ghost use Rattle.domain_ranges.specs.StackedSets.{numbers};

use crate::{Domain, intervals};
use fd_language::{INFINITY, NoMemory};
use std::alloc::Global;
use std::marker::Model;

/// Sets that wait for their operators, the last one on top.
///
/// A contract sees the sets, the one on top first, and how many of them there may be before their number takes memory.
/// A call that answers `NoMemory` leaves the sets as they were.
#[derive(Drop)]
pub struct SetStack {
    alloc: Global,
    spans: Vec<(u32, u32)>,
    starts: Vec<usize>,
}

impl Model for SetStack {
    ghost use Rattle.std.specs.Prelude.{reverse, length, vec_capacity};
    ghost use Rattle.domain_ranges.specs.StackedSets.{StackedSets, stacked, AreStarts, AreIntervals};

    ghost Value = { StackedSets };

    ghost view = { λ s. record {
      sets = stacked (reverse s.starts.items) s.spans.items;
      room =
          vec_capacity s.starts;
    } };

    ghost invariant = { λ s. AreStarts (reverse s.starts.items) (length s.spans.items)
        × AreIntervals s.spans.items };
}

impl SetStack {
    /// No sets.
    pub fn new(alloc: Global) -> SetStack
        ensures { result.sets ≡ [] }
    {
        SetStack {
            alloc,
            spans: Vec::new(alloc),
            starts: Vec::new(alloc),
        }
    }

    /// Makes room for so many more sets of at most two intervals.
    pub fn reserve(&mut self, more: usize) -> Result<(), NoMemory>
        ensures sets { self.new.sets ≡ self.old.sets }
        ensures kept { self.old.room ≤ self.new.room }
        ensures room { OnOk result (length self.old.sets + more ≤ self.new.room) }
    {
        self.spans.reserve(more.saturating_mul(2))?;
        self.starts.reserve(more)?;
        Ok(())
    }

    /// Takes all sets away.
    pub fn clear(&mut self)
        ensures sets { self.new.sets ≡ [] }
        ensures room { self.new.room ≡ self.old.room }
    {
        self.spans.clear();
        self.starts.clear();
    }

    /// The numbers from `lo` to `hi` that are in 0 to `INFINITY` wait. There is room.
    pub fn push_interval(&mut self, lo: i128, hi: i128) -> Result<(), NoMemory>
        requires { length self.old.sets < self.old.room }
        ensures pushed { OnOk result (self.new.sets ≡ between lo hi ∷ self.old.sets) }
        ensures unchanged { OnErr result (self.new.sets ≡ self.old.sets) }
        ensures room { self.new.room ≡ self.old.room }
    {
        match intervals::cut(lo, hi) {
            Some(span) => self.put(&[span]),
            None => self.put(&[]),
        }
    }

    /// The numbers of the intervals wait. There is room.
    fn put(&mut self, spans: &[(u32, u32)]) -> Result<(), NoMemory>
        requires spans { IsSpans 0 INFINITY spans.now }
        requires room { length self.old.sets < self.old.room }
        ensures pushed { OnOk result (self.new.sets ≡ numbers spans.now ∷ self.old.sets) }
        ensures unchanged { OnErr result (self.new.sets ≡ self.old.sets) }
        ensures room { self.new.room ≡ self.old.room }
    {
        let from = self.spans.len();
        self.spans.extend_from_slice(spans)?;
        self.starts.push_reserved(from);
        Ok(())
    }

    /// The domain waits. There is room.
    pub fn push(&mut self, domain: &Domain) -> Result<(), NoMemory>
        requires { length self.old.sets < self.old.room }
        ensures pushed { OnOk result (self.new.sets ≡ domain.now ∷ self.old.sets) }
        ensures unchanged { OnErr result (self.new.sets ≡ self.old.sets) }
        ensures room { self.new.room ≡ self.old.room }
        ensures rising { IsRising 0 INFINITY domain.now }
    {
        self.put(domain.spans())
    }

    /// One more number in the set on top, if there is one. Only its interval may take memory.
    pub fn add(&mut self, n: u32) -> Result<(), NoMemory>
        requires { n ≤ INFINITY }
        ensures added { OnOk result ((r : List ℕ) (rest : List (List ℕ)) → self.old.sets ≡ r ∷ rest
            → self.new.sets ≡ filter (λ k. has r k || (k == n)) (universe INFINITY) ∷ rest) }
        ensures height { length self.new.sets ≡ length self.old.sets }
        ensures unchanged { OnErr result (self.new.sets ≡ self.old.sets) }
        ensures room { self.new.room ≡ self.old.room }
    {
        self.spans.push((n, n))?;
        Ok(())
    }

    /// Takes the set on top away, if there is one.
    pub fn pop(&mut self) -> Result<Option<Domain>, NoMemory>
        ensures popped { IfOk result (λ o. MatchOption o (self.old.sets ≡ []) (λ d. self.old.sets
            ≡ d ∷ self.new.sets)) }
        ensures left { IfOk result (λ o. IfSome o (λ _. length self.new.sets < self.new.room)) }
        ensures fewer { OnOk result (length self.new.sets ≤ length self.old.sets - 1) }
        ensures unchanged { OnErr result (self.new.sets ≡ self.old.sets) }
        ensures room { self.new.room ≡ self.old.room }
    {
        let Some(from) = self.starts.pop() else {
            return Ok(None);
        };
        match intervals::settled(self.alloc, &self.spans[from..]) {
            Ok(list) => {
                self.spans.truncate(from);
                Ok(Some(Domain::of_list(list)))
            }
            Err(refused) => {
                self.starts.push_reserved(from);
                Err(refused)
            }
        }
    }

    /// The union of the two sets on top waits in their place, if there are two. Their intervals stay where they are.
    pub fn unite(&mut self)
        ensures united { (r q : List ℕ) (rest : List (List ℕ)) → self.old.sets ≡ q ∷ r ∷ rest
            → self.new.sets ≡ filter (λ n. has r n || has q n) (universe INFINITY) ∷ rest }
        ensures fewer { length self.new.sets ≤ length self.old.sets - 1 }
        ensures room { self.new.room ≡ self.old.room }
    {
        let _top = self.starts.pop();
    }
}
