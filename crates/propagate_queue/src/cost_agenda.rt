//! An agenda that gives the cheapest agent.

ghost use Rattle.std.specs.Prelude.{◌≡◌, ◌<◌, ◌≤◌, ◌+◌, ◌-◌, ◌^◌, min, ℕ, [], ◌∷◌, length, All, OnOk, IfSome, IfNone};
ghost use Rattle.std.specs.List.Sorted.{IsPermutation};
ghost use Rattle.propagate_queue.specs.Queues.{times};
ghost use Rattle.propagate_queue.specs.AgendaEntries.{agents_of, IsCheapest};

use crate::agenda::Agenda;
use fd_language::NoMemory;
use std::alloc::Global;
use std::cmp::Reverse;
use std::collections::BinaryHeap;
use std::marker::Model;

/// An agenda that gives an agent of least cost, and of several the one that was put on it first.
///
/// Each agent that waits shows its cost and its turn, which is how many were put on the agenda before it.
/// That number stands still at 2^64 - 1.
#[derive(Drop)]
pub struct Cheapest {
    heap: BinaryHeap<Reverse<(usize, u64, usize)>>,
    puts: u64,
}

impl Model for Cheapest {
    ghost use Rattle.propagate_queue.specs.AgendaEntries.{AgendaEntries};

    ghost Value = { AgendaEntries };

    ghost use Rattle.std.specs.Prelude.{◌-◌, map};
    ghost use Rattle.std.specs.BinaryHeap.{heap_items, heap_len, heap_capacity};
    ghost use Rattle.propagate_queue.specs.AgendaHeap.{waiting, AreHeaped};

    ghost view = { λ c. record {
      waiting = map waiting (heap_items c.heap);
      puts = c.puts;
      spare = heap_capacity c.heap - heap_len c.heap;
    } };

    ghost invariant = { λ c. AreHeaped (heap_items c.heap) c.puts };
}

impl Cheapest {
    /// No agent waits.
    pub fn new(alloc: Global) -> Cheapest
        ensures waiting { result.waiting ≡ [] }
        ensures puts { result.puts ≡ 0 }
    {
        Cheapest {
            heap: BinaryHeap::new(alloc),
            puts: 0,
        }
    }
}

impl Agenda for Cheapest {
    ghost agents = { λ c. agents_of c.waiting };

    ghost spare = { λ c. c.spare };

    fn reserve(&mut self, n: usize) -> Result<(), NoMemory>
        ensures waiting { self.new.waiting ≡ self.old.waiting }
        ensures puts { self.new.puts ≡ self.old.puts }
        ensures list { agents_of self.new.waiting ≡ agents_of self.old.waiting }
        ensures kept { self.old.spare ≤ self.new.spare }
        ensures room { OnOk result (n ≤ self.new.spare) }
    {
        self.heap.reserve(n)?;
        Ok(())
    }

    fn put(&mut self, agent: usize, cost: usize)
        requires { 0 < self.old.spare }
        ensures waits { IsPermutation
            (record { agent = agent; cost = cost; turn = self.old.puts } ∷ self.old.waiting)
            self.new.waiting }
        ensures puts { self.new.puts ≡ min (self.old.puts + 1) (2 ^ 64 - 1) }
        ensures later { self.old.puts < 2 ^ 64 - 1
            → All (λ w. w.turn < self.old.puts) self.old.waiting }
        ensures added { (k : ℕ)
            → times k (agents_of self.new.waiting) ≡ times k (agent ∷ agents_of self.old.waiting) }
        ensures len { length (agents_of self.new.waiting)
            ≡ length (agents_of self.old.waiting) + 1 }
        ensures room { self.old.spare ≤ self.new.spare + 1 }
    {
        let _ = self.heap.push(Reverse((cost, self.puts, agent)));
        self.puts = self.puts.saturating_add(1);
    }

    fn take(&mut self) -> Option<usize>
        ensures cheapest { IfSome result (IsCheapest self.old.waiting self.new.waiting) }
        ensures puts { self.new.puts ≡ self.old.puts }
        ensures none { IfNone result (agents_of self.old.waiting ≡ []) }
        ensures empty { IfNone result (agents_of self.new.waiting ≡ []) }
        ensures taken { IfSome result (λ a. (k : ℕ)
            → times k (agents_of self.old.waiting) ≡ times k (a ∷ agents_of self.new.waiting)) }
        ensures len { IfSome result (λ _.
            length (agents_of self.old.waiting) ≡ length (agents_of self.new.waiting) + 1) }
        ensures room { IfSome result (λ _. self.old.spare + 1 ≤ self.new.spare) }
        ensures kept { IfNone result (self.old.spare ≤ self.new.spare) }
    {
        let Reverse((_, _, agent)) = self.heap.pop()?;
        Some(agent)
    }
}
