//! The agents that wait for an activation.

ghost use Rattle.std.specs.Prelude.{◌≡◌, ◌<◌, ◌≤◌, ◌+◌, ℕ, List, [], ◌∷◌, ◌++◌, length, drop, vec_len, vec_capacity, OnOk, IfSome, IfNone, MatchOption};
ghost use Rattle.propagate_queue.specs.Queues.{times};

use fd_language::NoMemory;
use std::alloc::Global;
use std::marker::Model;

/// The agents that wait for an activation, each with a cost.
pub trait Agenda {
    /// The agents that wait. One may wait several times.
    ghost agents: { Self → List ℕ };

    /// How many more agents may be put on it without memory.
    ghost spare: { Self → ℕ };

    /// Makes room for `n` more.
    fn reserve(&mut self, n: usize) -> Result<(), NoMemory>
        ensures list { agents self.new ≡ agents self.old }
        ensures kept { spare self.old ≤ spare self.new }
        ensures room { OnOk result (n ≤ spare self.new) };

    /// One more agent. There is room for it.
    fn put(&mut self, agent: usize, cost: usize)
        requires { 0 < spare self.old }
        ensures added { (k : ℕ) → times k (agents self.new) ≡ times k (agent ∷ agents self.old) }
        ensures len { length (agents self.new) ≡ length (agents self.old) + 1 }
        ensures room { spare self.old ≤ spare self.new + 1 };

    /// Takes one agent away and leaves its room. `None` comes where no agent waits.
    fn take(&mut self) -> Option<usize>
        ensures none { IfNone result (agents self.old ≡ []) }
        ensures empty { IfNone result (agents self.new ≡ []) }
        ensures taken { IfSome result (λ a. (k : ℕ)
            → times k (agents self.old) ≡ times k (a ∷ agents self.new)) }
        ensures len { IfSome result (λ _.
            length (agents self.old) ≡ length (agents self.new) + 1) }
        ensures room { IfSome result (λ _. spare self.old + 1 ≤ spare self.new) }
        ensures kept { IfNone result (spare self.old ≤ spare self.new) };
}

/// An agenda that gives the agent that was put on it first.
///
/// Those that wait stand in a list from the place `first` on, and no more than `room` wait at once. Once `first` is past
/// `farthest` they are moved to the front of the list. The list holds at least twice as many as may wait, so a move of
/// `n` agents comes after at least `n` were taken.
#[derive(Drop)]
pub struct Fifo {
    list: Vec<usize>,
    first: usize,
    room: usize,
    farthest: usize,
}

impl Model for Fifo {
    ghost use Rattle.propagate_queue.specs.Lines.{Line};

    ghost Value = { Line };

    ghost use Rattle.std.specs.Prelude.{◌-◌, drop, vec_len, vec_capacity};
    ghost use Rattle.propagate_queue.specs.Lines.{IsLine};

    ghost view = { λ f. record {
      waiting = drop f.first f.list.items;
      spare = f.room - (vec_len f.list - f.first);
    } };

    ghost invariant = { λ f. IsLine (vec_len f.list) (vec_capacity f.list) f.first f.room
        f.farthest };
}

impl Fifo {
    /// No agent waits.
    pub fn new(alloc: Global) -> Fifo
        ensures { result.waiting ≡ [] }
    {
        Fifo {
            list: Vec::new(alloc),
            first: 0,
            room: 0,
            farthest: 0,
        }
    }
}

/// How many places a list of agents has at least, once room was made.
const FEWEST: usize = 64;

/// Takes away the first `n`.
#[inline(never)]
fn drop_first(list: &mut Vec<usize>, n: usize)
    requires { n ≤ vec_len list.old }
    ensures items { list.new.items ≡ drop n list.old.items }
    ensures len { vec_len list.new + n ≡ vec_len list.old }
    ensures capacity { vec_capacity list.new ≡ vec_capacity list.old }
{
    let len = list.len();
    list.copy_within(n..len, 0);
    list.truncate(len - n);
}

impl Agenda for Fifo {
    ghost agents = { λ f. f.waiting };

    ghost spare = { λ f. f.spare };

    // Room is made for more than `n`, so that one more agent at each post doesn't ask for memory each time.
    fn reserve(&mut self, n: usize) -> Result<(), NoMemory> {
        let waiting = self.list.len() - self.first;
        if self.room - waiting < n {
            drop_first(&mut self.list, self.first);
            self.first = 0;
            let more = n.saturating_mul(2).saturating_add(waiting);
            self.list.reserve(more.max(FEWEST))?;
            let places = self.list.capacity();
            self.room = places / 2;
            self.farthest = places - self.room;
        }
        Ok(())
    }

    #[inline(always)]
    fn put(&mut self, agent: usize, _cost: usize)
        requires { 0 < self.old.spare }
        ensures last { self.new.waiting ≡ self.old.waiting ++ agent ∷ [] }
        ensures added { (k : ℕ) → times k self.new.waiting ≡ times k (agent ∷ self.old.waiting) }
        ensures len { length self.new.waiting ≡ length self.old.waiting + 1 }
        ensures room { self.old.spare ≤ self.new.spare + 1 }
    {
        self.list.push_reserved(agent);
    }

    #[inline(always)]
    fn take(&mut self) -> Option<usize>
        ensures first { MatchOption result (self.old.waiting ≡ [])
            (λ a. self.old.waiting ≡ a ∷ self.new.waiting) }
        ensures none { IfNone result (self.old.waiting ≡ []) }
        ensures empty { IfNone result (self.new.waiting ≡ []) }
        ensures taken { IfSome result (λ a. (k : ℕ)
            → times k self.old.waiting ≡ times k (a ∷ self.new.waiting)) }
        ensures len { IfSome result (λ _.
            length self.old.waiting ≡ length self.new.waiting + 1) }
        ensures room { IfSome result (λ _. self.old.spare + 1 ≤ self.new.spare) }
        ensures kept { IfNone result (self.old.spare ≤ self.new.spare) }
    {
        if self.first == self.list.len() {
            self.list.clear();
            self.first = 0;
            return None;
        }
        let agent = self.list[self.first];
        self.first += 1;
        if self.first > self.farthest {
            drop_first(&mut self.list, self.first);
            self.first = 0;
        }
        Some(agent)
    }
}
