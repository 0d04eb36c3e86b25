//! The agents of a store: what was posted, with the arguments of all in one list.

ghost use Rattle.std.specs.Prelude.{◌≡◌, ◌<◌, ◌+◌, ◌-◌, ◌^◌, ◌++◌, ◌∷◌, [], ℕ, min, false, length, take, OnOk, OnErr, IfOk};
ghost use Rattle.fd_language.specs.declared.TheConstants.{INFINITY as TOP};
ghost use Rattle.fd_language.specs.Family.{IsFamily};
ghost use Rattle.fd_language.specs.PostfixRanges.{nodes_of};
ghost use Rattle.fd_language.specs.Range.{set_of, is_none_left};
ghost use Rattle.domain_ranges.specs.Narrowing.{IsNarrowed};
ghost use Rattle.range_code.specs.Frames.{family_of, IsArgumentFrame};
ghost use Rattle.range_code.specs.SetReaches.{IsReach};
ghost use Rattle.propagate_queue.specs.Instances.{posting_of};
ghost use Rattle.propagate_queue.specs.Postings.{Posting, ranged, posting_at};

use domain_ranges::{Domain, Narrowed, View};
use fd_language::NoMemory;
use range_code::{
    Activations, Arg, Quick, RangeCode, Reach, Stacks, find_reach, narrow, quick_of, quick_reach,
};
use std::alloc::Global;
use std::marker::Model;
use std::rc::Rc;

/// The code and the target of an agent, where its arguments stand, and the quick form of the code with these arguments. It takes 64 bytes.
#[derive(Drop)]
struct Agent {
    code: Rc<RangeCode>,
    target: usize,
    first: usize,
    count: usize,
    quick: Quick,
}

const _: () = prove!(size_of::<Agent>() == 64);

/// The agents in the order in which they were posted, with the stacks on which their ranges are evaluated.
/// An agent's number is its place.
#[derive(Drop)]
pub(crate) struct Agents {
    list: Vec<Agent>,
    args: Vec<Arg>,
    stacks: Stacks,
}

impl Model for Agents {
    ghost use Rattle.std.specs.Prelude.{List};
    ghost use Rattle.propagate_queue.specs.Postings.{Posting, postings_coded};

    ghost Value = { List Posting };

    ghost coded = { postings_coded };

    ghost use Rattle.propagate_queue.specs.AgentArguments.{laid_out, AreLaid, AreQuick, HaveRoom};

    ghost view = { λ a. laid_out a.list.items a.args.items };

    ghost invariant = { λ a. AreLaid a.list.items a.args.items × HaveRoom a.stacks a.list.items
        × AreQuick a.list.items a.args.items };
}

impl Agents {
    /// No agents.
    pub fn new(alloc: Global) -> Agents
        ensures { result ≡ [] }
    {
        Agents {
            list: Vec::new(alloc),
            args: Vec::new(alloc),
            stacks: Stacks::new(alloc),
        }
    }

    /// How many there are.
    pub fn len(&self) -> usize
        ensures { result ≡ length self.now }
    {
        self.list.len()
    }

    /// The variable that an agent narrows.
    pub fn target(&self, number: usize) -> usize
        requires { number < length self.now }
        ensures { result ≡ (posting_at self.now number).target }
    {
        self.list[number].target
    }

    /// The cost of an agent: the number of nodes of its range.
    pub fn cost(&self, number: usize) -> usize
        requires { number < length self.now }
        ensures { result ≡ length (nodes_of (posting_at self.now number).range) }
    {
        self.list[number].code.range().nodes().len()
    }

    /// The set of the range of an agent, as far as numbers tell it. No set of the view is empty.
    #[inline(always)]
    pub fn find_reach<V: View>(&self, number: usize, view: &V) -> Reach
        requires number { number < length self.now }
        requires frame { IsArgumentFrame (length (V.sets view.now))
            (posting_at self.now number).range (posting_at self.now number).args }
        requires some { (k : ℕ) → is_none_left (family_of (V.sets view.now) k) ≡ false }
        ensures { IsReach
            (set_of TOP (family_of (V.sets view.now)) (ranged (posting_at self.now number)).range)
            result }
    {
        let agent = &self.list[number];
        if let Quick::Other = agent.quick {
            let end = agent.first + agent.count;
            let args = &self.args[agent.first..end];
            return find_reach(&agent.code, args, view);
        }
        quick_reach(agent.quick, view)
    }

    /// What the range of an agent leaves of `target`, and one more activation in `n`. No set of the view is empty.
    #[inline(never)]
    pub fn narrow<V: View>(
        &mut self,
        number: usize,
        view: &V,
        target: &Domain,
        n: &mut Activations,
    ) -> Result<Narrowed, NoMemory>
        requires number { number < length self.old }
        requires frame { IsArgumentFrame (length (V.sets view.now))
            (posting_at self.old number).range (posting_at self.old number).args }
        requires some { (k : ℕ) → is_none_left (family_of (V.sets view.now) k) ≡ false }
        requires family { IsFamily TOP (family_of (V.sets view.now)) }
        ensures narrowed { IfOk result (IsNarrowed target.now
            (set_of TOP (family_of (V.sets view.now))
            (ranged (posting_at self.old number)).range)) }
        ensures unchanged { self.new ≡ self.old }
        ensures count { n.new.count ≡ min (n.old.count + 1) (2 ^ 64 - 1) }
    {
        let agent = &self.list[number];
        let end = agent.first + agent.count;
        let args = &self.args[agent.first..end];
        narrow(&agent.code, args, view, target, &mut self.stacks, n)
    }

    /// One more agent.
    pub fn push(&mut self, code: Rc<RangeCode>, target: usize, args: &[Arg]) -> Result<(), NoMemory>
        ensures added { OnOk result (self.new ≡ self.old
            ++ posting_of code.value target args.now ∷ []) }
        ensures unchanged { OnErr result (self.new ≡ self.old) }
    {
        self.list.reserve(1)?;
        self.stacks.reserve(&code)?;
        let first = self.args.len();
        let count = args.len();
        let quick = quick_of(&code, args);
        self.args.extend_from_slice(args)?;
        self.list.push_reserved(Agent {
            code,
            target,
            first,
            count,
            quick,
        });
        Ok(())
    }

    /// Takes away all agents but the first `n`.
    pub fn truncate(&mut self, n: usize)
        ensures { self.new ≡ take n self.old }
    {
        if n < self.list.len() {
            let first = self.list[n].first;
            self.args.truncate(first);
            self.list.truncate(n);
        }
    }
}
