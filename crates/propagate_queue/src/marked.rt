//! A store whose marks are made: domains under posted ranges, in levels, each of which is kept.

ghost use Rattle.std.specs.Prelude.{◌≡◌, ◌<◌, ◌≤◌, ◌+◌, ◌++◌, ◌∷◌, [], ℕ, List, true, false, map, take, drop, filter, nat_lt, length, All, IfOk, OnOk, OnErr, MatchBool};
ghost use Rattle.fd_language.specs.declared.TheConstants.{INFINITY as TOP};
ghost use Rattle.fd_language.specs.Monotonicity.{IsMonotone};
ghost use Rattle.fd_model.specs.ClosedFamilies.{AllPosted};
ghost use Rattle.fd_model.specs.Weights.{weights};
ghost use Rattle.range_code.specs.Frames.{family_of};
ghost use Rattle.propagate_queue.specs.Instances.{posting, posting_of, posted_by, IsInstance};
ghost use Rattle.propagate_queue.specs.Postings.{Posting, ranged, ranges_of, IsPosting, AreReaders, IsAdded};
ghost use Rattle.propagate_queue.specs.Queues.{AreQueued};
ghost use Rattle.propagate_queue.specs.PropagationInvariant.{AreDomains, HasNone};

use crate::agenda::Agenda;
use crate::agents::Agents;
use crate::instance::Instance;
use crate::new_agents::{add_agents, add_one};
use crate::propagation::{clear, empty, propagate};
use crate::store::Posted;
use dependency_chains::Chains;
use domain_ranges::{Domain, View};
use domain_trail::Trail;
use fd_language::{Feature, NoMemory};
use range_code::{Activations, Arg, RangeCode};
use std::alloc::Global;
use std::marker::Model;
use std::rc::Rc;

/// The store of the crate, where no mark waits.
#[derive(Drop)]
pub(crate) struct MarkedStore<A: Agenda + Drop> {
    trail: Trail,
    chains: Chains,
    agents: Agents,
    queued: Vec<bool>,
    agenda: A,
    marks: Vec<usize>,
    scratch: Vec<(usize, Feature)>,
    failed: bool,
    spent: bool,
}

impl<A: Agenda + Drop> Model for MarkedStore<A> {
    ghost use Rattle.fd_model.specs.Levels.{Levels, levels_coded};

    ghost Value = { Levels };

    ghost coded = { levels_coded };

    ghost use Rattle.std.specs.Prelude.{reverse};
    ghost use Rattle.propagate_queue.specs.Postings.{ranges_of};
    ghost use Rattle.propagate_queue.specs.StoreFields.{levels_below, IsStore};

    ghost view = { λ s. record {
      current = record { posted = ranges_of s.agents; sets = s.trail.current; failed = s.failed };
      below = levels_below (reverse s.marks.items) s.trail.below (ranges_of s.agents);
      spent = s.spent;
    } };

    ghost invariant = { λ s. IsStore s.agents s.queued.items (A.agents s.agenda)
        (A.spare s.agenda) s.chains s.trail (reverse s.marks.items) s.failed s.spent };
}

ghost use Rattle.propagate_queue.specs.StoreFields.{no_levels, with_variable, step_weight, whole_weight_of_post, IsPosted};
ghost use Rattle.propagate_queue.specs.declared.store.Posted.TheVariants as Ended;

impl<A: Agenda + Drop> MarkedStore<A> {
    /// One level without variables, where nothing is posted.
    pub(crate) fn new(alloc: Global, mut agenda: A) -> MarkedStore<A>
        ensures { result ≡ no_levels }
    {
        empty(&mut agenda);
        MarkedStore {
            trail: Trail::new(alloc),
            chains: Chains::new(alloc),
            agents: Agents::new(alloc),
            queued: Vec::new(alloc),
            agenda,
            marks: Vec::new(alloc),
            scratch: Vec::new(alloc),
            failed: false,
            spent: false,
        }
    }

    /// One more variable, which may have any value, and its number. `NoMemory`: there is no room for it, or memory was
    /// wanting before.
    pub(crate) fn new_var(&mut self) -> Result<usize, NoMemory>
        ensures number { IfOk result (λ k. k ≡ length self.old.current.sets) }
        ensures added { OnOk result
            (self.new ≡ record self.old { current = with_variable self.old.current }) }
        ensures unspent { OnOk result (self.old.spent ≡ false) }
        ensures below { self.new.below ≡ self.old.below }
        ensures spent { OnErr result (self.new.spent ≡ true) }
    {
        if self.spent {
            return Err(NoMemory);
        }
        self.spent = true;
        self.chains.new_var()?;
        let k = self.trail.new_var()?;
        self.spent = false;
        Ok(k)
    }

    /// Posts the ranges behind those that are posted, and narrows the domains until no posted range narrows one further.
    /// `n` goes up by the activations that this takes. On a level that has failed nothing is activated, and it stays failed.
    /// `NoMemory`: memory was wanting, now or before; what the current level then holds isn't told.
    pub(crate) fn post(
        &mut self,
        list: Vec<Instance>,
        n: &mut Activations,
    ) -> Result<Posted, NoMemory>
        requires { All (IsInstance (length self.old.current.sets)) list.items }
        ensures posted { OnOk result (self.new.current.posted ≡ self.old.current.posted
            ++ posted_by list.items) }
        ensures vars { OnOk result (length self.new.current.sets ≡ length self.old.current.sets) }
        ensures below { self.new.below ≡ self.old.below }
        ensures unspent { OnOk result ((self.old.spent ≡ false) × (self.new.spent ≡ false)) }
        ensures spent { OnErr result (self.new.spent ≡ true) }
        ensures done { IfOk result (λ p. IsPosted p self.new.current) }
        ensures still_failed { self.old.current.failed ≡ true
            → IfOk result (λ p. p ≡ Ended.Failed) × (n.new.count ≡ n.old.count) }
        ensures uncounted { self.old.spent ≡ true → n.new.count ≡ n.old.count }
        ensures count { n.new.count
            ≤ n.old.count + (length list.items + step_weight self.old.current self.new.current) }
        ensures whole { n.new.count ≤ n.old.count
            + (length list.items + whole_weight_of_post self.old.current (posted_by list.items)) }
    {
        if self.spent {
            return Err(NoMemory);
        }
        self.spent = true;
        let kept = post_all(
            &mut self.trail,
            &mut self.chains,
            &mut self.agents,
            &mut self.queued,
            &mut self.agenda,
            &mut self.scratch,
            self.failed,
            list,
            n,
        )?;
        self.failed = !kept;
        self.spent = false;
        Ok(if kept { Posted::Kept } else { Posted::Failed })
    }

    /// Posts one range behind those that are posted, as `post` does with a list of one.
    pub(crate) fn post_one(
        &mut self,
        code: Rc<RangeCode>,
        target: usize,
        args: &[Arg],
        n: &mut Activations,
    ) -> Result<Posted, NoMemory>
        requires { IsPosting (length self.old.current.sets)
            (posting_of code.value target args.now) }
        ensures posted { OnOk result (self.new.current.posted ≡ self.old.current.posted
            ++ ranged (posting_of code.value target args.now) ∷ []) }
        ensures vars { OnOk result (length self.new.current.sets ≡ length self.old.current.sets) }
        ensures below { self.new.below ≡ self.old.below }
        ensures unspent { OnOk result ((self.old.spent ≡ false) × (self.new.spent ≡ false)) }
        ensures spent { OnErr result (self.new.spent ≡ true) }
        ensures done { IfOk result (λ p. IsPosted p self.new.current) }
        ensures still_failed { self.old.current.failed ≡ true
            → IfOk result (λ p. p ≡ Ended.Failed) × (n.new.count ≡ n.old.count) }
        ensures uncounted { self.old.spent ≡ true → n.new.count ≡ n.old.count }
        ensures count { n.new.count
            ≤ n.old.count + (1 + step_weight self.old.current self.new.current) }
        ensures whole { n.new.count ≤ n.old.count + (1 + whole_weight_of_post self.old.current
            (ranged (posting_of code.value target args.now) ∷ [])) }
    {
        if self.spent {
            return Err(NoMemory);
        }
        self.spent = true;
        let kept = post_new(
            &mut self.trail,
            &mut self.chains,
            &mut self.agents,
            &mut self.queued,
            &mut self.agenda,
            &mut self.scratch,
            self.failed,
            code,
            target,
            args,
            n,
        )?;
        self.failed = !kept;
        self.spent = false;
        let ended = if kept { Posted::Kept } else { Posted::Failed };
        Ok(ended)
    }

    /// Whether memory was wanting.
    pub(crate) fn spent(&self) -> bool
        ensures { result ≡ self.now.spent }
    {
        self.spent
    }

    /// How many variables the current level has.
    pub(crate) fn vars(&self) -> usize
        ensures { result ≡ length self.now.current.sets }
    {
        self.trail.vars()
    }

    /// Whether the current level has failed.
    pub(crate) fn failed(&self) -> bool
        ensures { result ≡ self.now.current.failed }
    {
        self.failed
    }

    /// The domain of the variable `k`.
    pub(crate) fn domain(&self, k: usize) -> &Domain
        requires { k < length self.now.current.sets }
        ensures { result.now ≡ family_of self.now.current.sets k }
    {
        self.trail.domain(k)
    }

    /// What holds of the current level.
    pub(crate) fn known(&self)
        ensures monotone { AllPosted (λ p. IsMonotone TOP p.range) self.now.current.posted }
        ensures kept { self.now.spent ≡ false → self.now.current.failed ≡ false
            → AreDomains self.now.current.posted self.now.current.sets }
        ensures failed { self.now.spent ≡ false → self.now.current.failed ≡ true
            → HasNone self.now.current.posted (length self.now.current.sets) }
    {
        let _ = &self.agents;
    }

    /// From now on every call that answers a Result answers `NoMemory`, as after want of memory of the store's own: for a caller whose
    /// own memory was wanting before it gave the levels back.
    pub(crate) fn give_up(&mut self)
        ensures { self.new ≡ record self.old { spent = true } }
    {
        self.spent = true;
    }

    /// Puts an equal level below the current one, which hasn't failed. `NoMemory`: there is no room for the mark, or memory
    /// was wanting before; the levels are then as they were.
    pub(crate) fn push_mark(&mut self) -> Result<(), NoMemory>
        requires { self.old.current.failed ≡ false }
        ensures marked { OnOk result (self.new ≡ record self.old {
          below = self.old.current ∷ self.old.below;
        }) }
        ensures unspent { OnOk result (self.old.spent ≡ false) }
        ensures spent { OnErr result (self.new ≡ record self.old { spent = true }) }
    {
        if self.spent {
            return Err(NoMemory);
        }
        self.spent = true;
        self.marks.reserve(1)?;
        self.trail.push_mark()?;
        self.marks.push_reserved(self.agents.len());
        self.spent = false;
        Ok(())
    }

    /// Gives back the level below the current one.
    pub(crate) fn pop_mark(&mut self)
        requires { 0 < length self.old.below }
        ensures levels { self.old.below ≡ self.new.current ∷ self.new.below }
        ensures live { self.new.current.failed ≡ false }
        ensures spent { self.new.spent ≡ self.old.spent }
    {
        let agents = self.marks.pop().unwrap();
        self.trail.pop_mark();
        self.chains.cut_to(agents, self.trail.vars());
        self.agents.truncate(agents);
        self.queued.truncate(agents);
        self.failed = false;
    }

    /// Takes away the `n` levels directly below the current one.
    pub(crate) fn drop_marks(&mut self, n: usize)
        requires { n ≤ length self.old.below }
        ensures { self.new ≡ record self.old { below = drop n self.old.below } }
    {
        let left = self.marks.len() - n;
        self.marks.truncate(left);
        self.trail.drop_marks(n);
    }
}

/// Adds the agents of the list, and propagates unless the level has failed. Whether no domain would be empty.
fn post_all<A: Agenda>(
    trail: &mut Trail,
    chains: &mut Chains,
    agents: &mut Agents,
    queued: &mut Vec<bool>,
    agenda: &mut A,
    scratch: &mut Vec<(usize, Feature)>,
    lost: bool,
    list: Vec<Instance>,
    n: &mut Activations,
) -> Result<bool, NoMemory>
    requires list { All (IsInstance (length trail.old.current)) list.items }
    requires instances { All (IsPosting (length trail.old.current)) agents.old }
    requires monotone { AllPosted (λ p. IsMonotone TOP p.range) (ranges_of agents.old) }
    requires readers { AreReaders (ranges_of agents.old) chains.old.reads }
    requires vars { chains.old.vars ≡ length trail.old.current }
    requires within { All (λ r. r.var < length trail.old.current) chains.old.reads }
    requires flagged { length queued.old.items ≡ length agents.old }
    requires queued { AreQueued queued.old.items (A.agents agenda.old) (A.spare agenda.old) }
    requires empty { A.agents agenda.old ≡ [] }
    requires settled { lost ≡ false → AreDomains (ranges_of agents.old) trail.old.current }
    requires failed { lost ≡ true → HasNone (ranges_of agents.old) (length trail.old.current) }
    ensures agents { OnOk result (agents.new ≡ agents.old ++ map posting list.items) }
    ensures part { (rest : List Posting) × (agents.new ++ rest
        ≡ agents.old ++ map posting list.items) }
    ensures instances { All (IsPosting (length trail.old.current)) agents.new }
    ensures monotone { AllPosted (λ p. IsMonotone TOP p.range) (ranges_of agents.new) }
    ensures readers { AreReaders (ranges_of agents.new) chains.new.reads }
    ensures vars { chains.new.vars ≡ length trail.old.current }
    ensures within { All (λ r. r.var < length trail.old.current) chains.new.reads }
    ensures flagged { length queued.new.items ≡ length agents.new }
    ensures more { length agents.old ≤ length agents.new }
    ensures front { take (length agents.old) agents.new ≡ agents.old }
    ensures kept { (m : ℕ) → m ≤ length agents.old
        → filter (λ r. nat_lt r.agent m) chains.new.reads
        ≡ filter (λ r. nat_lt r.agent m) chains.old.reads }
    ensures below { trail.new.below ≡ trail.old.below }
    ensures sets { length trail.new.current ≡ length trail.old.current }
    ensures queued { OnOk result (AreQueued queued.new.items (A.agents agenda.new)
        (A.spare agenda.new)) }
    ensures empty { OnOk result (A.agents agenda.new ≡ []) }
    ensures done { IfOk result
        (λ b. MatchBool b (AreDomains (ranges_of agents.new) trail.new.current)
        (HasNone (ranges_of agents.new) (length trail.old.current))) }
    ensures lost { lost ≡ true → IfOk result (λ b. b ≡ false) }
    ensures uncounted { lost ≡ true → n.new.count ≡ n.old.count }
    ensures count { n.new.count ≤ n.old.count + (length list.items + weights (ranges_of agents.new)
        (family_of trail.old.current) (family_of trail.new.current)) }
{
    let vars = trail.vars();
    agenda.reserve(queued.len() + list.len())?;
    add_agents(agents, queued, chains, agenda, scratch, vars, list)?;
    if lost {
        clear(agenda, queued);
        return Ok(false);
    }
    propagate(trail, chains, agents, agenda, queued, n)
}

/// Adds one agent, and propagates unless the level has failed. Whether no domain would be empty.
fn post_new<A: Agenda>(
    trail: &mut Trail,
    chains: &mut Chains,
    agents: &mut Agents,
    queued: &mut Vec<bool>,
    agenda: &mut A,
    scratch: &mut Vec<(usize, Feature)>,
    lost: bool,
    code: Rc<RangeCode>,
    target: usize,
    args: &[Arg],
    n: &mut Activations,
) -> Result<bool, NoMemory>
    requires instance { IsPosting (length trail.old.current)
        (posting_of code.value target args.now) }
    requires instances { All (IsPosting (length trail.old.current)) agents.old }
    requires monotone { AllPosted (λ p. IsMonotone TOP p.range) (ranges_of agents.old) }
    requires readers { AreReaders (ranges_of agents.old) chains.old.reads }
    requires vars { chains.old.vars ≡ length trail.old.current }
    requires within { All (λ r. r.var < length trail.old.current) chains.old.reads }
    requires flagged { length queued.old.items ≡ length agents.old }
    requires queued { AreQueued queued.old.items (A.agents agenda.old) (A.spare agenda.old) }
    requires empty { A.agents agenda.old ≡ [] }
    requires settled { lost ≡ false → AreDomains (ranges_of agents.old) trail.old.current }
    requires failed { lost ≡ true → HasNone (ranges_of agents.old) (length trail.old.current) }
    ensures added { IsAdded (posting_of code.value target args.now ∷ []) agents.old agents.new }
    ensures agents { OnOk result (agents.new ≡ agents.old
        ++ posting_of code.value target args.now ∷ []) }
    ensures instances { All (IsPosting (length trail.old.current)) agents.new }
    ensures monotone { AllPosted (λ p. IsMonotone TOP p.range) (ranges_of agents.new) }
    ensures readers { AreReaders (ranges_of agents.new) chains.new.reads }
    ensures vars { chains.new.vars ≡ length trail.old.current }
    ensures within { All (λ r. r.var < length trail.old.current) chains.new.reads }
    ensures flagged { length queued.new.items ≡ length agents.new }
    ensures kept { (m : ℕ) → m ≤ length agents.old
        → filter (λ r. nat_lt r.agent m) chains.new.reads
        ≡ filter (λ r. nat_lt r.agent m) chains.old.reads }
    ensures below { trail.new.below ≡ trail.old.below }
    ensures sets { length trail.new.current ≡ length trail.old.current }
    ensures queued { OnOk result (AreQueued queued.new.items (A.agents agenda.new)
        (A.spare agenda.new)) }
    ensures empty { OnOk result (A.agents agenda.new ≡ []) }
    ensures done { IfOk result
        (λ b. MatchBool b (AreDomains (ranges_of agents.new) trail.new.current)
        (HasNone (ranges_of agents.new) (length trail.old.current))) }
    ensures lost { lost ≡ true → IfOk result (λ b. b ≡ false) }
    ensures uncounted { lost ≡ true → n.new.count ≡ n.old.count }
    ensures count { n.new.count ≤ n.old.count + (1 + weights (ranges_of agents.new)
        (family_of trail.old.current) (family_of trail.new.current)) }
{
    let vars = trail.vars();
    agenda.reserve(queued.len() + 1)?;
    add_one(
        agents, queued, chains, agenda, scratch, vars, code, target, args,
    )?;
    if lost {
        clear(agenda, queued);
        return Ok(false);
    }
    propagate(trail, chains, agents, agenda, queued, n)
}
