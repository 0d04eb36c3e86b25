//! The store: domains of variables under posted ranges, in levels.
//!
//! A mark is made only when the current level is to change. Until then it waits: the levels below begin with as many copies of the current
//! one as marks wait.

ghost use Rattle.std.specs.Prelude.{◌≡◌, ◌⊎◌, ◌<◌, ◌≤◌, ◌+◌, ◌^◌, ◌++◌, ◌∷◌, [], true, false, suc, drop, length, replicate, All, IfOk, OnOk, OnErr};
ghost use Rattle.fd_language.specs.declared.TheConstants.{INFINITY as TOP};
ghost use Rattle.fd_language.specs.Monotonicity.{IsMonotone};
ghost use Rattle.fd_model.specs.ClosedFamilies.{AllPosted};
ghost use Rattle.range_code.specs.Frames.{family_of};
ghost use Rattle.propagate_queue.specs.Instances.{posting_of, posted_by, IsInstance};
ghost use Rattle.propagate_queue.specs.Postings.{ranged, IsPosting};
ghost use Rattle.propagate_queue.specs.PropagationInvariant.{AreDomains, HasNone};

use crate::agenda::Agenda;
use crate::instance::Instance;
use crate::marked::MarkedStore;
use domain_ranges::{Domain, View};
use fd_language::NoMemory;
use range_code::{Activations, Arg, RangeCode};
use std::alloc::Global;
use std::marker::Model;
use std::rc::Rc;

/// How a post ended.
#[derive(Clone, Copy, Debug, PartialEq, Eq)]
pub enum Posted {
    /// The domains are the greatest family that is closed under all that is posted, and none is empty.
    Kept,
    /// That family has an empty set.
    Failed,
}

/// The domains of variables under posted ranges, as a list of levels of which the first is the current one.
///
/// Where memory was wanting once, every later call that answers a Result answers `NoMemory`; the levels below stay as they are.
#[derive(Drop)]
pub struct Store<A: Agenda + Drop> {
    made: MarkedStore<A>,
    waiting: usize,
}

impl<A: Agenda + Drop> Model for Store<A> {
    ghost use Rattle.fd_model.specs.Levels.{Levels, levels_coded};

    ghost Value = { Levels };

    ghost coded = { levels_coded };

    ghost use Rattle.std.specs.Prelude.{◌≡◌, ◌<◌, false};
    ghost use Rattle.propagate_queue.specs.StoreFields.{with_waiting};

    ghost view = { λ s. with_waiting s.made s.waiting };

    ghost invariant = { λ s. 0 < s.waiting → s.made.current.failed ≡ false };
}

ghost use Rattle.propagate_queue.specs.StoreFields.{no_levels, with_variable, with_waiting, step_weight, whole_weight_of_post, IsPosted};
ghost use Rattle.propagate_queue.specs.declared.store.Posted.TheVariants as Ended;

/// Makes the marks that wait. `NoMemory`: there is no room for one, or memory was wanting before.
fn make_marks<A: Agenda + Drop>(
    made: &mut MarkedStore<A>,
    waiting: &mut usize,
) -> Result<(), NoMemory>
    requires { 0 < waiting.old → made.old.current.failed ≡ false }
    ensures current { made.new.current ≡ made.old.current }
    ensures levels { OnOk result (made.new ≡ with_waiting made.old waiting.old) }
    ensures none { OnOk result (waiting.new ≡ 0) }
    ensures fewer { waiting.new ≤ waiting.old }
    ensures below { (with_waiting made.new waiting.new).below
        ≡ (with_waiting made.old waiting.old).below }
    ensures spent { OnErr result (made.new.spent ≡ true) }
{
    while *waiting > 0 {
        made.push_mark()?;
        *waiting -= 1;
    }
    Ok(())
}

impl<A: Agenda + Drop> Store<A> {
    /// One level without variables, where nothing is posted.
    pub fn new(alloc: Global, agenda: A) -> Store<A>
        ensures { result ≡ no_levels }
    {
        Store {
            made: MarkedStore::new(alloc, agenda),
            waiting: 0,
        }
    }

    /// One more variable, which may have any value, and its number. `NoMemory`: there is no room for it, or memory was
    /// wanting before.
    pub fn new_var(&mut self) -> Result<usize, NoMemory>
        ensures number { IfOk result (λ k. k ≡ length self.old.current.sets) }
        ensures added { OnOk result
            (self.new ≡ record self.old { current = with_variable self.old.current }) }
        ensures unspent { OnOk result (self.old.spent ≡ false) }
        ensures below { self.new.below ≡ self.old.below }
        ensures spent { OnErr result (self.new.spent ≡ true) }
    {
        make_marks(&mut self.made, &mut self.waiting)?;
        self.made.new_var()
    }

    /// Posts the ranges behind those that are posted, and narrows the domains until no posted range narrows one further.
    /// `n` goes up by the activations that this takes. On a level that has failed nothing is activated, and it stays failed.
    /// `NoMemory`: memory was wanting, now or before; what the current level then holds isn't told.
    pub fn post(&mut self, list: Vec<Instance>, n: &mut Activations) -> Result<Posted, NoMemory>
        requires { All (IsInstance (length self.old.current.sets)) list.items }
        ensures posted { OnOk result (self.new.current.posted ≡ self.old.current.posted
            ++ posted_by list.items) }
        ensures vars { OnOk result (length self.new.current.sets ≡ length self.old.current.sets) }
        ensures below { self.new.below ≡ self.old.below }
        ensures unspent { OnOk result ((self.old.spent ≡ false) × (self.new.spent ≡ false)) }
        ensures spent { OnErr result (self.new.spent ≡ true) }
        ensures done { IfOk result (λ p. IsPosted p self.new.current) }
        ensures still_failed { self.old.current.failed ≡ true
            → IfOk result (λ p. p ≡ Ended.Failed) × (n.new.count ≡ n.old.count) }
        ensures uncounted { self.old.spent ≡ true → n.new.count ≡ n.old.count }
        ensures count { n.new.count
            ≤ n.old.count + (length list.items + step_weight self.old.current self.new.current) }
        ensures whole { n.new.count ≤ n.old.count
            + (length list.items + whole_weight_of_post self.old.current (posted_by list.items)) }
    {
        make_marks(&mut self.made, &mut self.waiting)?;
        self.made.post(list, n)
    }

    /// Posts one range behind those that are posted, as `post` does with a list of one.
    pub fn post_one(
        &mut self,
        code: Rc<RangeCode>,
        target: usize,
        args: &[Arg],
        n: &mut Activations,
    ) -> Result<Posted, NoMemory>
        requires { IsPosting (length self.old.current.sets)
            (posting_of code.value target args.now) }
        ensures posted { OnOk result (self.new.current.posted ≡ self.old.current.posted
            ++ ranged (posting_of code.value target args.now) ∷ []) }
        ensures vars { OnOk result (length self.new.current.sets ≡ length self.old.current.sets) }
        ensures below { self.new.below ≡ self.old.below }
        ensures unspent { OnOk result ((self.old.spent ≡ false) × (self.new.spent ≡ false)) }
        ensures spent { OnErr result (self.new.spent ≡ true) }
        ensures done { IfOk result (λ p. IsPosted p self.new.current) }
        ensures still_failed { self.old.current.failed ≡ true
            → IfOk result (λ p. p ≡ Ended.Failed) × (n.new.count ≡ n.old.count) }
        ensures uncounted { self.old.spent ≡ true → n.new.count ≡ n.old.count }
        ensures count { n.new.count
            ≤ n.old.count + (1 + step_weight self.old.current self.new.current) }
        ensures whole { n.new.count ≤ n.old.count + (1 + whole_weight_of_post self.old.current
            (ranged (posting_of code.value target args.now) ∷ [])) }
    {
        make_marks(&mut self.made, &mut self.waiting)?;
        self.made.post_one(code, target, args, n)
    }

    /// How many variables the current level has.
    pub fn vars(&self) -> usize
        ensures { result ≡ length self.now.current.sets }
    {
        self.made.vars()
    }

    /// Whether the current level has failed.
    pub fn failed(&self) -> bool
        ensures { result ≡ self.now.current.failed }
    {
        self.made.failed()
    }

    /// The domain of the variable `k`.
    pub fn domain(&self, k: usize) -> &Domain
        requires { k < length self.now.current.sets }
        ensures { result.now ≡ family_of self.now.current.sets k }
    {
        self.made.domain(k)
    }

    /// What holds of the current level.
    pub fn known(&self)
        ensures monotone { AllPosted (λ p. IsMonotone TOP p.range) self.now.current.posted }
        ensures kept { self.now.spent ≡ false → self.now.current.failed ≡ false
            → AreDomains self.now.current.posted self.now.current.sets }
        ensures failed { self.now.spent ≡ false → self.now.current.failed ≡ true
            → HasNone self.now.current.posted (length self.now.current.sets) }
    {
        self.made.known()
    }

    /// From now on every call that answers a Result answers `NoMemory`, as after want of memory of the store's own: for a caller whose
    /// own memory was wanting before it gave the levels back.
    pub fn give_up(&mut self)
        ensures { self.new ≡ record self.old { spent = true } }
    {
        self.made.give_up();
    }

    /// Puts an equal level below the current one, which hasn't failed. `NoMemory`: memory was wanting before, or there are as many
    /// levels below as a number of 64 bits can count; the levels are then as they were. No memory.
    #[tactic(auto, using(crate::proofs::Waiting::many_wait))]
    pub fn push_mark(&mut self) -> Result<(), NoMemory>
        requires { self.old.current.failed ≡ false }
        ensures marked { OnOk result (self.new ≡ record self.old {
          below = self.old.current ∷ self.old.below;
        }) }
        ensures unspent { OnOk result (self.old.spent ≡ false) }
        ensures spent { OnErr result (self.new ≡ record self.old { spent = true }) }
        ensures many { OnErr result (self.old.spent ≡ true
            ⊎ 2 ^ 64 ≤ suc (length self.old.below)) }
    {
        if self.made.spent() {
            return Err(NoMemory);
        }
        if self.waiting == usize::MAX {
            self.made.give_up();
            return Err(NoMemory);
        }
        self.waiting += 1;
        Ok(())
    }

    /// Gives back the level below the current one.
    pub fn pop_mark(&mut self)
        requires { 0 < length self.old.below }
        ensures levels { self.old.below ≡ self.new.current ∷ self.new.below }
        ensures spent { self.new.spent ≡ self.old.spent }
    {
        if self.waiting > 0 {
            self.waiting -= 1;
        } else {
            self.made.pop_mark();
        }
    }

    /// Gives back the level below the current one, which stays below as well.
    #[inline]
    pub fn reset_to_mark(&mut self)
        requires { 0 < length self.old.below }
        ensures back { self.old.below ≡ self.new.current ∷ drop 1 self.old.below }
        ensures below { self.new.below ≡ self.old.below }
        ensures spent { self.new.spent ≡ self.old.spent }
    {
        if self.waiting == 0 {
            self.made.pop_mark();
            self.waiting = 1;
        }
    }

    /// Takes away the `n` levels directly below the current one.
    pub fn drop_marks(&mut self, n: usize)
        requires { n ≤ length self.old.below }
        ensures { self.new ≡ record self.old { below = drop n self.old.below } }
    {
        if n <= self.waiting {
            self.waiting -= n;
        } else {
            self.made.drop_marks(n - self.waiting);
            self.waiting = 0;
        }
    }
}

impl<A: Agenda + Drop> View for Store<A> {
    ghost sets = { λ s. s.current.sets };

    fn domain(&self, k: usize) -> &Domain {
        self.made.domain(k)
    }
}
