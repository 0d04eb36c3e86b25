//! The loop over the agenda.

ghost use Rattle.std.specs.Prelude.{◌≡◌, ◌<◌, ◌≤◌, ◌+◌, ◌||◌, ℕ, [], true, length, All, IfOk, OnOk, MatchBool};
ghost use Rattle.fd_language.specs.declared.TheConstants.{INFINITY as TOP};
ghost use Rattle.fd_language.specs.Family.{has, IsFamily};
ghost use Rattle.fd_language.specs.Monotonicity.{IsMonotone};
ghost use Rattle.fd_model.specs.ClosedFamilies.{AllPosted};
ghost use Rattle.fd_model.specs.Weights.{weights};
ghost use Rattle.range_code.specs.Frames.{family_of};
ghost use Rattle.propagate_queue.specs.Postings.{ranges_of, IsPosting, AreReaders};
ghost use Rattle.propagate_queue.specs.Queues.{flag_at, flagged, AreQueued};
ghost use Rattle.propagate_queue.specs.PropagationInvariant.{IsRunning, AreDomains, HasNone};

use crate::activation::activate;
use crate::agenda::Agenda;
use crate::agents::Agents;
use dependency_chains::{Chain, Chains, Change, Woken};
use domain_trail::{Cut, Trail};
use fd_language::NoMemory;
use range_code::Activations;

/// Puts the agents of a chain on the agenda, except those that stand there already.
#[inline(always)]
fn wake_chain<A: Agenda>(agenda: &mut A, queued: &mut [bool], agents: &Agents, mut chain: Chain<'_>)
    requires agents { length agents.now ≡ length queued.old }
    requires known { (a : ℕ) → has chain a ≡ true → a < length queued.old }
    requires queued { AreQueued queued.old (A.agents agenda.old) (A.spare agenda.old) }
    ensures queued { AreQueued queued.new (A.agents agenda.new) (A.spare agenda.new) }
    ensures flags { (a : ℕ) → flag_at queued.new a ≡ (flag_at queued.old a || has chain.entry a) }
{
    'waking: while let Some(agent) = chain.next() {
        if !queued[agent] {
            queued[agent] = true;
            let cost = agents.cost(agent);
            agenda.put(agent, cost);
        }
    }
}

/// Puts the woken agents on the agenda, except those that stand there already.
#[inline(always)]
fn wake<A: Agenda>(agenda: &mut A, queued: &mut [bool], agents: &Agents, woken: Woken<'_>)
    requires agents { length agents.now ≡ length queued.old }
    requires known { (a : ℕ) → has woken a ≡ true → a < length queued.old }
    requires queued { AreQueued queued.old (A.agents agenda.old) (A.spare agenda.old) }
    ensures queued { AreQueued queued.new (A.agents agenda.new) (A.spare agenda.new) }
    ensures flags { (a : ℕ) → flag_at queued.new a ≡ (flag_at queued.old a || has woken.entry a) }
{
    let (dom, min, max, val) = woken.chains();
    wake_chain(agenda, queued, agents, dom);
    wake_chain(agenda, queued, agents, min);
    wake_chain(agenda, queued, agents, max);
    wake_chain(agenda, queued, agents, val);
}

/// Activates the agents on the agenda until none waits, or some domain would be empty. Whether none would be.
pub(crate) fn propagate<A: Agenda>(
    trail: &mut Trail,
    chains: &Chains,
    agents: &mut Agents,
    agenda: &mut A,
    queued: &mut [bool],
    n: &mut Activations,
) -> Result<bool, NoMemory>
    requires postings { All (IsPosting (length trail.old.current)) agents.old }
    requires monotone { AllPosted (λ p. IsMonotone TOP p.range) (ranges_of agents.old) }
    requires readers { AreReaders (ranges_of agents.old) chains.now.reads }
    requires vars { chains.now.vars ≡ length trail.old.current }
    requires agents { length agents.old ≡ length queued.old }
    requires queued { AreQueued queued.old (A.agents agenda.old) (A.spare agenda.old) }
    requires running { IsRunning (ranges_of agents.old) trail.old.current queued.old }
    ensures agents { agents.new ≡ agents.old }
    ensures below { trail.new.below ≡ trail.old.below }
    ensures vars { length trail.new.current ≡ length trail.old.current }
    ensures family { IsFamily TOP (family_of trail.new.current) }
    ensures queued { AreQueued queued.new (A.agents agenda.new) (A.spare agenda.new) }
    ensures all { OnOk result (A.agents agenda.new ≡ []) }
    ensures done { IfOk result
        (λ b. MatchBool b (AreDomains (ranges_of agents.old) trail.new.current)
        (HasNone (ranges_of agents.old) (length trail.old.current))) }
    ensures count { n.new.count ≤ n.old.count + (flagged queued.old + weights
        (ranges_of agents.old) (family_of trail.old.current) (family_of trail.new.current)) }
{
    'activating: while let Some(agent) = agenda.take() {
        queued[agent] = false;
        let target = agents.target(agent);
        match activate(trail, agents, agent, target, n)? {
            Cut::Same => {}
            Cut::Empty => {
                clear(agenda, queued);
                return Ok(false);
            }
            Cut::Changed(before, after) => {
                let change = Change::of_ends(before, after);
                let woken = chains.woken(target, change);
                wake(agenda, queued, agents, woken);
            }
        }
    }
    Ok(true)
}

/// Takes all agents off the agenda.
pub(crate) fn clear<A: Agenda>(agenda: &mut A, queued: &mut [bool])
    requires { AreQueued queued.old (A.agents agenda.old) (A.spare agenda.old) }
    ensures queued { AreQueued queued.new (A.agents agenda.new) (A.spare agenda.new) }
    ensures empty { A.agents agenda.new ≡ [] }
{
    'clearing: while let Some(waiting) = agenda.take() {
        queued[waiting] = false;
    }
}

/// Takes all agents off an agenda that is handed in.
pub(crate) fn empty<A: Agenda>(agenda: &mut A)
    ensures { A.agents agenda.new ≡ [] }
{
    'emptying: while let Some(_) = agenda.take() {}
}
