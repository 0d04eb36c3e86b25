//! New agents: their numbers, their places in the chains and on the agenda.

ghost use Rattle.std.specs.Prelude.{◌≡◌, ◌<◌, ◌≤◌, ◌+◌, ◌++◌, ◌∷◌, [], ℕ, List, true, map, take, filter, nat_lt, length, All, OnOk, OnErr};
ghost use Rattle.fd_language.specs.declared.TheConstants.{INFINITY as TOP};
ghost use Rattle.fd_language.specs.Features.{range_features};
ghost use Rattle.fd_language.specs.Monotonicity.{IsMonotone};
ghost use Rattle.fd_model.specs.ClosedFamilies.{AllPosted};
ghost use Rattle.range_code.specs.Frames.{variable_of, slot_variable, posted, IsArgumentFrame};
ghost use Rattle.dependency_chains.specs.declared.Change.{Change as Told};
ghost use Rattle.dependency_chains.specs.WokenAgents.{is_woken};
ghost use Rattle.propagate_queue.specs.Instances.{posting, posting_of, IsInstance};
ghost use Rattle.propagate_queue.specs.Postings.{Posting, ranges_of, IsPosting, AreReaders, IsAdded};
ghost use Rattle.propagate_queue.specs.Queues.{AreQueued};

use crate::agenda::Agenda;
use crate::agents::Agents;
use crate::instance::Instance;
use dependency_chains::Chains;
use fd_language::{Feature, NoMemory};
use range_code::{Arg, RangeCode};
use std::rc::Rc;

/// The variable of an argument, and 0 for an integer.
fn variable(arg: Arg) -> usize
    ensures { result ≡ variable_of arg }
{
    match arg {
        Arg::Var(number) => number,
        Arg::Int(_) => 0,
    }
}

/// The variable in the slot, and 0 for an integer.
fn variable_in(args: &[Arg], slot: usize) -> usize
    requires { slot < length args.now }
    ensures { result ≡ slot_variable args.now slot }
{
    variable(args[slot])
}

/// What the range reads of the variables, of which there are `vars`.
fn read_features(
    code: &Rc<RangeCode>,
    args: &[Arg],
    vars: usize,
    into: &mut Vec<(usize, Feature)>,
) -> Result<(), NoMemory>
    requires { IsArgumentFrame vars code.now.value args.now }
    ensures same { OnOk result ((x : ℕ) (c : Told) → is_woken c x into.new.items ≡ is_woken c x
        (range_features (posted code.now.value args.now))) }
    ensures vars { OnOk result (All (λ d. d.0 < vars) into.new.items) }
    ensures monotone { OnOk result (IsMonotone TOP (posted code.now.value args.now)) }
{
    into.clear();
    let features = code.features();
    for read in features {
        let (slot, feature) = *read;
        into.push((variable_in(args, slot), feature))?;
    }
    Ok(())
}

/// Adds an agent and puts it on the agenda.
fn add_agent<A: Agenda>(
    agents: &mut Agents,
    queued: &mut Vec<bool>,
    chains: &mut Chains,
    agenda: &mut A,
    scratch: &mut Vec<(usize, Feature)>,
    vars: usize,
    code: Rc<RangeCode>,
    target: usize,
    args: &[Arg],
) -> Result<(), NoMemory>
    requires instance { IsPosting vars (posting_of code.value target args.now) }
    requires readers { AreReaders (ranges_of agents.old) chains.old.reads }
    requires vars { chains.old.vars ≡ vars }
    requires within { All (λ r. r.var < vars) chains.old.reads }
    requires flags { length queued.old.items ≡ length agents.old }
    requires queued { AreQueued queued.old.items (A.agents agenda.old) (A.spare agenda.old) }
    requires room { length queued.old.items + 1 ≤ A.spare agenda.old + length
        (A.agents agenda.old) }
    ensures agents { OnOk result (agents.new ≡ agents.old
        ++ posting_of code.value target args.now ∷ []) }
    ensures flags { OnOk result (queued.new.items ≡ queued.old.items ++ true ∷ []) }
    ensures room { OnOk result (A.spare agenda.old + length (A.agents agenda.old)
        ≤ A.spare agenda.new + length (A.agents agenda.new)) }
    ensures queued { OnOk result (AreQueued queued.new.items (A.agents agenda.new)
        (A.spare agenda.new)) }
    ensures monotone { OnOk result (IsMonotone TOP (posted code.value args.now)) }
    ensures readers { AreReaders (ranges_of agents.new) chains.new.reads }
    ensures vars { chains.new.vars ≡ vars }
    ensures within { All (λ r. r.var < vars) chains.new.reads }
    ensures kept { (m : ℕ) → m ≤ length agents.old
        → filter (λ r. nat_lt r.agent m) chains.new.reads
        ≡ filter (λ r. nat_lt r.agent m) chains.old.reads }
    ensures unchanged { OnErr result (agents.new ≡ agents.old) }
    ensures no_flag { OnErr result (queued.new.items ≡ queued.old.items) }
{
    read_features(&code, args, vars, scratch)?;
    let cost = code.range().nodes().len();
    let agent = agents.len();
    queued.reserve(1)?;
    agents.push(code, target, args)?;
    if let Err(refused) = chains.register(agent, scratch) {
        agents.truncate(agent);
        return Err(refused);
    }
    agenda.put(agent, cost);
    queued.push_reserved(true);
    Ok(())
}

/// Adds one agent.
pub(crate) fn add_one<A: Agenda>(
    agents: &mut Agents,
    queued: &mut Vec<bool>,
    chains: &mut Chains,
    agenda: &mut A,
    scratch: &mut Vec<(usize, Feature)>,
    vars: usize,
    code: Rc<RangeCode>,
    target: usize,
    args: &[Arg],
) -> Result<(), NoMemory>
    requires instance { IsPosting vars (posting_of code.value target args.now) }
    requires readers { AreReaders (ranges_of agents.old) chains.old.reads }
    requires vars { chains.old.vars ≡ vars }
    requires within { All (λ r. r.var < vars) chains.old.reads }
    requires flags { length queued.old.items ≡ length agents.old }
    requires queued { AreQueued queued.old.items (A.agents agenda.old) (A.spare agenda.old) }
    requires room { length queued.old.items + 1 ≤ A.spare agenda.old + length
        (A.agents agenda.old) }
    requires old { All (IsPosting vars) agents.old }
    requires monotone { AllPosted (λ p. IsMonotone TOP p.range) (ranges_of agents.old) }
    ensures added { IsAdded (posting_of code.value target args.now ∷ []) agents.old agents.new }
    ensures agents { OnOk result (agents.new ≡ agents.old
        ++ posting_of code.value target args.now ∷ []) }
    ensures flags { OnOk result (queued.new.items ≡ queued.old.items ++ true ∷ []) }
    ensures queued { OnOk result (AreQueued queued.new.items (A.agents agenda.new)
        (A.spare agenda.new)) }
    ensures instances { All (IsPosting vars) agents.new }
    ensures monotone { AllPosted (λ p. IsMonotone TOP p.range) (ranges_of agents.new) }
    ensures readers { AreReaders (ranges_of agents.new) chains.new.reads }
    ensures vars { chains.new.vars ≡ vars }
    ensures within { All (λ r. r.var < vars) chains.new.reads }
    ensures flagged { length queued.new.items ≡ length agents.new }
    ensures kept { (m : ℕ) → m ≤ length agents.old
        → filter (λ r. nat_lt r.agent m) chains.new.reads
        ≡ filter (λ r. nat_lt r.agent m) chains.old.reads }
{
    add_agent(
        agents, queued, chains, agenda, scratch, vars, code, target, args,
    )?;
    Ok(())
}

/// Adds the agents in order.
pub(crate) fn add_agents<A: Agenda>(
    agents: &mut Agents,
    queued: &mut Vec<bool>,
    chains: &mut Chains,
    agenda: &mut A,
    scratch: &mut Vec<(usize, Feature)>,
    vars: usize,
    list: Vec<Instance>,
) -> Result<(), NoMemory>
    requires instances { All (IsInstance vars) list.items }
    requires readers { AreReaders (ranges_of agents.old) chains.old.reads }
    requires vars { chains.old.vars ≡ vars }
    requires within { All (λ r. r.var < vars) chains.old.reads }
    requires flags { length queued.old.items ≡ length agents.old }
    requires queued { AreQueued queued.old.items (A.agents agenda.old) (A.spare agenda.old) }
    requires room { length queued.old.items + length list.items ≤ A.spare agenda.old + length
        (A.agents agenda.old) }
    requires old { All (IsPosting vars) agents.old }
    requires monotone { AllPosted (λ p. IsMonotone TOP p.range) (ranges_of agents.old) }
    ensures agents { OnOk result (agents.new ≡ agents.old ++ map posting list.items) }
    ensures part { (rest : List Posting) × (agents.new ++ rest
        ≡ agents.old ++ map posting list.items) }
    ensures flags { OnOk result (queued.new.items ≡ queued.old.items
        ++ map (λ _. true) list.items) }
    ensures queued { OnOk result (AreQueued queued.new.items (A.agents agenda.new)
        (A.spare agenda.new)) }
    ensures instances { All (IsPosting vars) agents.new }
    ensures monotone { AllPosted (λ p. IsMonotone TOP p.range) (ranges_of agents.new) }
    ensures readers { AreReaders (ranges_of agents.new) chains.new.reads }
    ensures vars { chains.new.vars ≡ vars }
    ensures within { All (λ r. r.var < vars) chains.new.reads }
    ensures more { length agents.old ≤ length agents.new }
    ensures front { take (length agents.old) agents.new ≡ agents.old }
    ensures flagged { length queued.new.items ≡ length agents.new }
    ensures kept { (m : ℕ) → m ≤ length agents.old
        → filter (λ r. nat_lt r.agent m) chains.new.reads
        ≡ filter (λ r. nat_lt r.agent m) chains.old.reads }
{
    for instance in list {
        let Instance { code, target, args } = instance;
        add_agent(
            agents, queued, chains, agenda, scratch, vars, code, target, &args,
        )?;
    }
    Ok(())
}
