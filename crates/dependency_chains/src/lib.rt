//! Which agents read what of which variables, in chains that are cut when agents go.
#![tactic(auto)]

ghost use Rattle.std.specs.Prelude.{◌≡◌, ◌<◌, ◌≤◌, ◌+◌, ◌-◌, ◌^◌, ◌&&◌, ◌==◌, nat_lt, ℕ, List, [], ◌∷◌, ◌++◌, if◌then◌else◌, length, max, filter, vec_len, vec_capacity, OnOk, OnErr, MatchOption, All};
ghost use Rattle.std.specs.List.{list_any};
ghost use Rattle.fd_language.specs.Family.{has};
ghost use Rattle.fd_language.specs.Features.{is_same_feature};
ghost use Rattle.fd_language.specs.declared.range_node.Feature.{Feature as Told};

use fd_language::{Feature, NoMemory};
use std::alloc::Global;
use std::marker::Model;

/// How a domain changed.
#[derive(Clone, Copy)]
pub struct Change {
    /// Whether the least value is another one.
    pub min: bool,
    /// Whether the greatest value is another one.
    pub max: bool,
    /// Whether one value is left where there were several.
    pub fixed: bool,
}

/// An agent that reads a feature of a variable, and one more than the place of the next older link of its chain, or 0.
/// It takes 16 bytes.
#[derive(Clone, Copy, Drop)]
struct Link {
    agent: u32,
    var: u32,
    feature: Feature,
    next: u32,
}

const _: () = prove!(size_of::<Link>() == 16);

/// One more than the place of the newest link of each chain of a variable, or 0. It takes 16 bytes.
#[derive(Clone, Copy, Drop)]
struct Heads {
    min: u32,
    max: u32,
    val: u32,
    dom: u32,
}

const _: () = prove!(size_of::<Heads>() == 16);

/// The readers of variables. Each variable has a chain for each feature, and all links stand in one list, in the order of the agents.
///
/// A call that answers `NoMemory` leaves the chains as they were, and may be tried again.
#[derive(Drop)]
pub struct Chains {
    links: Vec<Link>,
    heads: Vec<Heads>,
}

impl Model for Chains {
    ghost use Rattle.dependency_chains.specs.AgentReads.{AgentReads};

    ghost Value = { AgentReads };

    ghost use Rattle.std.specs.Prelude.{length};
    ghost use Rattle.dependency_chains.specs.Links.{reads_of, AreChains};

    ghost view = { λ c. record { vars = length c.heads.items; reads = reads_of c.links.items } };

    ghost invariant = { λ c. AreChains c.links.items c.heads.items };
}

/// The agents that a change wakes. An agent may come more than once.
#[derive(Drop)]
pub struct Woken<'c> {
    links: &'c [Link],
    dom: u32,
    min: u32,
    max: u32,
    val: u32,
}

impl<'c> Model for Woken<'c> {
    ghost use Rattle.std.specs.Prelude.{List, ℕ};

    ghost Value = { List ℕ };

    ghost use Rattle.std.specs.Prelude.{◌++◌, ◌≤◌, length};
    ghost use Rattle.dependency_chains.specs.Links.{agents_from, AreLinked};

    ghost view = { λ w. agents_from w.links.now w.dom ++ (agents_from w.links.now w.min
        ++ (agents_from w.links.now w.max ++ agents_from w.links.now w.val)) };

    ghost invariant = { λ w. AreLinked w.links.now × (w.dom ≤ length w.links.now)
        × (w.min ≤ length w.links.now) × (w.max ≤ length w.links.now)
        × (w.val ≤ length w.links.now) };
}

/// The agents of one chain, one after another.
#[derive(Drop)]
pub struct Chain<'c> {
    links: &'c [Link],
    place: u32,
}

impl<'c> Model for Chain<'c> {
    ghost use Rattle.std.specs.Prelude.{List, ℕ};

    ghost Value = { List ℕ };

    ghost use Rattle.std.specs.Prelude.{◌≤◌, length};
    ghost use Rattle.dependency_chains.specs.Links.{agents_from, AreLinked};

    ghost view = { λ c. agents_from c.links.now c.place };

    ghost invariant = { λ c. AreLinked c.links.now × (c.place ≤ length c.links.now) };
}

ghost use Rattle.domain_ranges.specs.Narrowing.{AreEnds};
ghost use Rattle.dependency_chains.specs.WokenAgents.{change_of, wakes};
ghost use Rattle.dependency_chains.specs.AgentReads.{read_by};
ghost use Rattle.dependency_chains.specs.Links.{agents_from, AreLinked, AreChains, reads_of, head_of};

impl Change {
    /// How a domain that lost values changed, by the least and the greatest value that it had and those that it has now.
    /// Neither domain is empty.
    #[inline(always)]
    pub fn of_ends(before: (u32, u32), after: (u32, u32)) -> Change
        ensures { (old new : List ℕ) → AreEnds before old → AreEnds after new
            → length new < length old → result ≡ change_of old new }
    {
        Change {
            min: before.0 != after.0,
            max: before.1 != after.1,
            fixed: after.0 == after.1,
        }
    }
}

/// The head of a chain.
fn head(heads: &Heads, feature: Feature) -> u32
    ensures { result ≡ head_of heads.now feature }
{
    match feature {
        Feature::Min => heads.min,
        Feature::Max => heads.max,
        Feature::Val => heads.val,
        Feature::Dom => heads.dom,
    }
}

/// Gives a chain another head.
fn set_head(heads: &mut Heads, feature: Feature, place: u32)
    ensures { (f : Told) → head_of heads.new f
        ≡ (if is_same_feature feature f then place else head_of heads.old f) }
{
    match feature {
        Feature::Min => heads.min = place,
        Feature::Max => heads.max = place,
        Feature::Val => heads.val = place,
        Feature::Dom => heads.dom = place,
    }
}

/// Puts the links of an agent in front of their chains.
fn add_links(
    links: &mut Vec<Link>,
    heads: &mut Vec<Heads>,
    agent: u32,
    features: &[(usize, Feature)],
)
    requires chains { AreChains links.old.items heads.old.items }
    requires agent { All (λ l. l.agent ≤ agent) links.old.items }
    requires vars { All (λ d. d.0 < length heads.old.items) features.now }
    requires room { vec_len links.old + length features.now ≤ vec_capacity links.old }
    requires few_links { length links.old.items + length features.now < 2 ^ 32 }
    requires few_vars { length heads.old.items < 2 ^ 32 }
    ensures chains { AreChains links.new.items heads.new.items }
    ensures vars { length heads.new.items ≡ length heads.old.items }
    ensures reads { reads_of links.new.items ≡ reads_of links.old.items
        ++ read_by agent features.now }
{
    for read in features {
        let (var, feature) = *read;
        let next = head(&heads[var], feature);
        links.push_reserved(Link {
            agent,
            var: var as u32,
            feature,
            next,
        });
        set_head(&mut heads[var], feature, links.len() as u32);
    }
}

/// Takes away the links of all agents from `agents` on.
fn cut_links(links: &mut Vec<Link>, heads: &mut Vec<Heads>, agents: usize)
    requires { AreChains links.old.items heads.old.items }
    ensures chains { AreChains links.new.items heads.new.items }
    ensures vars { length heads.new.items ≡ length heads.old.items }
    ensures reads { reads_of links.new.items ≡ filter (λ r. nat_lt r.agent agents)
        (reads_of links.old.items) }
{
    'cutting: while !links.is_empty() {
        let last = links.len() - 1;
        let link = links[last];
        if (link.agent as usize) < agents {
            break;
        }
        set_head(&mut heads[link.var as usize], link.feature, link.next);
        links.truncate(last);
    }
}

/// Whether 32 bits hold the number of an agent, of the variables, and of the links with `more` ones. No memory: `NoMemory` says that they
/// don't.
#[inline]
fn hold_numbers(agent: usize, vars: usize, links: usize, more: usize) -> Result<(), NoMemory>
    ensures fit { OnOk result (max (max agent vars) (links + more) < 2 ^ 32) }
    ensures many { OnErr result (2 ^ 32 ≤ max (max agent vars) (links + more)) }
{
    let links = links.saturating_add(more);
    if agent.max(vars).max(links) > u32::MAX as usize {
        return Err(NoMemory);
    }
    Ok(())
}

/// The place where it is wanted, and else none.
#[inline(always)]
fn place_if(wanted: bool, place: u32) -> u32
    ensures { result ≡ (if wanted then place else 0) }
{
    if wanted { place } else { 0 }
}

impl Chains {
    /// No variable, and no reader.
    pub fn new(alloc: Global) -> Chains
        ensures { result ≡ record { vars = 0; reads = [] } }
    {
        Chains {
            links: Vec::new(alloc),
            heads: Vec::new(alloc),
        }
    }

    /// One more variable, which nobody reads. `NoMemory`: there is no room for it.
    pub fn new_var(&mut self) -> Result<(), NoMemory>
        ensures added { OnOk result (self.new ≡ record self.old { vars = self.old.vars + 1 }) }
        ensures unchanged { OnErr result (self.new ≡ self.old) }
    {
        self.heads.push(Heads {
            min: 0,
            max: 0,
            val: 0,
            dom: 0,
        })?;
        Ok(())
    }

    /// An agent that is at least as late as all others, and reads these features of variables. `NoMemory`: there is no room
    /// for its links, or a number of an agent, of variables or of links would need more than 32 bits.
    pub fn register(&mut self, agent: usize, features: &[(usize, Feature)]) -> Result<(), NoMemory>
        requires agent { All (λ r. r.agent ≤ agent) self.old.reads }
        requires vars { All (λ d. d.0 < self.old.vars) features.now }
        ensures added { OnOk result (self.new ≡ record self.old {
          reads = self.old.reads ++ read_by agent features.now;
        }) }
        ensures unchanged { OnErr result (self.new ≡ self.old) }
    {
        hold_numbers(agent, self.heads.len(), self.links.len(), features.len())?;
        self.links.reserve(features.len())?;
        add_links(&mut self.links, &mut self.heads, agent as u32, features);
        Ok(())
    }

    /// Forgets all agents from `agents` on, and all variables from `vars` on. No agent that stays reads a variable that goes.
    pub fn cut_to(&mut self, agents: usize, vars: usize)
        requires vars { vars ≤ self.old.vars }
        requires stay { All (λ r. r.agent < agents → r.var < vars) self.old.reads }
        ensures { self.new ≡ record {
          vars = vars;
          reads = filter (λ r. nat_lt r.agent agents) self.old.reads;
        } }
    {
        cut_links(&mut self.links, &mut self.heads, agents);
        self.heads.truncate(vars);
    }

    /// The agents that read what a change of the variable `k` changed.
    #[inline(always)]
    pub fn woken(&self, k: usize, change: Change) -> Woken<'_>
        requires { k < self.now.vars }
        ensures { (a : ℕ) → has result a ≡ list_any (λ r. (r.agent == a) &&
            ((r.var == k) && wakes change r.feature)) self.now.reads }
    {
        let heads = self.heads[k];
        Woken {
            links: &self.links,
            dom: heads.dom,
            min: place_if(change.min, heads.min),
            max: place_if(change.max, heads.max),
            val: place_if(change.fixed, heads.val),
        }
    }
}

/// Takes one step along a chain.
#[inline(always)]
fn step(links: &[Link], place: &mut u32) -> Option<usize>
    requires linked { AreLinked links.now }
    requires within { place.old ≤ length links.now }
    ensures within { place.new ≤ length links.now }
    ensures next { MatchOption result ((place.old ≡ 0) × (place.new ≡ 0))
        (λ a. agents_from links.now place.old ≡ a ∷ agents_from links.now place.new) }
{
    if *place == 0 {
        return None;
    }
    let link = links[*place as usize - 1];
    *place = link.next;
    Some(link.agent as usize)
}

impl Chain<'_> {
    /// The next agent.
    #[inline(always)]
    pub fn next(&mut self) -> Option<usize>
        ensures { MatchOption result (self.old ≡ []) (λ a. self.old ≡ a ∷ self.new) }
    {
        step(self.links, &mut self.place)
    }
}

impl<'c> Woken<'c> {
    /// The chains in which the agents stand.
    #[inline(always)]
    pub fn chains(&self) -> (Chain<'c>, Chain<'c>, Chain<'c>, Chain<'c>)
        ensures { self.now ≡ result.0 ++ (result.1 ++ (result.2 ++ result.3)) }
    {
        let links = self.links;
        (
            Chain {
                links,
                place: self.dom,
            },
            Chain {
                links,
                place: self.min,
            },
            Chain {
                links,
                place: self.max,
            },
            Chain {
                links,
                place: self.val,
            },
        )
    }
}
