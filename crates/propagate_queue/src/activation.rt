//! One activation of an agent.

ghost use Rattle.std.specs.Prelude.{◌≡◌, ◌<◌, ◌+◌, ◌-◌, ◌^◌, ℕ, min, false, length, IfOk, IfErr};
ghost use Rattle.fd_language.specs.declared.TheConstants.{INFINITY as TOP};
ghost use Rattle.fd_language.specs.Family.{IsFamily};
ghost use Rattle.fd_language.specs.Range.{is_none_left};
ghost use Rattle.range_code.specs.Frames.{family_of};
ghost use Rattle.propagate_queue.specs.Postings.{ranged, posting_at, IsPosting};
ghost use Rattle.propagate_queue.specs.PropagationInvariant.{Activated};

use crate::agents::Agents;
use domain_ranges::View;
use domain_trail::{Cut, Trail};
use fd_language::NoMemory;
use range_code::{Activations, Reach};

/// Intersects the domain of the agent's target with the set of its range. Where numbers tell that set, the range isn't evaluated further.
#[inline(always)]
pub(crate) fn activate(
    trail: &mut Trail,
    agents: &mut Agents,
    agent: usize,
    target: usize,
    n: &mut Activations,
) -> Result<Cut, NoMemory>
    requires agent { agent < length agents.old }
    requires target { target ≡ (posting_at agents.old agent).target }
    requires posting { IsPosting (length trail.old.current) (posting_at agents.old agent) }
    requires some { (x : ℕ) → is_none_left (family_of trail.old.current x) ≡ false }
    requires family { IsFamily TOP (family_of trail.old.current) }
    ensures done { IfOk result
        (Activated (ranged (posting_at agents.old agent)) trail.old trail.new) }
    ensures unchanged { IfErr result (λ _. trail.new ≡ trail.old) }
    ensures agents { agents.new ≡ agents.old }
    ensures count { n.new.count ≡ min (n.old.count + 1) (2 ^ 64 - 1) }
{
    // Each cut is taken out of its result before it is handed on, which keeps it out of memory.
    match agents.find_reach(agent, trail) {
        Reach::All => {
            n.add();
            Ok(Cut::Same)
        }
        Reach::Between(low, high) => {
            n.add();
            let cut = trail.cut(target, low, high)?;
            Ok(cut)
        }
        Reach::Except(number) => {
            n.add();
            let cut = trail.cut_out(target, number)?;
            Ok(cut)
        }
        Reach::Other => {
            let cut = activate_evaluating(trail, agents, agent, target, n)?;
            Ok(cut)
        }
    }
}

/// The same by evaluating the range.
#[inline(always)]
fn activate_evaluating(
    trail: &mut Trail,
    agents: &mut Agents,
    agent: usize,
    target: usize,
    n: &mut Activations,
) -> Result<Cut, NoMemory>
    requires agent { agent < length agents.old }
    requires target { target ≡ (posting_at agents.old agent).target }
    requires posting { IsPosting (length trail.old.current) (posting_at agents.old agent) }
    requires some { (x : ℕ) → is_none_left (family_of trail.old.current x) ≡ false }
    requires family { IsFamily TOP (family_of trail.old.current) }
    ensures done { IfOk result
        (Activated (ranged (posting_at agents.old agent)) trail.old trail.new) }
    ensures unchanged { IfErr result (λ _. trail.new ≡ trail.old) }
    ensures agents { agents.new ≡ agents.old }
    ensures count { n.new.count ≡ min (n.old.count + 1) (2 ^ 64 - 1) }
{
    let left = agents.narrow(agent, trail, trail.domain(target), n)?;
    trail.take_left(target, left)
}
