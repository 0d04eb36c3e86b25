//! How many level slots goals need.

ghost use Rattle.std.specs.Prelude.{◌≡◌, ◌-◌, ◌+◌, ◌<◌, ◌≤◌, length, max, IfOk, suc, ◌^◌, MatchResult};
ghost use Rattle.clause_check.specs.Programs.{goal_at, goal_in, goals_in, IsGoal};
ghost use Rattle.clause_code.specs.LevelSlots.{need, each_need, AreNeeds};
ghost use Rattle.clause_code.specs.ClauseParts.{levels_behind};

use crate::levels::Levels;
use clause_check::{FlatGoal, Part, Program};
use fd_language::NoMemory;
use std::alloc::Global;

/// The greater one.
fn greater(a: usize, b: usize) -> usize
    ensures { result ≡ max a b }
{
    if a < b { b } else { a }
}

/// How many the goals of the part need.
pub(crate) fn most_needed(program: &Program, needs: &[usize], part: Part) -> usize
    requires needs { AreNeeds program.now (length needs.now) needs.now }
    requires order { part.from ≤ part.to }
    requires within { part.to ≤ length needs.now }
    requires goals { length needs.now ≤ length program.now.goals }
    ensures { result ≡ each_need (goals_in program.now part) }
{
    program.known();
    let mut most = 0;
    for i in part.from..part.to {
        most = greater(most, needs[i]);
    }
    most
}

/// How many a test needs whose goals need so many.
fn test_needs(inner: usize) -> Result<usize, NoMemory>
    ensures { MatchResult result (λ n. n ≡ 3 + (inner - 1)) (λ _. 2 ^ 64 ≤ 3 + (inner - 1)) }
{
    inner.saturating_sub(1).checked_add(3).ok_or(NoMemory)
}

/// How many the goal needs, whose parts are among the first ones, of which it is known.
fn needed(program: &Program, needs: &[usize], goal: FlatGoal) -> Result<usize, NoMemory>
    requires needs { AreNeeds program.now (length needs.now) needs.now }
    requires goals { length needs.now ≤ length program.now.goals }
    requires own { IsGoal program.now.pool (length program.now.ranges) (length needs.now) goal }
    ensures { MatchResult result (λ n. n ≡ need (goal_in program.now goal))
        (λ _. 2 ^ 64 ≤ need (goal_in program.now goal)) }
{
    Ok(match goal {
        FlatGoal::Cut => 1,
        FlatGoal::Either(left, right) => {
            greater(
                most_needed(program, needs, left),
                most_needed(program, needs, right),
            )
        }
        FlatGoal::If(test, holds, other) => {
            let first = test_needs(most_needed(program, needs, test))?;
            let second = most_needed(program, needs, holds);
            let third = match other {
                Some(part) => most_needed(program, needs, part),
                None => 0,
            };
            greater(first, greater(second, third))
        }
        FlatGoal::Not(test) => test_needs(most_needed(program, needs, test))?,
        _ => 0,
    })
}

/// How many level slots each goal of the program needs, by its number. The error is want of memory.
pub fn level_needs(alloc: Global, program: &Program) -> Result<Vec<usize>, NoMemory>
    ensures { IfOk result (λ ns. AreNeeds program.now (length program.now.goals) ns.items) }
{
    let mut needs = Vec::new(alloc);
    for i in 0..program.goals() {
        let goal = program.goal(i);
        let count = needed(program, &needs, goal)?;
        needs.push(count)?;
    }
    Ok(needs)
}

/// So many level slots behind those of so many variables. The error is want of memory.
pub(crate) fn levels_behind(variables: usize, count: usize) -> Result<Levels, NoMemory>
    ensures { MatchResult result (λ l. l ≡ levels_behind variables count)
        (λ _. 2 ^ 64 ≤ suc variables + count) }
{
    let first = variables.checked_add(1).ok_or(NoMemory)?;
    let end = first.checked_add(count).ok_or(NoMemory)?;
    let next = if count > 0 {
        first.checked_add(1).ok_or(NoMemory)?
    } else {
        first
    };
    Ok(Levels {
        first,
        end,
        cut: first,
        next,
    })
}
