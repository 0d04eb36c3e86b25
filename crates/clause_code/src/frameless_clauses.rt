//! The code of clauses that need no frame: no goal stands in their bodies but a last user goal.

ghost use Rattle.std.specs.Prelude.{◌≡◌, ◌+◌, ◌<◌, [], ◌++◌, length, All, IfSome, OnOk};
ghost use Rattle.fd_model.specs.ConstraintExpansion.{arguments};
ghost use Rattle.term_pool.specs.Terms.{term_of, terms_by};
ghost use Rattle.clause_check.specs.Programs.{IsPart, clause_at, clause_in};
ghost use Rattle.clause_code.specs.Predicates.{ArePredicates, Appends, IsCallOfOne, base_in};
ghost use Rattle.clause_code.specs.SafeCode.{IsClauseCode};
ghost use Rattle.clause_code.specs.FramelessClauses.{GoesOn, IsBody, IsShort, IsShortBody, last_arguments};
ghost use Rattle.clause_code.specs.SimpleGoals.{IsOwn};
ghost use Rattle.clause_code.specs.Steps.{puts, code_of};
ghost use Rattle.clause_code.specs.ClauseParts.{unmade};

use crate::argument_homes::{added, arguments_of, find_homes};
use crate::heads::read_head;
use crate::predicates::Predicates;
use crate::terms::{Work, put_all};
use clause_check::{FlatGoal, Part, Program};
use fd_language::NoMemory;
use std::alloc::Global;
use term_pool::{Node, Pool, TermId};
use wam_code::{Code, Register};

/// What the body of a clause is.
#[derive(Clone, Copy)]
pub(crate) enum Body {
    /// No goal.
    Empty,
    /// A user goal alone.
    Call(TermId),
    /// Anything else.
    Longer,
}

/// What the goals of the part are.
pub(crate) fn body_of(program: &Program, part: Part) -> Body
    requires { IsPart (length program.now.goals) part }
    ensures { IsBody program.now part result }
{
    if part.from == part.to {
        return Body::Empty;
    }
    if part.to != part.from + 1 {
        return Body::Longer;
    }
    match program.goal(part.from) {
        FlatGoal::Call(t) => Body::Call(t),
        _ => Body::Longer,
    }
}

/// The arguments of the goal, if there is one.
fn goal_arguments<'p>(pool: &'p Pool, goal: Option<TermId>) -> &'p [TermId]
    requires { IfSome goal (λ t. t.number < length pool.now.entries) }
    ensures terms { terms_by (term_of pool.now) result.now ≡ last_arguments pool.now goal }
    ensures own { All (λ u. u.number < length pool.now.entries) result.now }
{
    match goal {
        Some(t) => arguments_of(pool, t),
        None => &[],
    }
}

/// The arguments of a goal into the first registers, by way of those from `free` on.
fn put_arguments(
    pool: &Pool,
    homes: &[Register],
    made: &mut Vec<bool>,
    code: &mut Vec<Code>,
    works: &mut Vec<Work>,
    t: TermId,
    free: usize,
) -> Result<(), NoMemory>
    requires own { IsOwn pool.now (length homes.now) t }
    requires long { length made.old.items ≡ length homes.now }
    requires works { works.old.items ≡ [] }
    ensures { OnOk result (code.new.items ≡ code.old.items
        ++ code_of homes.now made.old.items
        (puts pool.now 1 free (arguments (term_of pool.now t)))) }
{
    match pool.view(t) {
        Node::Comp(_, parts) => put_all(pool, homes, made, code, works, parts, free),
        _ => Ok(()),
    }
}

/// A user goal that is the whole body.
fn go_on(
    pool: &Pool,
    predicates: &Predicates,
    homes: &[Register],
    made: &mut Vec<bool>,
    code: &mut Vec<Code>,
    works: &mut Vec<Work>,
    t: TermId,
    free: usize,
) -> Result<(), NoMemory>
    requires own { IsOwn pool.now (length homes.now) t }
    requires one { IsCallOfOne pool.now predicates.now (term_of pool.now t) }
    requires long { length made.old.items ≡ length homes.now }
    requires works { works.old.items ≡ [] }
    ensures { OnOk result (GoesOn pool.now predicates.now homes.now free made.old.items t
        code.old.items code.new.items) }
{
    let number = predicates.number_of_goal(pool, t);
    put_arguments(pool, homes, made, code, works, t, free)?;
    code.push(Code::Execute(number))?;
    Ok(())
}

/// The code of a clause with this head and this goal, if it has one.
fn write_short(
    pool: &Pool,
    predicates: &Predicates,
    homes: &[Register],
    made: &mut Vec<bool>,
    code: &mut Vec<Code>,
    works: &mut Vec<Work>,
    head: TermId,
    goal: Option<TermId>,
    free: usize,
) -> Result<(), NoMemory>
    requires own { IsOwn pool.now (length homes.now) head }
    requires goal { IfSome goal (IsOwn pool.now (length homes.now)) }
    requires one { IfSome goal (λ t. IsCallOfOne pool.now predicates.now (term_of pool.now t)) }
    requires made { made.old.items ≡ unmade homes.now }
    requires works { works.old.items ≡ [] }
    ensures { OnOk result (IsShort pool.now predicates.now homes.now free head goal
        code.old.items code.new.items) }
{
    read_head(pool, homes, made, code, works, head, free)?;
    match goal {
        Some(t) => go_on(pool, predicates, homes, made, code, works, t, free)?,
        None => code.push(Code::Proceed)?,
    }
    Ok(())
}

/// The code of the clause c, whose body is this goal or has none.
pub(crate) fn compile_short(
    alloc: Global,
    program: &Program,
    predicates: &Predicates,
    c: usize,
    goal: Option<TermId>,
    code: &mut Vec<Code>,
) -> Result<(), NoMemory>
    requires clause { c < length program.now.clauses }
    requires predicates { ArePredicates program.now predicates.now }
    requires body { IsShortBody program.now (clause_at program.now c).body goal }
    ensures { OnOk result (Appends code.old.items code.new.items
        (λ is. IsClauseCode (base_in program.now predicates.now) (length code.old.items) is
        (clause_in program.now (clause_at program.now c)))) }
{
    program.known();
    let pool = program.pool();
    let head = program.head(c);
    let given = arguments_of(pool, head);
    let wanted = goal_arguments(pool, goal);
    let variables = program.variables_of_clause(c);
    let first = added(given.len().max(wanted.len()), 1)?;
    let free = added(first, variables)?;
    let homes = find_homes(alloc, pool, given, wanted, variables, first, free)?;
    let mut made = vec![in alloc; false; homes.len()]?;
    let mut works = Vec::new(alloc);
    write_short(
        pool, predicates, &homes, &mut made, code, &mut works, head, goal, free,
    )?;
    Ok(())
}
