//! The code of goals.

ghost use Rattle.std.specs.Prelude.{◌≡◌, ◌+◌, ◌<◌, ◌≤◌, true, [], ◌++◌, length, map, All, OnOk};
ghost use Rattle.fd_model.specs.RunnablePrograms.{EachBelow};
ghost use Rattle.fd_language.specs.Term.{term};
ghost use Rattle.fd_model.specs.ConstraintExpansion.{arguments};
ghost use Rattle.range_code.specs.Slots.{slots_of};
ghost use Rattle.term_pool.specs.Terms.{term_of, terms_by};
ghost use Rattle.clause_check.specs.Programs.{goals_in, range_at};
ghost use Rattle.wam_code.specs.declared.instruction.Code.TheVariants.{PostRange};
ghost use Rattle.clause_code.specs.Bodies.{AreFree, IsGoalsCode};
ghost use Rattle.clause_code.specs.CodablePrograms.{EachCodable};
ghost use Rattle.clause_code.specs.LevelSlots.{EachFits};
ghost use Rattle.clause_code.specs.Predicates.{ArePredicates, Appends, IsCallOfOne, base_in};
ghost use Rattle.clause_code.specs.SimpleGoals.{variables, loads, AreMade, CallWritten, GoalWritten, IsCalled, IsOwn, IsWritable};
ghost use Rattle.clause_code.specs.Steps.{puts, AllSuit};
ghost use Rattle.clause_code.specs.ClauseParts.{AreSlots, Executes};
ghost use Rattle.clause_code.specs.BuildStack.{Writes};

use crate::levels::Levels;
use crate::open_sides::{Next, enter, leave};
use crate::predicates::Predicates;
use crate::terms::{Work, put, put_all, put_variable};
use clause_check::{FlatGoal, Part, Program};
use fd_language::NoMemory;
use fd_model::kinds::BuiltinKind;
use range_code::RangeCode;
use std::alloc::Global;
use std::rc::Rc;
use term_pool::{Node, Pool, TermId};
use wam_code::{Code, Register};

/// The arguments into the first registers, and then the instruction.
fn load(
    pool: &Pool,
    homes: &[Register],
    made: &mut Vec<bool>,
    code: &mut Vec<Code>,
    works: &mut Vec<Work>,
    ids: &[TermId],
    last: Code,
) -> Result<(), NoMemory>
    requires own { All (λ t. t.number < length pool.now.entries) ids.now }
    requires few { length ids.now ≤ 255 }
    requires suits { AllSuit pool.now (length homes.now) (terms_by (term_of pool.now) ids.now) }
    requires long { length made.old.items ≡ length homes.now }
    requires made { AreMade made.old.items }
    requires works { works.old.items ≡ [] }
    ensures code { OnOk result (code.new.items ≡ code.old.items
        ++ loads pool.now homes.now made.old.items (terms_by (term_of pool.now) ids.now) last) }
    ensures made { OnOk result (made.new.items ≡ made.old.items) }
    ensures works { OnOk result (works.new.items ≡ []) }
{
    put_all(pool, homes, made, code, works, ids, ids.len() + 1)?;
    code.push(last)?;
    Ok(())
}

/// The variables into the registers from 2 on.
fn load_slots(
    pool: &Pool,
    homes: &[Register],
    made: &mut Vec<bool>,
    code: &mut Vec<Code>,
    slots: &[u64],
    free: usize,
) -> Result<(), NoMemory>
    requires slots { All (λ y. y < length homes.now) slots.now }
    requires long { length made.old.items ≡ length homes.now }
    requires free { length slots.now + 2 ≡ free }
    ensures { OnOk result (Writes homes.now code.old.items made.old.items
        (puts pool.now 2 free (variables slots.now)) code.new.items made.new.items) }
{
    let mut register = 2;
    for slot in slots {
        put_variable(homes, made, code, *slot as usize, register)?;
        register += 1;
    }
    Ok(())
}

/// The variables of a range, by their slots.
fn slots_at<'r>(program: &Program, ranges: &'r [Rc<RangeCode>], r: usize) -> &'r [u64]
    requires within { r < length program.now.ranges }
    requires ranges { map (λ r. r.value) ranges.now ≡ program.now.ranges }
    ensures { result.now ≡ slots_of (range_at program.now r) }
{
    ranges[r].slots()
}

/// The range r and its target: the target into the first register, the range's variables into those behind it.
fn post(
    pool: &Pool,
    slots: &[u64],
    homes: &[Register],
    made: &mut Vec<bool>,
    code: &mut Vec<Code>,
    works: &mut Vec<Work>,
    t: TermId,
    r: usize,
) -> Result<(), NoMemory>
    requires target { IsOwn pool.now (length homes.now) t }
    requires slots { All (λ y. y < length homes.now) slots.now }
    requires long { length made.old.items ≡ length homes.now }
    requires made { AreMade made.old.items }
    requires works { works.old.items ≡ [] }
    ensures code { OnOk result (code.new.items ≡ code.old.items
        ++ loads pool.now homes.now made.old.items (term (term_of pool.now t) (variables slots.now))
        (PostRange r (length slots.now + 1))) }
    ensures made { OnOk result (made.new.items ≡ made.old.items) }
    ensures works { OnOk result (works.new.items ≡ []) }
{
    put(pool, homes, made, code, works, t, 1, slots.len() + 2)?;
    load_slots(pool, homes, made, code, slots, slots.len() + 2)?;
    code.push(Code::PostRange(r, slots.len() + 1))?;
    Ok(())
}

/// The arguments of a goal into the first registers, and then the instruction.
fn load_arguments(
    pool: &Pool,
    homes: &[Register],
    made: &mut Vec<bool>,
    code: &mut Vec<Code>,
    works: &mut Vec<Work>,
    t: TermId,
    last: Code,
) -> Result<(), NoMemory>
    requires own { IsOwn pool.now (length homes.now) t }
    requires long { length made.old.items ≡ length homes.now }
    requires made { AreMade made.old.items }
    requires works { works.old.items ≡ [] }
    ensures code { OnOk result (code.new.items ≡ code.old.items
        ++ loads pool.now homes.now made.old.items (arguments (term_of pool.now t)) last) }
    ensures made { OnOk result (made.new.items ≡ made.old.items) }
    ensures works { OnOk result (works.new.items ≡ []) }
{
    match pool.view(t) {
        Node::Comp(_, parts) => load(pool, homes, made, code, works, parts, last),
        _ => load(pool, homes, made, code, works, &[], last),
    }
}

/// A user goal that isn't the last one.
fn call(
    pool: &Pool,
    predicates: &Predicates,
    homes: &[Register],
    made: &mut Vec<bool>,
    code: &mut Vec<Code>,
    works: &mut Vec<Work>,
    t: TermId,
) -> Result<(), NoMemory>
    requires own { IsOwn pool.now (length homes.now) t }
    requires one { IsCallOfOne pool.now predicates.now (term_of pool.now t) }
    requires long { length made.old.items ≡ length homes.now }
    requires made { AreMade made.old.items }
    requires works { works.old.items ≡ [] }
    ensures code { OnOk result (CallWritten pool.now predicates.now homes.now made.old.items t
        code.old.items code.new.items) }
    ensures made { OnOk result (made.new.items ≡ made.old.items) }
    ensures works { OnOk result (works.new.items ≡ []) }
{
    let number = predicates.number_of_goal(pool, t);
    load_arguments(pool, homes, made, code, works, t, Code::Call(number))?;
    Ok(())
}

/// A user goal that ends its clause.
pub(crate) fn execute(
    pool: &Pool,
    predicates: &Predicates,
    homes: &[Register],
    made: &mut Vec<bool>,
    code: &mut Vec<Code>,
    works: &mut Vec<Work>,
    t: TermId,
) -> Result<(), NoMemory>
    requires own { IsOwn pool.now (length homes.now) t }
    requires one { IsCallOfOne pool.now predicates.now (term_of pool.now t) }
    requires long { length made.old.items ≡ length homes.now }
    requires made { AreMade made.old.items }
    requires works { works.old.items ≡ [] }
    ensures { OnOk result (Executes pool.now predicates.now homes.now made.old.items t
        code.old.items code.new.items) }
{
    let number = predicates.number_of_goal(pool, t);
    load_arguments(pool, homes, made, code, works, t, Code::Deallocate)?;
    code.push(Code::Execute(number))?;
    Ok(())
}

/// A goal, or of an `A ; B` the instruction before both sides, and of a test that before it. It gets its place later.
fn write_goal(
    program: &Program,
    ranges: &[Rc<RangeCode>],
    predicates: &Predicates,
    homes: &[Register],
    made: &mut Vec<bool>,
    code: &mut Vec<Code>,
    works: &mut Vec<Work>,
    levels: Levels,
    goal: FlatGoal,
) -> Result<(), NoMemory>
    requires writable { IsWritable program.now (length homes.now) goal }
    requires called { IsCalled program.now predicates.now goal }
    requires ranges { map (λ r. r.value) ranges.now ≡ program.now.ranges }
    requires long { length made.old.items ≡ length homes.now }
    requires made { AreMade made.old.items }
    requires works { works.old.items ≡ [] }
    ensures code { OnOk result (GoalWritten program.now predicates.now homes.now levels
        made.old.items
        goal
        code.old.items code.new.items) }
    ensures made { OnOk result (made.new.items ≡ made.old.items) }
    ensures works { OnOk result (works.new.items ≡ []) }
{
    let pool = program.pool();
    match goal {
        FlatGoal::True => code.push(Code::Builtin(BuiltinKind::True))?,
        FlatGoal::Fail => code.push(Code::Builtin(BuiltinKind::Fail))?,
        FlatGoal::Unify(s, t) => {
            let last = Code::Builtin(BuiltinKind::Unify);
            load(pool, homes, made, code, works, &[s, t], last)?;
        }
        FlatGoal::Post(t, r) => {
            let slots = slots_at(program, ranges, r);
            post(pool, slots, homes, made, code, works, t, r)?;
        }
        FlatGoal::Constrain(kind, t) => {
            load_arguments(pool, homes, made, code, works, t, Code::Constrain(kind))?;
        }
        FlatGoal::Label(order, t) => {
            load(pool, homes, made, code, works, &[t], Code::Label(order))?;
        }
        FlatGoal::Call(t) => call(pool, predicates, homes, made, code, works, t)?,
        FlatGoal::Builtin(kind, t) => {
            load_arguments(pool, homes, made, code, works, t, Code::Builtin(kind))?;
        }
        FlatGoal::Either(_, _) => code.push(Code::Either(0))?,
        FlatGoal::Cut => code.push(Code::CutTo(levels.cut))?,
        FlatGoal::If(_, _, None) => code.push(Code::TestOnly(levels.next))?,
        FlatGoal::If(_, _, Some(_)) => code.push(levels.entering(0)?)?,
        FlatGoal::Not(_) => code.push(levels.entering(0)?)?,
        FlatGoal::Best(order, least, t, cost) => {
            let best = Code::Best(order, least);
            load(pool, homes, made, code, works, &[t, cost], best)?;
        }
    }
    Ok(())
}

/// The goals of the part, behind what `code` has. Their cuts and tests have these level slots.
pub(crate) fn write_goals(
    alloc: Global,
    program: &Program,
    ranges: &[Rc<RangeCode>],
    predicates: &Predicates,
    homes: &[Register],
    made: &mut Vec<bool>,
    code: &mut Vec<Code>,
    works: &mut Vec<Work>,
    part: Part,
    levels: Levels,
) -> Result<(), NoMemory>
    requires within { part.to ≤ length program.now.goals }
    requires predicates { ArePredicates program.now predicates.now }
    requires below { EachBelow (length homes.now) (goals_in program.now part) }
    requires codable { EachCodable (goals_in program.now part) }
    requires fits { EachFits levels (goals_in program.now part) }
    requires free { AreFree homes.now levels }
    requires ranges { map (λ r. r.value) ranges.now ≡ program.now.ranges }
    requires homes { AreSlots homes.now }
    requires long { length made.old.items ≡ length homes.now }
    requires made { AreMade made.old.items }
    requires works { works.old.items ≡ [] }
    ensures code { OnOk result (Appends code.old.items code.new.items
        (λ is. IsGoalsCode (base_in program.now predicates.now) homes.now true levels
        (length code.old.items) is (goals_in program.now part))) }
    ensures made { OnOk result (made.new.items ≡ made.old.items) }
    ensures works { OnOk result (works.new.items ≡ []) }
{
    program.known();
    let mut sides = Vec::new(alloc);
    let mut next = Next { part, levels };
    loop {
        if next.part.from < next.part.to {
            let goal = program.goal(next.part.from);
            let at = code.len();
            write_goal(
                program,
                ranges,
                predicates,
                homes,
                made,
                code,
                works,
                next.levels,
                goal,
            )?;
            let rest = Part {
                from: next.part.from + 1,
                to: next.part.to,
            };
            next = enter(&mut sides, goal, at, rest, next.levels)?;
        } else if let Some(side) = sides.pop() {
            next = leave(code, &mut sides, side, next.levels)?;
        } else {
            return Ok(());
        }
    }
}
