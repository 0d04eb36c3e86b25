//! The code of one clause.

ghost use Rattle.std.specs.Prelude.{◌≡◌, ◌<◌, ◌≤◌, ◌+◌, ◌-◌, [], length, map, IfOk, IfSome, OnOk};
ghost use Rattle.clause_check.specs.declared.program.FlatGoal.TheVariants.{Call};
ghost use Rattle.clause_check.specs.Programs.{IsPart, goal_at, clause_at, clause_in, program_in};
ghost use Rattle.clause_code.specs.CodablePrograms.{IsCodable};
ghost use Rattle.clause_code.specs.LevelSlots.{each_need, AreNeeds};
ghost use Rattle.clause_code.specs.Predicates.{ArePredicates, Appends, base_in};
ghost use Rattle.clause_code.specs.SafeCode.{IsClauseCode};
ghost use Rattle.clause_code.specs.ClauseParts.{levels_behind, unmade, InOrder};

use crate::frameless_clauses::{Body, body_of, compile_short};
use crate::goals::{execute, write_goals};
use crate::heads::write_head;
use crate::levels::Levels;
use crate::needs::{levels_behind, most_needed};
use crate::predicates::Predicates;
use crate::terms::Work;
use clause_check::{FlatGoal, Part, Program};
use fd_language::NoMemory;
use range_code::RangeCode;
use std::alloc::Global;
use std::rc::Rc;
use term_pool::TermId;
use wam_code::{Code, Register};

/// The slots of a frame: variable x has the slot x + 1.
fn slot_homes(alloc: Global, variables: usize) -> Result<Vec<Register>, NoMemory>
    ensures { IfOk result (λ h. InOrder h.items variables) }
{
    let mut homes = Vec::with_capacity(alloc, variables)?;
    for x in 0..variables {
        homes.push(Register::Y(x + 1))?;
    }
    Ok(homes)
}

/// The last goal of a body, if it is a user goal.
fn last_call(program: &Program, body: Part) -> Option<TermId>
    requires { IsPart (length program.now.goals) body }
    ensures some { IfSome result (λ t. body.from < body.to) }
    ensures call { IfSome result (λ t. goal_at program.now (body.to - 1) ≡ Call t) }
{
    if body.from == body.to {
        return None;
    }
    match program.goal(body.to - 1) {
        FlatGoal::Call(t) => Some(t),
        _ => None,
    }
}

/// The code of the clause c, whose variables have these homes in a frame with so many slots, behind which are its level slots.
fn write_clause(
    alloc: Global,
    program: &Program,
    ranges: &[Rc<RangeCode>],
    predicates: &Predicates,
    homes: &[Register],
    made: &mut Vec<bool>,
    code: &mut Vec<Code>,
    works: &mut Vec<Work>,
    c: usize,
    slots: usize,
    levels: Levels,
) -> Result<(), NoMemory>
    requires clause { c < length program.now.clauses }
    requires predicates { ArePredicates program.now predicates.now }
    requires slots { slots ≡ (clause_at program.now c).variables
        + each_need (clause_in program.now (clause_at program.now c)).body }
    requires levels { levels ≡ levels_behind (clause_at program.now c).variables
        (each_need (clause_in program.now (clause_at program.now c)).body) }
    requires ranges { map (λ r. r.value) ranges.now ≡ program.now.ranges }
    requires homes { InOrder homes.now (clause_at program.now c).variables }
    requires made { made.old.items ≡ unmade homes.now }
    requires works { works.old.items ≡ [] }
    ensures { OnOk result (Appends code.old.items code.new.items
        (λ is. IsClauseCode (base_in program.now predicates.now) (length code.old.items) is
        (clause_in program.now (clause_at program.now c)))) }
{
    program.known();
    let pool = program.pool();
    let body = program.body(c);
    write_head(
        pool,
        homes,
        made,
        code,
        works,
        program.head(c),
        slots,
        levels,
    )?;
    match last_call(program, body) {
        Some(t) => {
            let before = Part {
                from: body.from,
                to: body.to - 1,
            };
            write_goals(
                alloc, program, ranges, predicates, homes, made, code, works, before, levels,
            )?;
            execute(pool, predicates, homes, made, code, works, t)?;
        }
        None => {
            write_goals(
                alloc, program, ranges, predicates, homes, made, code, works, body, levels,
            )?;
            code.push(Code::Deallocate)?;
            code.push(Code::Proceed)?;
        }
    }
    Ok(())
}

/// The code of the clause c, whose variables are in a frame.
fn compile_framed(
    alloc: Global,
    program: &Program,
    ranges: &[Rc<RangeCode>],
    predicates: &Predicates,
    needs: &[usize],
    c: usize,
    code: &mut Vec<Code>,
) -> Result<(), NoMemory>
    requires clause { c < length program.now.clauses }
    requires predicates { ArePredicates program.now predicates.now }
    requires needs { AreNeeds program.now (length program.now.goals) needs.now }
    requires ranges { map (λ r. r.value) ranges.now ≡ program.now.ranges }
    ensures { OnOk result (Appends code.old.items code.new.items
        (λ is. IsClauseCode (base_in program.now predicates.now) (length code.old.items) is
        (clause_in program.now (clause_at program.now c)))) }
{
    program.known();
    let variables = program.variables_of_clause(c);
    let count = most_needed(program, needs, program.body(c));
    let slots = variables.checked_add(count).ok_or(NoMemory)?;
    let levels = levels_behind(variables, count)?;
    let homes = slot_homes(alloc, variables)?;
    let mut made = vec![in alloc; false; homes.len()]?;
    let mut works = Vec::new(alloc);
    write_clause(
        alloc, program, ranges, predicates, &homes, &mut made, code, &mut works, c, slots, levels,
    )
}

/// Writes the code of the clause c behind what `code` has. `ranges` are the program's, by
/// their numbers, and `needs` says how many level slots its goals need. Where the body is a user goal alone, or empty, there is no frame. The
/// error is want of memory.
pub fn compile_clause(
    alloc: Global,
    program: &Program,
    ranges: &[Rc<RangeCode>],
    predicates: &Predicates,
    needs: &[usize],
    c: usize,
    code: &mut Vec<Code>,
) -> Result<(), NoMemory>
    requires clause { c < length program.now.clauses }
    requires needs { AreNeeds program.now (length program.now.goals) needs.now }
    requires codable { IsCodable (program_in program.now) }
    requires ranges { map (λ r. r.value) ranges.now ≡ program.now.ranges }
    requires predicates { ArePredicates program.now predicates.now }
    ensures { OnOk result (Appends code.old.items code.new.items
        (λ is. IsClauseCode (base_in program.now predicates.now) (length code.old.items) is
        (clause_in program.now (clause_at program.now c)))) }
{
    match body_of(program, program.body(c)) {
        Body::Empty => compile_short(alloc, program, predicates, c, None, code),
        Body::Call(t) => compile_short(alloc, program, predicates, c, Some(t), code),
        Body::Longer => compile_framed(alloc, program, ranges, predicates, needs, c, code),
    }
}
