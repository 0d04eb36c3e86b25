//! The code of one query.

ghost use Rattle.std.specs.Prelude.{◌≡◌, ℕ, ◌<◌, ◌+◌, length, map, All, IfOk, OnOk, suc, ◌^◌, ◌≤◌, OnErr};
ghost use Rattle.clause_check.specs.Programs.{query_at, query_in, program_in};
ghost use Rattle.wam_code.specs.declared.instruction.Register.TheVariants.{Y};
ghost use Rattle.clause_code.specs.CodablePrograms.{AreOnce, IsCodable};
ghost use Rattle.clause_code.specs.LevelSlots.{each_need, AreNeeds};
ghost use Rattle.clause_code.specs.Predicates.{ArePredicates, Appends, base_in};
ghost use Rattle.clause_code.specs.SafeCode.{IsQueryPiece};
ghost use Rattle.clause_code.specs.Slots.{AreAll, AreGiven, AreShown, IsQueryFrame, slot};

use crate::argument_homes::added;
use crate::goals::write_goals;
use crate::heads::{read_arguments, write_levels};
use crate::needs::{levels_behind, most_needed};
use crate::predicates::Predicates;
use clause_check::Program;
use fd_language::NoMemory;
use range_code::RangeCode;
use std::alloc::Global;
use std::rc::Rc;
use wam_code::{Code, Register};

/// The slots of a frame, one for each variable, and how many there are.
#[derive(Drop)]
struct QuerySlots {
    homes: Vec<Register>,
    slots: usize,
}

/// The places that a query's code uses: the registers of its variables, how many slots these have, and how many are behind them
/// for levels.
#[derive(Clone, Copy)]
struct QueryPlaces<'h> {
    homes: &'h [Register],
    slots: usize,
    levels: usize,
}

/// The slots of the shown variables, from 1 on, by the variables' numbers. The others have 0.
fn shown_slots(alloc: Global, variables: usize, shown: &[u64]) -> Result<Vec<usize>, NoMemory>
    requires below { All (λ x. x < variables) shown.now }
    requires once { AreOnce shown.now }
    ensures given { IfOk result (λ s. AreGiven variables (length shown.now + 1) s.items) }
    ensures shown { IfOk result (λ s. AreShown shown.now (length shown.now) s.items) }
{
    let mut slots = vec![in alloc; 0; variables]?;
    let mut next = 1;
    for x in shown {
        slots[*x as usize] = next;
        next += 1;
    }
    Ok(slots)
}

/// Gives the slot to the variable x, unless it has one. Returns the next free slot.
fn give_one(slots: &mut Vec<usize>, x: usize, next: usize) -> Result<usize, NoMemory>
    requires within { x < length slots.old.items }
    requires given { AreGiven (length slots.old.items) next slots.old.items }
    ensures given { IfOk result (λ n. AreGiven (length slots.old.items) n slots.new.items) }
    ensures next { IfOk result (λ n. n ≤ suc next) }
    ensures memory { OnErr result (2 ^ 64 ≤ suc next) }
    ensures here { OnOk result (0 < slot slots.new.items x) }
    ensures kept { (y : ℕ) → 0 < slot slots.old.items y
        → slot slots.new.items y ≡ slot slots.old.items y }
{
    if slots[x] != 0 {
        return Ok(next);
    }
    slots[x] = next;
    next.checked_add(1).ok_or(NoMemory)
}

/// Gives slots to the variables that have none. Returns the slot behind all.
fn give_others(slots: &mut Vec<usize>, first: usize) -> Result<usize, NoMemory>
    requires { AreGiven (length slots.old.items) first slots.old.items }
    ensures given { IfOk result (λ n. AreGiven (length slots.old.items) n slots.new.items) }
    ensures memory { OnErr result (2 ^ 64 ≤ first + length slots.old.items) }
    ensures all { OnOk result (AreAll (length slots.old.items) slots.new.items) }
    ensures kept { (y : ℕ) → 0 < slot slots.old.items y
        → slot slots.new.items y ≡ slot slots.old.items y }
{
    let mut next = first;
    for x in 0..slots.len() {
        next = give_one(slots, x, next)?;
    }
    Ok(next)
}

/// The registers of these slots.
fn homes_of(alloc: Global, slots: &[usize]) -> Result<Vec<Register>, NoMemory>
    ensures { IfOk result (λ h. h.items ≡ map Y slots.now) }
{
    Ok(slots.iter().map(|slot| Register::Y(*slot)).collect(alloc)?)
}

/// The frame of a query: the shown variables are in its first slots, in their order.
fn frame_of(alloc: Global, variables: usize, shown: &[u64]) -> Result<QuerySlots, NoMemory>
    requires below { All (λ x. x < variables) shown.now }
    requires once { AreOnce shown.now }
    ensures { IfOk result (λ f. IsQueryFrame variables shown.now f.homes.items f.slots) }
{
    let mut slots = shown_slots(alloc, variables, shown)?;
    let behind = give_others(&mut slots, shown.len() + 1)?;
    let homes = homes_of(alloc, &slots)?;
    Ok(QuerySlots {
        homes,
        slots: behind - 1,
    })
}

/// The code of the query q, whose variables and levels have these places.
fn write_query(
    alloc: Global,
    program: &Program,
    ranges: &[Rc<RangeCode>],
    predicates: &Predicates,
    frame: QueryPlaces<'_>,
    q: usize,
    code: &mut Vec<Code>,
) -> Result<(), NoMemory>
    requires query { q < length program.now.queries }
    requires predicates { ArePredicates program.now predicates.now }
    requires ranges { map (λ r. r.value) ranges.now ≡ program.now.ranges }
    requires frame { IsQueryFrame (query_at program.now q).variables (query_at program.now q).shown
        frame.homes.now frame.slots }
    requires levels { frame.levels
        ≡ each_need (query_in program.now (query_at program.now q)).goals }
    ensures { OnOk result (Appends code.old.items code.new.items
        (λ is. IsQueryPiece (base_in program.now predicates.now) (length code.old.items) is
        (query_in program.now (query_at program.now q)))) }
{
    program.known();
    let pool = program.pool();
    let goals = program.goals_of(q);
    let homes = frame.homes;
    let slots = added(frame.slots, frame.levels)?;
    let levels = levels_behind(frame.slots, frame.levels)?;
    let mut made = vec![in alloc; false; homes.len()]?;
    let mut works = Vec::new(alloc);
    code.push(Code::Allocate(slots))?;
    read_arguments(pool, homes, &mut made, code, &mut works, &[])?;
    write_levels(code, levels)?;
    write_goals(
        alloc, program, ranges, predicates, homes, &mut made, code, &mut works, goals, levels,
    )?;
    code.push(Code::AnswerNow)?;
    Ok(())
}

/// Writes the code of the query q behind what `code` has. `ranges` are the program's, by
/// their numbers, and `needs` says how many level slots its goals need. The error is want of memory.
pub fn compile_query(
    alloc: Global,
    program: &Program,
    ranges: &[Rc<RangeCode>],
    predicates: &Predicates,
    needs: &[usize],
    q: usize,
    code: &mut Vec<Code>,
) -> Result<(), NoMemory>
    requires query { q < length program.now.queries }
    requires needs { AreNeeds program.now (length program.now.goals) needs.now }
    requires codable { IsCodable (program_in program.now) }
    requires ranges { map (λ r. r.value) ranges.now ≡ program.now.ranges }
    requires predicates { ArePredicates program.now predicates.now }
    ensures { OnOk result (Appends code.old.items code.new.items
        (λ is. IsQueryPiece (base_in program.now predicates.now) (length code.old.items) is
        (query_in program.now (query_at program.now q)))) }
{
    program.known();
    let given = frame_of(alloc, program.variables(q), program.shown(q))?;
    let frame = QueryPlaces {
        homes: given.homes.as_slice(),
        slots: given.slots,
        levels: most_needed(program, needs, program.goals_of(q)),
    };
    write_query(alloc, program, ranges, predicates, frame, q, code)
}
