//! The clauses and the queries of a program, each put behind what is there.

ghost use Rattle.std.specs.Prelude.{◌≡◌, length, map, IfOk};
ghost use Rattle.clause_check.specs.Programs.{program_in};
ghost use Rattle.clause_code.specs.CodablePrograms.{IsCodable};
ghost use Rattle.clause_code.specs.LevelSlots.{AreNeeds};
ghost use Rattle.clause_code.specs.Predicates.{ArePredicates};
ghost use Rattle.clause_compiler.specs.Sections.{ArePut, IsClausePiece, IsQueryOf, its_place, its_span};
ghost use Rattle.wam_code.specs.Area.{span_of};

use clause_check::Program;
use clause_code::{Predicates, compile_clause, compile_query};
use fd_language::NoMemory;
use range_code::RangeCode;
use std::alloc::Global;
use std::rc::Rc;
use term_pool::AtomId;
use wam_code::{Code, QueryEntry};

/// Puts the clauses behind the code, whose goals need so many level slots. Gives their places. The error is want of memory.
pub(crate) fn put_clauses(
    alloc: Global,
    program: &Program,
    ranges: &[Rc<RangeCode>],
    predicates: &Predicates,
    needs: &[usize],
    code: &mut Vec<Code>,
) -> Result<Vec<usize>, NoMemory>
    requires codable { IsCodable (program_in program.now) }
    requires ranges { map (λ r. r.value) ranges.now ≡ program.now.ranges }
    requires predicates { ArePredicates program.now predicates.now }
    requires needs { AreNeeds program.now (length program.now.goals) needs.now }
    ensures { IfOk result (λ v. ArePut its_place (IsClausePiece program.now predicates.now)
        (length program.now.clauses) code.old.items code.new.items v.items) }
{
    let mut places = Vec::with_capacity(alloc, program.clauses())?;
    for clause in 0..program.clauses() {
        let at = code.len();
        compile_clause(alloc, program, ranges, predicates, needs, clause, code)?;
        places.push(at)?;
    }
    Ok(places)
}

/// The same names.
fn names_of(alloc: Global, names: &[AtomId]) -> Result<Vec<AtomId>, NoMemory>
    ensures { IfOk result (λ v. v.items ≡ names.now) }
{
    let mut copy = Vec::with_capacity(alloc, names.len())?;
    for i in 0..names.len() {
        copy.push(names[i])?;
    }
    Ok(copy)
}

/// Puts the queries behind the code, whose goals need so many level slots. Gives their entries. The error is want of memory.
pub(crate) fn put_queries(
    alloc: Global,
    program: &Program,
    ranges: &[Rc<RangeCode>],
    predicates: &Predicates,
    needs: &[usize],
    code: &mut Vec<Code>,
) -> Result<Vec<QueryEntry>, NoMemory>
    requires codable { IsCodable (program_in program.now) }
    requires ranges { map (λ r. r.value) ranges.now ≡ program.now.ranges }
    requires predicates { ArePredicates program.now predicates.now }
    requires needs { AreNeeds program.now (length program.now.goals) needs.now }
    ensures { IfOk result (λ v. ArePut (its_span program.now) (IsQueryOf program.now predicates.now)
        (length program.now.queries) code.old.items code.new.items (map span_of v.items)) }
{
    let mut queries = Vec::with_capacity(alloc, program.queries())?;
    for query in 0..program.queries() {
        let at = code.len();
        compile_query(alloc, program, ranges, predicates, needs, query, code)?;
        queries.push(QueryEntry {
            at,
            end: code.len(),
            names: names_of(alloc, program.names(query))?,
        })?;
    }
    Ok(queries)
}
