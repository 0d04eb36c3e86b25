//! The code of a program.

ghost use Rattle.std.specs.Prelude.{◌≡◌, [], IfOk, map};
ghost use Rattle.clause_check.specs.Programs.{program_in};
ghost use Rattle.clause_compiler.specs.Layout.{IsLaidOut};
ghost use Rattle.clause_code.specs.Predicates.{ArePredicates};
ghost use Rattle.clause_compiler.specs.Parts.{area_laid, area_with, tables_in};
ghost use Rattle.clause_compiler.specs.PredicateSwitches.{HasSwitches};
ghost use Rattle.wam_code.specs.Area.{span_of};
ghost use Rattle.wam_code.specs.Keys.{HasRisingTables};
ghost use Rattle.wam_code.specs.Tries.{StandsForProgram};

use crate::choices::{place_choices, put_choices};
use crate::groups::groups_of;
use crate::ranges::ranges_of;
use crate::sections::{put_clauses, put_queries};
use clause_check::Program;
use clause_code::{Predicates, level_needs, predicates_of};
use fd_language::NoMemory;
use range_code::RangeCode;
use std::alloc::Global;
use std::rc::Rc;
use wam_code::{Code, CodeArea, CodeParts, Entry, Key, QueryEntry};

/// The code of a program, with all that it names but the pool.
#[derive(Drop)]
struct Parts {
    code: Vec<Code>,
    tables: Vec<Vec<(Key, usize)>>,
    ranges: Vec<Rc<RangeCode>>,
    entries: Vec<Entry>,
    queries: Vec<QueryEntry>,
}

/// Puts the choices by the clauses' numbers, the clauses, the queries, and then the clauses' places
/// in the choices. Gives where predicates and queries begin. The error is want of memory.
fn put_program(
    alloc: Global,
    program: &Program,
    ranges: &[Rc<RangeCode>],
    predicates: &Predicates,
    code: &mut Vec<Code>,
    tables: &mut Vec<Vec<(Key, usize)>>,
) -> Result<(Vec<Entry>, Vec<QueryEntry>), NoMemory>
    requires ranges { map (λ r. r.value) ranges.now ≡ program.now.ranges }
    requires predicates { ArePredicates program.now predicates.now }
    requires code { code.old.items ≡ [] }
    requires tables { tables.old.items ≡ [] }
    ensures { IfOk result (λ r. IsLaidOut (area_laid program.now code.new.items
        (tables_in tables.new) r.0.items (map span_of r.1.items)) (program_in program.now)) }
{
    program.known();
    let groups = groups_of(alloc, program, predicates)?;
    let entries = put_choices(alloc, program, predicates, &groups, code, tables)?;
    let choices = code.len();
    let needs = level_needs(alloc, program)?;
    let places = put_clauses(alloc, program, ranges, predicates, &needs, code)?;
    let queries = put_queries(alloc, program, ranges, predicates, &needs, code)?;
    place_choices(code, choices, &places);
    Ok((entries, queries))
}

/// The code of a program, put together. The error is want of memory.
fn parts_of(alloc: Global, program: &Program) -> Result<Parts, NoMemory>
    ensures { IfOk result (λ x. IsLaidOut (area_with program.now.pool x) (program_in program.now)) }
{
    program.known();
    let ranges = ranges_of(alloc, program)?;
    let predicates = predicates_of(alloc, program)?;
    let mut code = Vec::new(alloc);
    let mut tables = Vec::new(alloc);
    let (entries, queries) = put_program(
        alloc,
        program,
        &ranges,
        &predicates,
        &mut code,
        &mut tables,
    )?;
    Ok(Parts {
        code,
        tables,
        ranges,
        entries,
        queries,
    })
}

/// The code of a program: a predicate whose clauses the first argument tells apart begins with a
/// switch by its kind, and the keys of each table rise. The error is want of memory.
pub fn compile(alloc: Global, program: Program) -> Result<CodeArea, NoMemory>
    ensures stands { IfOk result (λ a. StandsForProgram a (program_in program)) }
    ensures switches { IfOk result (λ a. HasSwitches a (program_in program)) }
    ensures rising { IfOk result HasRisingTables }
{
    let parts = parts_of(alloc, &program)?;
    Ok(CodeArea::from_verified(CodeParts {
        pool: program.into_pool(),
        code: parts.code,
        tables: parts.tables,
        ranges: parts.ranges,
        entries: parts.entries,
        queries: parts.queries,
    }))
}
