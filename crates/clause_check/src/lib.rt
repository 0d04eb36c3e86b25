//! Sentences checked, and kept as a program: what the queries of a text are, or the first refusal in it.
#![tactic(auto)]

ghost use Rattle.std.specs.Prelude.{◌≡◌, ◌≤◌, None, IfOk, IfErr};
ghost use Rattle.fd_model.specs.Queries.{program_of};
ghost use Rattle.fd_model.specs.Refusals.{first_refusal};
ghost use Rattle.term_reader.specs.GivenParts.{HaveParts};
ghost use Rattle.term_reader.specs.VariableNames.{HaveNames};
ghost use Rattle.term_reader.specs.Sentences.{sentences_of, AreOwn};
ghost use Rattle.clause_check.specs.Causes.{Refuses};
ghost use Rattle.clause_check.specs.Programs.{program_in};
ghost use Rattle.clause_check.specs.Terms.{terms_of};

mod arities;
mod check;
mod faults;
mod forms;
mod goals;
mod heads;
mod kept_goals;
mod program;
mod ranges;
mod terms;

use crate::check::check_sentences;
use crate::faults::with_pool;
pub use crate::faults::{Cause, ProgramFault};
pub use crate::program::{FlatClause, FlatGoal, Part, Program};
use fd_language::INFINITY;
use std::alloc::Global;
use term_reader::Sentences;

/// The program of a text's sentences, or the first refusal among them. The pool of the sentences stands in the program, or is handed
/// back with the refusal, so that its names can be printed.
///
/// A sentence is looked at after those before it: its compound terms first, then its head, then its goals from left to right, and a goal's range
/// after its name and its target. `infinity` is the number that the word is read as, the greatest that a variable may have.
pub fn check_program(alloc: Global, s: Sentences, infinity: u32) -> Result<Program, ProgramFault>
    requires some { 1 ≤ infinity }
    requires most { infinity ≤ INFINITY }
    requires own { AreOwn s }
    requires names { HaveNames s }
    requires parts { HaveParts s }
    ensures accepted { IfOk result (λ p. first_refusal INFINITY infinity (terms_of s) (terms_of s)
        ≡ None) }
    ensures program { IfOk result (λ p. program_in p ≡ program_of infinity (sentences_of s)) }
    ensures pool { IfOk result (λ p. p.pool ≡ s.pool) }
    ensures refused { IfErr result (Refuses s.pool (first_refusal INFINITY infinity (terms_of s)
        (terms_of s))) }
{
    match check_sentences(alloc, &s, infinity) {
        Ok(parts) => {
            let store = parts.store;
            Ok(Program::from_parts(
                s.pool,
                store.ranges,
                store.goals,
                parts.clauses,
                parts.queries,
            ))
        }
        Err(fault) => Err(with_pool(fault, s.pool)),
    }
}
