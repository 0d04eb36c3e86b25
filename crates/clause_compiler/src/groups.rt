//! The clauses of each predicate.

ghost use Rattle.std.specs.Prelude.{◌≡◌, ◌<◌, ◌+◌, ℕ, false, [], length, map, IfOk, IfSome, IfNone, Some, slice_get};
ghost use Rattle.clause_code.specs.Pieces.{Predicate};
ghost use Rattle.clause_code.specs.Predicates.{ArePredicates};
ghost use Rattle.clause_compiler.specs.Groups.{head_predicate, is_predicate, AreGroups};

use clause_check::Program;
use clause_code::Predicates;
use fd_language::NoMemory;
use std::alloc::Global;
use term_pool::Node;

/// The number of the predicate of the clause's head.
fn number_of_head(program: &Program, predicates: &Predicates, clause: usize) -> Option<usize>
    requires { clause < length program.now.clauses }
    ensures found { IfSome result (λ n. slice_get predicates.now n
        ≡ head_predicate program.now clause) }
    ensures within { IfSome result (λ n. n < length predicates.now) }
    ensures none { IfNone result ((n : ℕ) (s : Predicate) → slice_get predicates.now n ≡ Some s
        → is_predicate s (head_predicate program.now clause) ≡ false) }
{
    match program.pool().view(program.head(clause)) {
        Node::Atom(name) => predicates.number_of(name, 0),
        Node::Comp(name, parts) => predicates.number_of(name, parts.len()),
        Node::Var(_) | Node::Int(_) => None,
    }
}

/// For each predicate a group with no clause. The error is want of memory.
fn empty_groups(alloc: Global, predicates: &Predicates) -> Result<Vec<Vec<usize>>, NoMemory>
    ensures { IfOk result (λ v. map (λ g. g.items) v.items ≡ map (λ s. []) predicates.now) }
{
    let mut groups = Vec::with_capacity(alloc, predicates.len())?;
    for _predicate in 0..predicates.len() {
        groups.push(Vec::new(alloc))?;
    }
    Ok(groups)
}

/// For each predicate, by its number, the numbers of its clauses in text order. The error is want
/// of memory.
pub(crate) fn groups_of(
    alloc: Global,
    program: &Program,
    predicates: &Predicates,
) -> Result<Vec<Vec<usize>>, NoMemory>
    requires { ArePredicates program.now predicates.now }
    ensures { IfOk result (λ v. AreGroups program.now predicates.now (length program.now.clauses)
        (map (λ g. g.items) v.items)) }
{
    let mut groups = empty_groups(alloc, predicates)?;
    for clause in 0..program.clauses() {
        if let Some(n) = number_of_head(program, predicates, clause) {
            groups[n].push(clause)?;
        }
    }
    Ok(groups)
}
