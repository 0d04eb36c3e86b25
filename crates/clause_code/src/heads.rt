//! The heads of clauses.

ghost use Rattle.std.specs.Prelude.{◌≡◌, suc, ◌<◌, ◌≤◌, [], ◌++◌, length, All, OnOk};
ghost use Rattle.fd_model.specs.ConstraintExpansion.{arguments};
ghost use Rattle.term_pool.specs.Terms.{term_of, terms_by};
ghost use Rattle.fd_language.specs.Term.{term_count};
ghost use Rattle.clause_code.specs.SimpleGoals.{AreMade, IsOwn};
ghost use Rattle.clause_code.specs.Steps.{AllSuit};
ghost use Rattle.clause_code.specs.ClauseParts.{begin_code, head_code, levels_code, unmade};

use crate::levels::Levels;
use crate::terms::{Work, fill_all, get_all};
use fd_language::NoMemory;
use term_pool::{Node, Pool, TermId};
use wam_code::{Code, Register};

/// Reads the arguments of a head, by way of the registers from `free` on, and makes the variables that are in the body alone.
pub(crate) fn read_by(
    pool: &Pool,
    homes: &[Register],
    made: &mut Vec<bool>,
    code: &mut Vec<Code>,
    works: &mut Vec<Work>,
    ids: &[TermId],
    free: usize,
) -> Result<(), NoMemory>
    requires own { All (λ t. t.number < length pool.now.entries) ids.now }
    requires few { length ids.now ≤ 255 }
    requires suits { AllSuit pool.now (length homes.now) (terms_by (term_of pool.now) ids.now) }
    requires made { made.old.items ≡ unmade homes.now }
    requires works { works.old.items ≡ [] }
    ensures code { OnOk result (code.new.items ≡ code.old.items
        ++ head_code pool.now homes.now free (terms_by (term_of pool.now) ids.now)) }
    ensures made { OnOk result (AreMade made.new.items) }
    ensures long { OnOk result (length made.new.items ≡ length homes.now) }
    ensures works { OnOk result (works.new.items ≡ []) }
{
    get_all(pool, homes, made, code, works, ids, free)?;
    fill_all(homes, made, code, free)?;
    Ok(())
}

/// Reads the arguments of a head by way of the registers behind them.
pub(crate) fn read_arguments(
    pool: &Pool,
    homes: &[Register],
    made: &mut Vec<bool>,
    code: &mut Vec<Code>,
    works: &mut Vec<Work>,
    ids: &[TermId],
) -> Result<(), NoMemory>
    requires own { All (λ t. t.number < length pool.now.entries) ids.now }
    requires few { length ids.now ≤ 255 }
    requires suits { AllSuit pool.now (length homes.now) (terms_by (term_of pool.now) ids.now) }
    requires made { made.old.items ≡ unmade homes.now }
    requires works { works.old.items ≡ [] }
    ensures code { OnOk result (code.new.items ≡ code.old.items
        ++ head_code pool.now homes.now (suc (term_count (terms_by (term_of pool.now) ids.now)))
        (terms_by (term_of pool.now) ids.now)) }
    ensures made { OnOk result (AreMade made.new.items) }
    ensures long { OnOk result (length made.new.items ≡ length homes.now) }
    ensures works { OnOk result (works.new.items ≡ []) }
{
    read_by(pool, homes, made, code, works, ids, ids.len() + 1)
}

/// The head of a clause, by way of the registers from `free` on.
pub(crate) fn read_head(
    pool: &Pool,
    homes: &[Register],
    made: &mut Vec<bool>,
    code: &mut Vec<Code>,
    works: &mut Vec<Work>,
    head: TermId,
    free: usize,
) -> Result<(), NoMemory>
    requires own { IsOwn pool.now (length homes.now) head }
    requires made { made.old.items ≡ unmade homes.now }
    requires works { works.old.items ≡ [] }
    ensures code { OnOk result (code.new.items ≡ code.old.items
        ++ head_code pool.now homes.now free (arguments (term_of pool.now head))) }
    ensures made { OnOk result (AreMade made.new.items) }
    ensures long { OnOk result (length made.new.items ≡ length homes.now) }
    ensures works { OnOk result (works.new.items ≡ []) }
{
    match pool.view(head) {
        Node::Comp(_, parts) => read_by(pool, homes, made, code, works, parts, free),
        _ => read_by(pool, homes, made, code, works, &[], free),
    }
}

/// The level slots take the depth that was noted.
pub(crate) fn write_levels(code: &mut Vec<Code>, levels: Levels) -> Result<(), NoMemory>
    ensures { OnOk result (code.new.items ≡ code.old.items ++ levels_code levels) }
{
    for slot in levels.first..levels.end {
        code.push(Code::Level(slot))?;
    }
    Ok(())
}

/// The frame with so many slots, the head of a clause, and the level slots.
pub(crate) fn write_head(
    pool: &Pool,
    homes: &[Register],
    made: &mut Vec<bool>,
    code: &mut Vec<Code>,
    works: &mut Vec<Work>,
    head: TermId,
    slots: usize,
    levels: Levels,
) -> Result<(), NoMemory>
    requires own { IsOwn pool.now (length homes.now) head }
    requires made { made.old.items ≡ unmade homes.now }
    requires works { works.old.items ≡ [] }
    ensures code { OnOk result (code.new.items ≡ code.old.items
        ++ begin_code pool.now homes.now slots levels (term_of pool.now head)) }
    ensures made { OnOk result (AreMade made.new.items) }
    ensures long { OnOk result (length made.new.items ≡ length homes.now) }
    ensures works { OnOk result (works.new.items ≡ []) }
{
    code.push(Code::Allocate(slots))?;
    match pool.view(head) {
        Node::Comp(_, parts) => read_arguments(pool, homes, made, code, works, parts)?,
        _ => read_arguments(pool, homes, made, code, works, &[])?,
    }
    write_levels(code, levels)
}
