//! Some goals of a part, put behind all goals of a program.

ghost use Rattle.std.specs.Prelude.{◌≡◌, ◌+◌, ◌++◌, List, length, OnOk};
ghost use Rattle.clause_check.specs.Programs.{IsPart};
ghost use Rattle.clause_check.specs.declared.program.FlatGoal.{FlatGoal as AnyGoal};
ghost use Rattle.clause_check.specs.FewerGoals.{flat_kept, flat_without_best};

use crate::program::{FlatGoal, Part};
use fd_language::NoMemory;

/// A labelling in place of a search for its best leaf; any other goal as it is.
fn without_best(goal: FlatGoal) -> FlatGoal
    ensures { result ≡ flat_without_best goal }
{
    match goal {
        FlatGoal::Best(order, _, list, _) => FlatGoal::Label(order, list),
        other => other,
    }
}

/// Puts those goals of a part that are kept behind all goals, with a labelling in place of each search for its best leaf. For want of
/// memory some of them may stand there.
pub(crate) fn put_kept(goals: &mut Vec<FlatGoal>, part: Part, kept: &[bool]) -> Result<(), NoMemory>
    requires part { IsPart (length goals.old.items) part }
    requires each { part.from + length kept.now ≡ part.to }
    ensures kept { OnOk result
        (goals.new.items ≡ goals.old.items ++ flat_kept kept.now goals.old.items part) }
    ensures behind { (more : List AnyGoal) × (goals.new.items ≡ goals.old.items ++ more) }
{
    for i in 0..kept.len() {
        if kept[i] {
            let goal = without_best(goals[part.from + i]);
            goals.push(goal)?;
        }
    }
    Ok(())
}
