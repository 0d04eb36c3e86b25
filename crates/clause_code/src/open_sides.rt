//! The open sides of `A ; B`, and the open parts of tests, while a body is written.

ghost use Rattle.std.specs.Prelude.{◌≡◌, ◌<◌, [], ◌∷◌, ◌++◌, length, slice_set, IfOk, OnOk};
ghost use Rattle.wam_code.specs.declared.instruction.Code.TheVariants.{Jump, CutTo};
ghost use Rattle.clause_code.specs.declared.open_sides.Side.TheVariants.{Right};
ghost use Rattle.clause_code.specs.Sides.{HasPlace, Enters, Leaves};

use crate::levels::Levels;
use clause_check::{FlatGoal, Part};
use fd_language::NoMemory;
use fd_model::kinds::BuiltinKind;
use wam_code::Code;

/// A part that is being written, and what is written behind it.
#[derive(Clone, Copy)]
pub(crate) enum Side {
    /// The left side of an `A ; B`: where its `Either` stands, the right side, and the goals behind the `A ; B`.
    Left {
        either: usize,
        right: Part,
        rest: Part,
    },
    /// The right side, or the other way of a test: where the `Jump` before it stands, and the goals behind.
    Right {
        jump: usize,
        rest: Part,
    },
    /// The test of a `C -> A`: the levels outside, `A`, and the goals behind.
    Test {
        outer: Levels,
        holds: Part,
        rest: Part,
    },
    /// The `A` of that.
    Held {
        rest: Part,
    },
    /// The test of a `C -> A ; B`: where its `EnterTest` stands, the levels outside, `A`, `B`, and the goals behind.
    Choice {
        at: usize,
        outer: Levels,
        holds: Part,
        other: Part,
        rest: Part,
    },
    /// The `A` of that.
    Chosen {
        at: usize,
        other: Part,
        rest: Part,
    },
    /// The test of a negation: where its `EnterTest` stands, the levels outside, and the goals behind.
    Denial {
        at: usize,
        outer: Levels,
        rest: Part,
    },
}

/// The part that is next, and where its cuts go.
#[derive(Clone, Copy)]
pub(crate) struct Next {
    pub part: Part,
    pub levels: Levels,
}

/// What is next behind the goal's instructions, the first of which stands at the place `at`: the left side of an `A ; B`, the
/// test of an if or a negation, and else the rest.
pub(crate) fn enter(
    sides: &mut Vec<Side>,
    goal: FlatGoal,
    at: usize,
    rest: Part,
    levels: Levels,
) -> Result<Next, NoMemory>
    ensures { IfOk result (λ n. Enters goal at rest levels sides.old.items sides.new.items
        n.part
        n.levels) }
{
    match goal {
        FlatGoal::Either(left, right) => {
            sides.push(Side::Left {
                either: at,
                right,
                rest,
            })?;
            Ok(Next { part: left, levels })
        }
        FlatGoal::If(test, holds, None) => {
            let inner = levels.in_lone_test()?;
            sides.push(Side::Test {
                outer: levels,
                holds,
                rest,
            })?;
            Ok(Next {
                part: test,
                levels: inner,
            })
        }
        FlatGoal::If(test, holds, Some(other)) => {
            let inner = levels.in_choice()?;
            sides.push(Side::Choice {
                at,
                outer: levels,
                holds,
                other,
                rest,
            })?;
            Ok(Next {
                part: test,
                levels: inner,
            })
        }
        FlatGoal::Not(test) => {
            let inner = levels.in_choice()?;
            sides.push(Side::Denial {
                at,
                outer: levels,
                rest,
            })?;
            Ok(Next {
                part: test,
                levels: inner,
            })
        }
        _ => Ok(Next { part: rest, levels }),
    }
}

/// Behind the first of two ways: the jump over the other one, which is next. The choice, at its place, leads there.
fn turn(
    code: &mut Vec<Code>,
    sides: &mut Vec<Side>,
    at: usize,
    choice: Code,
    other: Part,
    rest: Part,
    levels: Levels,
) -> Result<Next, NoMemory>
    requires { at < length code.old.items }
    ensures code { OnOk result (code.new.items
        ≡ slice_set (code.old.items ++ (Jump 0 ∷ [])) at choice) }
    ensures sides { OnOk result (sides.new.items
        ≡ sides.old.items ++ (Right (length code.old.items) rest ∷ [])) }
    ensures next { IfOk result (λ n. (n.part ≡ other) × (n.levels ≡ levels)) }
{
    let jump = code.len();
    code.push(Code::Jump(0))?;
    code[at] = choice;
    sides.push(Side::Right { jump, rest })?;
    Ok(Next {
        part: other,
        levels,
    })
}

/// Behind a test: its cut, and the goals for when it holds, which are the side.
fn commit(
    code: &mut Vec<Code>,
    sides: &mut Vec<Side>,
    outer: Levels,
    holds: Part,
    side: Side,
) -> Result<Next, NoMemory>
    ensures code { OnOk result (code.new.items ≡ code.old.items ++ (CutTo outer.next ∷ [])) }
    ensures sides { OnOk result (sides.new.items ≡ sides.old.items ++ (side ∷ [])) }
    ensures next { IfOk result (λ n. (n.part ≡ holds) × (n.levels ≡ outer)) }
{
    code.push(Code::CutTo(outer.next))?;
    sides.push(side)?;
    Ok(Next {
        part: holds,
        levels: outer,
    })
}

/// What is next behind a side. The places before it that lead behind it are settled.
pub(crate) fn leave(
    code: &mut Vec<Code>,
    sides: &mut Vec<Side>,
    side: Side,
    levels: Levels,
) -> Result<Next, NoMemory>
    requires { HasPlace side code.old.items }
    ensures { IfOk result (λ n. Leaves side levels code.old.items sides.old.items
        code.new.items sides.new.items n.part n.levels) }
{
    let end = code.len();
    match side {
        Side::Left {
            either,
            right,
            rest,
        } => {
            let choice = Code::Either(end.checked_add(1).ok_or(NoMemory)?);
            turn(code, sides, either, choice, right, rest, levels)
        }
        Side::Right { jump, rest } => {
            code[jump] = Code::Jump(end);
            Ok(Next { part: rest, levels })
        }
        Side::Test { outer, holds, rest } => {
            commit(code, sides, outer, holds, Side::Held { rest })
        }
        Side::Held { rest } => Ok(Next { part: rest, levels }),
        Side::Choice {
            at,
            outer,
            holds,
            other,
            rest,
        } => commit(code, sides, outer, holds, Side::Chosen { at, other, rest }),
        Side::Chosen { at, other, rest } => {
            let choice = levels.entering(end.checked_add(1).ok_or(NoMemory)?)?;
            turn(code, sides, at, choice, other, rest, levels)
        }
        Side::Denial { at, outer, rest } => {
            code.push(Code::CutTo(outer.next))?;
            code.push(Code::Builtin(BuiltinKind::Fail))?;
            code[at] = outer.entering(end.checked_add(2).ok_or(NoMemory)?)?;
            Ok(Next {
                part: rest,
                levels: outer,
            })
        }
    }
}
