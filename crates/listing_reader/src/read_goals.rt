//! Which goal a word tells.

ghost use Rattle.std.specs.Prelude.{◌≡◌};
ghost use Rattle.code_listing.specs.Names.{aim_word, builtin_word, constraint_word, order_word};
ghost use Rattle.listing_reader.specs.Goals.{builtin_spelled, constraint_spelled, IsAim, IsBuiltin, IsConstraint, IsOrder};
ghost use Rattle.listing_reader.specs.Reading.{Reads};

use fd_model::kinds::{BuiltinKind, ConstraintKind, Order, Relation};

/// The built-in goals.
const BUILTINS: [BuiltinKind; 25] = [
    BuiltinKind::True,
    BuiltinKind::Fail,
    BuiltinKind::False,
    BuiltinKind::Unify,
    BuiltinKind::Same,
    BuiltinKind::NotSame,
    BuiltinKind::Is,
    BuiltinKind::NumEqual,
    BuiltinKind::NumDiffer,
    BuiltinKind::NumLess,
    BuiltinKind::NumAtMost,
    BuiltinKind::NumGreater,
    BuiltinKind::NumAtLeast,
    BuiltinKind::Var,
    BuiltinKind::Nonvar,
    BuiltinKind::Integer,
    BuiltinKind::Atom,
    BuiltinKind::Atomic,
    BuiltinKind::Compound,
    BuiltinKind::Write,
    BuiltinKind::Nl,
    BuiltinKind::FdMin,
    BuiltinKind::FdMax,
    BuiltinKind::FdSize,
    BuiltinKind::FdDom,
];

/// The constraints.
const CONSTRAINTS: [ConstraintKind; 13] = [
    ConstraintKind::Compare(Relation::Equal),
    ConstraintKind::Compare(Relation::Differ),
    ConstraintKind::Compare(Relation::Less),
    ConstraintKind::Compare(Relation::AtMost),
    ConstraintKind::Compare(Relation::Greater),
    ConstraintKind::Compare(Relation::AtLeast),
    ConstraintKind::AllDifferent,
    ConstraintKind::Element,
    ConstraintKind::Atmost,
    ConstraintKind::And,
    ConstraintKind::Or,
    ConstraintKind::Not,
    ConstraintKind::Reified,
];

/// The word of a built-in goal.
fn builtin_text(kind: BuiltinKind) -> &'static [u8]
    ensures { result.now ≡ builtin_spelled kind }
{
    match kind {
        BuiltinKind::True => b"true/0",
        BuiltinKind::Fail => b"fail/0",
        BuiltinKind::False => b"false/0",
        BuiltinKind::Unify => b"'='/2",
        BuiltinKind::Same => b"'=='/2",
        BuiltinKind::NotSame => b"'\\\\=='/2",
        BuiltinKind::Is => b"'is'/2",
        BuiltinKind::NumEqual => b"'=:='/2",
        BuiltinKind::NumDiffer => b"'=\\\\='/2",
        BuiltinKind::NumLess => b"'<'/2",
        BuiltinKind::NumAtMost => b"'=<'/2",
        BuiltinKind::NumGreater => b"'>'/2",
        BuiltinKind::NumAtLeast => b"'>='/2",
        BuiltinKind::Var => b"var/1",
        BuiltinKind::Nonvar => b"nonvar/1",
        BuiltinKind::Integer => b"integer/1",
        BuiltinKind::Atom => b"atom/1",
        BuiltinKind::Atomic => b"atomic/1",
        BuiltinKind::Compound => b"compound/1",
        BuiltinKind::Write => b"write/1",
        BuiltinKind::Nl => b"nl/0",
        BuiltinKind::FdMin => b"fd_min/2",
        BuiltinKind::FdMax => b"fd_max/2",
        BuiltinKind::FdSize => b"fd_size/2",
        BuiltinKind::FdDom => b"fd_dom/2",
    }
}

/// The word of a constraint.
fn constraint_text(kind: ConstraintKind) -> &'static [u8]
    ensures { result.now ≡ constraint_spelled kind }
{
    match kind {
        ConstraintKind::Compare(Relation::Equal) => b"'#='/2",
        ConstraintKind::Compare(Relation::Differ) => b"'#\\\\='/2",
        ConstraintKind::Compare(Relation::Less) => b"'#<'/2",
        ConstraintKind::Compare(Relation::AtMost) => b"'#=<'/2",
        ConstraintKind::Compare(Relation::Greater) => b"'#>'/2",
        ConstraintKind::Compare(Relation::AtLeast) => b"'#>='/2",
        ConstraintKind::AllDifferent => b"fd_all_different/1",
        ConstraintKind::Element => b"fd_element/3",
        ConstraintKind::Atmost => b"fd_atmost/3",
        ConstraintKind::And => b"fd_and/3",
        ConstraintKind::Or => b"fd_or/3",
        ConstraintKind::Not => b"fd_not/2",
        ConstraintKind::Reified => b"'#<=>'/2",
    }
}

/// The built-in goal that a word tells.
pub(crate) fn read_builtin(word: &[u8]) -> Option<BuiltinKind>
    ensures { Reads IsBuiltin builtin_word word.now result }
{
    for kind in BUILTINS {
        if builtin_text(kind) == word {
            return Some(kind);
        }
    }
    None
}

/// The constraint that a word tells.
pub(crate) fn read_constraint(word: &[u8]) -> Option<ConstraintKind>
    ensures { Reads IsConstraint constraint_word word.now result }
{
    for kind in CONSTRAINTS {
        if constraint_text(kind) == word {
            return Some(kind);
        }
    }
    None
}

/// The order that a word tells.
pub(crate) fn read_order(word: &[u8]) -> Option<Order>
    ensures { Reads IsOrder order_word word.now result }
{
    if word == b"leftmost".as_slice() {
        return Some(Order::Leftmost);
    }
    if word == b"firstfail".as_slice() {
        return Some(Order::FirstFail);
    }
    None
}

/// Whether a word tells that the least cost is wanted, or the greatest.
pub(crate) fn read_aim(word: &[u8]) -> Option<bool>
    ensures { Reads IsAim aim_word word.now result }
{
    if word == b"least".as_slice() {
        return Some(true);
    }
    if word == b"greatest".as_slice() {
        return Some(false);
    }
    None
}
