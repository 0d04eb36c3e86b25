//! The instructions.

ghost use Rattle.std.specs.Prelude.{◌↔◌, IsTrue};
ghost use Rattle.wam_code.specs.Keys.{IsBelow};

use fd_model::kinds::{BuiltinKind, ConstraintKind, Order};
use range_code::RangeCode;
use std::rc::Rc;
use term_pool::AtomId;

/// Where a cell is kept: an argument register, or a slot of the frame. Both are numbered from 1.
#[derive(Clone, Copy, Debug)]
pub enum Register {
    X(usize),
    Y(usize),
}

/// What a switch looks for in the first argument: an atom, an integer, or a name with a number of
/// arguments.
#[derive(Clone, Copy, Debug)]
pub enum Key {
    Atom(AtomId),
    Int(i64),
    Struct(AtomId, u8),
}

impl Key {
    /// Whether the key stands before another one of its kind: atoms by number, integers by value,
    /// structures by the name's number and then by the number of arguments. No memory.
    #[inline]
    pub fn is_below(self, other: Key) -> bool
        ensures { IsTrue result ↔ IsBelow self other }
    {
        match (self, other) {
            (Key::Atom(c), Key::Atom(d)) => c.number < d.number,
            (Key::Int(y), Key::Int(z)) => y < z,
            (Key::Struct(f, n), Key::Struct(g, m)) => {
                if f.number == g.number {
                    n < m
                } else {
                    f.number < g.number
                }
            }
            _ => false,
        }
    }
}

/// An instruction as code keeps it, of the Warren machine (Ait-Kaci 1991) with constraints
/// (Codognet and Diaz 1996). Tables, ranges and predicates stand by their numbers, and an
/// argument's number comes last.
#[derive(Clone, Copy, Debug)]
pub enum Code {
    /// A head's argument that is a variable met first: the register holds the argument from now on.
    GetVariable(Register, usize),
    /// The argument is equated with what the register holds.
    GetValue(Register, usize),
    /// The argument is equated with an atom.
    GetConstant(AtomId, usize),
    /// The argument is equated with an integer.
    GetInteger(i64, usize),
    /// The argument is equated with a structure, whose arguments follow in the unify group.
    GetStructure(AtomId, u8, usize),
    /// A structure's argument that is a variable met first.
    UnifyVariable(Register),
    /// A structure's argument is what the register holds.
    UnifyValue(Register),
    /// A structure's argument is an atom.
    UnifyConstant(AtomId),
    /// A structure's argument is an integer.
    UnifyInteger(i64),
    /// So many arguments are variables that stand nowhere else.
    UnifyVoid(usize),
    /// A goal's argument is a new variable, which the register holds too.
    PutVariable(Register, usize),
    /// A goal's argument is what the register holds.
    PutValue(Register, usize),
    /// A goal's argument is an atom.
    PutConstant(AtomId, usize),
    /// A goal's argument is an integer.
    PutInteger(i64, usize),
    /// A goal's argument is a new structure, whose arguments follow in the unify group.
    PutStructure(AtomId, u8, usize),
    /// A frame with so many slots is made.
    Allocate(usize),
    /// The frame is given up.
    Deallocate,
    /// A predicate is called, and then the code goes on.
    Call(usize),
    /// A predicate is called as the clause's last goal.
    Execute(usize),
    /// The clause has ended.
    Proceed,
    /// The code goes on at a place.
    Jump(usize),
    /// Nothing fits.
    FailNow,
    /// The query has an answer.
    AnswerNow,
    /// The clauses from here on are tried, and later those at the place.
    TryMeElse(usize),
    /// The same, where a choice stands before.
    RetryMeElse(usize),
    /// The last clauses of a choice.
    TrustMe,
    /// The clauses at the place are tried, and later those behind.
    Try(usize),
    /// The same, where a choice stands before.
    Retry(usize),
    /// The last clauses of a choice are those at the place.
    Trust(usize),
    /// Where the code goes on for a first argument that is a variable, an atom, an integer, a
    /// structure.
    SwitchOnTerm(usize, usize, usize, usize),
    /// Where it goes on by the atom, or nothing fits.
    SwitchOnConstant(usize),
    /// By the integer.
    SwitchOnInteger(usize),
    /// By the name and the number of arguments.
    SwitchOnStructure(usize),
    /// The goals from here on are taken, and later those at the place.
    Either(usize),
    /// A built-in goal, with its arguments in the first registers, as for the goals below.
    Builtin(BuiltinKind),
    /// A constraint.
    Constrain(ConstraintKind),
    /// A labelling of a list.
    Label(Order),
    /// The best leaf of a labelling, by its list and its cost: whether the least is wanted.
    Best(Order, bool),
    /// A range is posted. So many registers have the target and then the range's variables, by
    /// slots.
    PostRange(usize, usize),
    /// The slot takes the number of choice points that the call of the predicate has noted.
    Level(usize),
    /// A test begins, and the slot takes the number of choice points.
    TestOnly(usize),
    /// A test begins. The first slot takes the number of choice points and the second one more;
    /// then a choice point for the other way, at the place, is made.
    EnterTest(usize, usize, usize),
    /// The choice points above the slot's number are dropped.
    CutTo(usize),
}
