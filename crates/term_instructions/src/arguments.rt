//! The arguments of a structure in code.

ghost use Rattle.std.specs.Prelude.{◌↔◌, ◌<◌, length, IsTrue};
ghost use Rattle.wam_code.specs.Area.{Holds};
ghost use Rattle.term_instructions.specs.Arguments.{code_of, IsOne, IsUnifyAt};

use term_pool::AtomId;
use wam_code::{Code, CodeArea, Register};

/// What an instruction of the unify group gives.
#[derive(Clone, Copy)]
pub(crate) enum Argument {
    Variable(Register),
    Value(Register),
    Constant(AtomId),
    Integer(i64),
    Void(usize),
}

/// What the instruction at a place gives.
#[inline(always)]
pub(crate) fn argument_at(code: &CodeArea, at: usize) -> Argument
    requires there { at < length code.now.code }
    requires unify { IsUnifyAt code.now at }
    ensures { Holds code.now at (code_of result) }
{
    match *code.code_at(at) {
        Code::UnifyVariable(r) => Argument::Variable(r),
        Code::UnifyValue(r) => Argument::Value(r),
        Code::UnifyConstant(c) => Argument::Constant(c),
        Code::UnifyInteger(z) => Argument::Integer(z),
        Code::UnifyVoid(n) => Argument::Void(n),
        _ => unreachable!(),
    }
}

/// Whether an instruction of the unify group gives one argument.
#[inline(always)]
pub(crate) fn is_one(argument: Argument) -> bool
    ensures { IsTrue result ↔ IsOne argument }
{
    match argument {
        Argument::Void(n) => n == 1,
        _ => true,
    }
}
