//! The argument registers of places, found from the last place on: those that are still read.

use crate::frames::put_behind;
use fd_language::NoMemory;
use std::alloc::Global;
use wam_code::{Code, CodeParts, Register};

/// Puts the first registers, so many of them.
fn put_first(live: &mut Vec<usize>, count: usize) -> Result<(), NoMemory> {
    for number in 1..=count {
        live.push(number)?;
    }
    Ok(())
}

fn put_register(live: &mut Vec<usize>, register: Register) -> Result<(), NoMemory> {
    if let Register::X(number) = register {
        live.push(number)?;
    }
    Ok(())
}

fn arity_of(parts: &CodeParts, entry: usize) -> usize {
    match parts.entries.get(entry) {
        None => 0,
        Some(entry) => entry.arity as usize,
    }
}

/// How many of the first registers an instruction reads.
fn first_read(parts: &CodeParts, code: Code) -> usize {
    match code {
        Code::Call(entry) => arity_of(parts, entry),
        Code::Execute(entry) => arity_of(parts, entry),
        Code::SwitchOnTerm(..) => 1,
        Code::SwitchOnConstant(_) => 1,
        Code::SwitchOnInteger(_) => 1,
        Code::SwitchOnStructure(_) => 1,
        Code::Builtin(kind) => kind.arity(),
        Code::Constrain(kind) => kind.arity(),
        Code::Label(_) => 1,
        Code::Best(..) => 2,
        Code::PostRange(_, count) => count,
        _ => 0,
    }
}

/// Puts the registers that an instruction reads beside the first ones.
fn put_read(live: &mut Vec<usize>, code: Code) -> Result<(), NoMemory> {
    match code {
        Code::GetVariable(_, argument) => put_register(live, Register::X(argument)),
        Code::GetValue(register, argument) => {
            put_register(live, register)?;
            put_register(live, Register::X(argument))
        }
        Code::GetConstant(_, argument) => put_register(live, Register::X(argument)),
        Code::GetInteger(_, argument) => put_register(live, Register::X(argument)),
        Code::GetStructure(_, _, argument) => put_register(live, Register::X(argument)),
        Code::UnifyValue(register) => put_register(live, register),
        Code::PutValue(register, _) => put_register(live, register),
        _ => Ok(()),
    }
}

/// The register that becomes a cell beside an argument that is set.
fn made_by(code: Code) -> Option<Register> {
    match code {
        Code::GetVariable(register, _) => Some(register),
        Code::PutVariable(register, _) => Some(register),
        Code::UnifyVariable(register) => Some(register),
        _ => None,
    }
}

/// The argument that an instruction sets.
fn set_by(code: Code) -> Option<usize> {
    match code {
        Code::PutVariable(_, argument) => Some(argument),
        Code::PutValue(_, argument) => Some(argument),
        Code::PutConstant(_, argument) => Some(argument),
        Code::PutInteger(_, argument) => Some(argument),
        Code::PutStructure(_, _, argument) => Some(argument),
        _ => None,
    }
}

/// Whether an instruction sets the argument register.
fn sets(code: Code, number: usize) -> bool {
    if set_by(code) == Some(number) {
        return true;
    }
    match made_by(code) {
        Some(Register::X(made)) => made == number,
        _ => false,
    }
}

/// Puts registers that are read behind an instruction, but for those that it sets.
fn put_unset(live: &mut Vec<usize>, read: &[usize], code: Code) -> Result<(), NoMemory> {
    for number in read {
        if !sets(code, *number) {
            live.push(*number)?;
        }
    }
    Ok(())
}

/// Puts the registers that are read from the places on, but for those that the instruction sets.
fn put_behind_read(
    live: &mut Vec<usize>,
    registers: &[Vec<usize>],
    behind: &[usize],
    code: Code,
) -> Result<(), NoMemory> {
    for to in behind {
        if *to < registers.len() {
            put_unset(live, &registers[*to], code)?;
        }
    }
    Ok(())
}

/// The registers that are read from the place on, in rising order.
fn read_from(
    alloc: Global,
    parts: &CodeParts,
    registers: &[Vec<usize>],
    behind: &[usize],
    code: Code,
) -> Result<Vec<usize>, NoMemory> {
    let mut live = Vec::new(alloc);
    put_behind_read(&mut live, registers, behind, code)?;
    put_first(&mut live, first_read(parts, code))?;
    put_read(&mut live, code)?;
    live.sort_unstable();
    live.dedup();
    Ok(live)
}

fn no_registers(alloc: Global, count: usize) -> Result<Vec<Vec<usize>>, NoMemory> {
    let mut registers = Vec::with_capacity(alloc, count)?;
    for _ in 0..count {
        registers.push(Vec::new(alloc))?;
    }
    Ok(registers)
}

/// Notes the registers that are read from the place on, where no predicate with arguments begins.
fn note_read(
    alloc: Global,
    parts: &CodeParts,
    registers: &mut [Vec<usize>],
    behind: &mut Vec<usize>,
    at: usize,
) -> Result<(), NoMemory> {
    if at < registers.len() && at < parts.code.len() && registers[at].is_empty() {
        put_behind(behind, parts, at)?;
        let live = read_from(alloc, parts, registers, behind, parts.code[at])?;
        registers[at] = live;
    }
    Ok(())
}

/// Notes the arguments where a predicate begins.
fn note_arguments(
    alloc: Global,
    parts: &CodeParts,
    registers: &mut [Vec<usize>],
) -> Result<(), NoMemory> {
    for entry in &parts.entries {
        if entry.at < registers.len() {
            let mut arguments = Vec::new(alloc);
            put_first(&mut arguments, entry.arity as usize)?;
            registers[entry.at] = arguments;
        }
    }
    Ok(())
}

/// The registers of places: the arguments where a predicate begins, and elsewhere those that are
/// still read.
pub(crate) fn registers_of(alloc: Global, parts: &CodeParts) -> Result<Vec<Vec<usize>>, NoMemory> {
    let mut registers = no_registers(alloc, parts.code.len())?;
    note_arguments(alloc, parts, &mut registers)?;
    let mut behind = Vec::new(alloc);
    for at in (0..parts.code.len()).rev() {
        note_read(alloc, parts, &mut registers, &mut behind, at)?;
    }
    Ok(registers)
}
