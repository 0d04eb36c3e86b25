//! The code of terms: arguments of heads and of goals.

ghost use Rattle.std.specs.Prelude.{◌≡◌, ◌+◌, ◌<◌, ◌≤◌, [], ◌∷◌, ◌++◌, length, All, IfOk, OnOk, ◌^◌, MatchResult};
ghost use Rattle.fd_language.specs.Term.{Comp};
ghost use Rattle.term_pool.specs.Contents.{atom_name};
ghost use Rattle.term_pool.specs.Terms.{term_of, terms_by};
ghost use Rattle.term_pool.specs.PoolInvariant.{IsPool};
ghost use Rattle.clause_code.specs.declared.terms.Work.TheVariants.{Read};
ghost use Rattle.clause_code.specs.Steps.{get_variable, unify_variable, put_variable, is_made, marked, is_register, inner_code, behind as behind_term, compounds, part, parts, put, puts, get, gets, filled, fill, fills, Suits, AllSuit};
ghost use Rattle.clause_code.specs.BuildStack.{Writes, closing, opening, stack_steps, work_of, IsWork, Pushes, Opens, Turns, read_or_build};

use fd_language::NoMemory;
use term_pool::{AtomId, Node, Pool, TermId};
use wam_code::{Code, Register};

/// A compound term that is to be put into a register, or read from one, by way of registers from a free one on.
#[derive(Clone, Copy)]
pub(crate) enum Work {
    /// Put, with its compound arguments.
    Build(TermId, usize, usize),
    /// Put: its compound arguments are there, in the registers from the free one on.
    Close(TermId, usize, usize),
    /// Read, and then its compound arguments.
    Read(TermId, usize, usize),
}

/// Whether the variable is made. From now on it is.
fn mark(made: &mut Vec<bool>, x: usize) -> bool
    requires { x < length made.old.items }
    ensures seen { result ≡ is_made made.old.items x }
    ensures marks { made.new.items ≡ marked made.old.items x }
{
    if made[x] {
        return true;
    }
    made[x] = true;
    false
}

/// Whether it is the argument register with this number.
fn is_register(home: Register, argument: usize) -> bool
    ensures { result ≡ is_register home argument }
{
    match home {
        Register::X(register) => register == argument,
        Register::Y(_) => false,
    }
}

/// A head's argument that is a variable. Where the register becomes the variable's home, there is nothing to do.
fn get_variable(
    homes: &[Register],
    made: &mut Vec<bool>,
    code: &mut Vec<Code>,
    x: usize,
    argument: usize,
) -> Result<(), NoMemory>
    requires home { x < length homes.now }
    requires made { length made.old.items ≡ length homes.now }
    ensures { OnOk result (Writes homes.now code.old.items made.old.items
        (get_variable x argument ∷ []) code.new.items made.new.items) }
{
    let home = homes[x];
    if mark(made, x) {
        code.push(Code::GetValue(home, argument))?;
    } else if !is_register(home, argument) {
        code.push(Code::GetVariable(home, argument))?;
    }
    Ok(())
}

/// A structure's argument that is a variable.
fn unify_variable(
    homes: &[Register],
    made: &mut Vec<bool>,
    code: &mut Vec<Code>,
    x: usize,
) -> Result<(), NoMemory>
    requires home { x < length homes.now }
    requires made { length made.old.items ≡ length homes.now }
    ensures { OnOk result (Writes homes.now code.old.items made.old.items
        (unify_variable x ∷ []) code.new.items made.new.items) }
{
    let home = homes[x];
    if mark(made, x) {
        code.push(Code::UnifyValue(home))?;
    } else {
        code.push(Code::UnifyVariable(home))?;
    }
    Ok(())
}

/// A goal's argument that is a variable. Where it is in the register, there is nothing to do.
pub(crate) fn put_variable(
    homes: &[Register],
    made: &mut Vec<bool>,
    code: &mut Vec<Code>,
    x: usize,
    argument: usize,
) -> Result<(), NoMemory>
    requires home { x < length homes.now }
    requires made { length made.old.items ≡ length homes.now }
    ensures { OnOk result (Writes homes.now code.old.items made.old.items
        (put_variable x argument ∷ []) code.new.items made.new.items) }
{
    let home = homes[x];
    if !mark(made, x) {
        code.push(Code::PutVariable(home, argument))?;
    } else if !is_register(home, argument) {
        code.push(Code::PutValue(home, argument))?;
    }
    Ok(())
}

/// The register behind this one, if it is given to a compound term.
fn behind(pool: &Pool, id: TermId, register: usize) -> Result<usize, NoMemory>
    requires { id.number < length pool.now.entries }
    ensures { MatchResult result (λ n. n ≡ behind_term register (term_of pool.now id))
        (λ _. 2 ^ 64 ≤ behind_term register (term_of pool.now id)) }
{
    match pool.view(id) {
        Node::Comp(_, _) => register.checked_add(1).ok_or(NoMemory),
        _ => Ok(register),
    }
}

/// The first register behind those of the terms that are compound, from `first` on.
fn behind_all(pool: &Pool, ids: &[TermId], first: usize) -> Result<usize, NoMemory>
    requires { All (λ t. t.number < length pool.now.entries) ids.now }
    ensures { MatchResult result
        (λ n. n ≡ first + compounds (terms_by (term_of pool.now) ids.now))
        (λ _. 2 ^ 64 ≤ first + compounds (terms_by (term_of pool.now) ids.now)) }
{
    let mut next = first;
    for id in ids {
        next = behind(pool, *id, next)?;
    }
    Ok(next)
}

/// The instruction for a compound argument of a structure, which is read or built.
fn unify_inner(read: bool, register: usize) -> Code
    ensures { result ≡ inner_code read register }
{
    if read {
        Code::UnifyVariable(Register::X(register))
    } else {
        Code::UnifyValue(Register::X(register))
    }
}

/// An argument of a structure. A compound one is in the register, or gets it where the structure is read.
#[tactic(auto, using(crate::proofs::WrittenSteps::atom_known))]
fn unify_part(
    pool: &Pool,
    homes: &[Register],
    made: &mut Vec<bool>,
    code: &mut Vec<Code>,
    read: bool,
    id: TermId,
    register: usize,
) -> Result<(), NoMemory>
    requires own { id.number < length pool.now.entries }
    requires suits { Suits pool.now (length homes.now) (term_of pool.now id) }
    requires made { length made.old.items ≡ length homes.now }
    ensures { OnOk result (Writes homes.now code.old.items made.old.items
        (part pool.now read register (term_of pool.now id) ∷ []) code.new.items
        made.new.items) }
{
    match pool.view(id) {
        Node::Var(x) => return unify_variable(homes, made, code, x as usize),
        Node::Int(integer) => code.push(Code::UnifyInteger(integer))?,
        Node::Atom(atom) => code.push(Code::UnifyConstant(atom))?,
        Node::Comp(_, _) => code.push(unify_inner(read, register))?,
    }
    Ok(())
}

/// The arguments of a structure, of which the compound ones are in the registers from `first` on, or get them where it is read.
fn unify_parts(
    pool: &Pool,
    homes: &[Register],
    made: &mut Vec<bool>,
    code: &mut Vec<Code>,
    read: bool,
    ids: &[TermId],
    first: usize,
) -> Result<(), NoMemory>
    requires own { All (λ t. t.number < length pool.now.entries) ids.now }
    requires suits { AllSuit pool.now (length homes.now) (terms_by (term_of pool.now) ids.now) }
    requires made { length made.old.items ≡ length homes.now }
    ensures { OnOk result (Writes homes.now code.old.items made.old.items
        (parts pool.now read first (terms_by (term_of pool.now) ids.now)) code.new.items
        made.new.items) }
{
    let mut register = first;
    for id in ids {
        unify_part(pool, homes, made, code, read, *id, register)?;
        register = behind(pool, *id, register)?;
    }
    Ok(())
}

/// A compound term that is read, or built.
fn read_or_build(read: bool, id: TermId, register: usize, free: usize) -> Work
    ensures { result ≡ read_or_build read id register free }
{
    if read {
        Work::Read(id, register, free)
    } else {
        Work::Build(id, register, free)
    }
}

/// Puts a term on the stack, to be read from the register or to be built in it, if it is compound.
fn push_compound(
    pool: &Pool,
    works: &mut Vec<Work>,
    read: bool,
    id: TermId,
    register: usize,
    free: usize,
) -> Result<(), NoMemory>
    requires { id.number < length pool.now.entries }
    ensures { OnOk result (works.new.items
        ≡ works.old.items ++ work_of read (term_of pool.now id) id register free) }
{
    if let Node::Comp(_, _) = pool.view(id) {
        works.push(read_or_build(read, id, register, free))?;
    }
    Ok(())
}

/// Those of the terms that are compound are to be read from the registers from `first` on, or built in them, by way of those from `free` on.
fn push_compounds(
    pool: &Pool,
    works: &mut Vec<Work>,
    read: bool,
    ids: &[TermId],
    first: usize,
    free: usize,
) -> Result<(), NoMemory>
    requires { All (λ t. t.number < length pool.now.entries) ids.now }
    ensures { OnOk result (Pushes pool.now read first free ids.now works.old.items
        works.new.items) }
{
    let mut register = first;
    for id in ids {
        push_compound(pool, works, read, *id, register, free)?;
        register = behind(pool, *id, register)?;
    }
    Ok(())
}

/// Takes a compound term whose compound arguments are still to be built.
fn open(
    pool: &Pool,
    works: &mut Vec<Work>,
    id: TermId,
    register: usize,
    free: usize,
) -> Result<(), NoMemory>
    requires { id.number < length pool.now.entries }
    ensures { OnOk result (Opens pool.now id register free works.old.items works.new.items) }
{
    if let Node::Comp(_, parts) = pool.view(id) {
        let next = behind_all(pool, parts, free)?;
        works.push(Work::Close(id, register, free))?;
        push_compounds(pool, works, false, parts, free, next)?;
    }
    Ok(())
}

/// A structure, whose compound arguments are in the registers from `free` on.
fn put_structure(
    pool: &Pool,
    homes: &[Register],
    made: &mut Vec<bool>,
    code: &mut Vec<Code>,
    name: AtomId,
    parts: &[TermId],
    register: usize,
    free: usize,
) -> Result<(), NoMemory>
    requires pool { IsPool pool.now }
    requires own { All (λ t. t.number < length pool.now.entries) parts.now }
    requires name { name.number < length pool.now.names }
    requires few { length parts.now ≤ 255 }
    requires suits { AllSuit pool.now (length homes.now) (terms_by (term_of pool.now) parts.now) }
    requires made { length made.old.items ≡ length homes.now }
    ensures { OnOk result (Writes homes.now code.old.items made.old.items
        (closing pool.now register free (Comp (atom_name pool.now name)
        (terms_by (term_of pool.now) parts.now))) code.new.items made.new.items) }
{
    code.push(Code::PutStructure(name, parts.len() as u8, register))?;
    unify_parts(pool, homes, made, code, false, parts, free)?;
    Ok(())
}

/// Takes a compound term whose compound arguments are in the registers from `free` on.
fn close(
    pool: &Pool,
    homes: &[Register],
    made: &mut Vec<bool>,
    code: &mut Vec<Code>,
    id: TermId,
    register: usize,
    free: usize,
) -> Result<(), NoMemory>
    requires own { id.number < length pool.now.entries }
    requires suits { Suits pool.now (length homes.now) (term_of pool.now id) }
    requires made { length made.old.items ≡ length homes.now }
    ensures { OnOk result (Writes homes.now code.old.items made.old.items
        (closing pool.now register free (term_of pool.now id)) code.new.items made.new.items) }
{
    if let Node::Comp(name, parts) = pool.view(id) {
        put_structure(pool, homes, made, code, name, parts, register, free)?;
    }
    Ok(())
}

/// A structure that the register has is read. Its compound arguments get the registers from `free` on.
fn get_structure(
    pool: &Pool,
    homes: &[Register],
    made: &mut Vec<bool>,
    code: &mut Vec<Code>,
    name: AtomId,
    parts: &[TermId],
    register: usize,
    free: usize,
) -> Result<(), NoMemory>
    requires pool { IsPool pool.now }
    requires own { All (λ t. t.number < length pool.now.entries) parts.now }
    requires name { name.number < length pool.now.names }
    requires few { length parts.now ≤ 255 }
    requires suits { AllSuit pool.now (length homes.now) (terms_by (term_of pool.now) parts.now) }
    requires made { length made.old.items ≡ length homes.now }
    ensures { OnOk result (Writes homes.now code.old.items made.old.items
        (opening pool.now register free (Comp (atom_name pool.now name)
        (terms_by (term_of pool.now) parts.now))) code.new.items made.new.items) }
{
    code.push(Code::GetStructure(name, parts.len() as u8, register))?;
    unify_parts(pool, homes, made, code, true, parts, free)?;
    Ok(())
}

/// Takes a compound term that the register has. Its compound arguments are to be read next.
fn read(
    pool: &Pool,
    homes: &[Register],
    made: &mut Vec<bool>,
    code: &mut Vec<Code>,
    works: &mut Vec<Work>,
    id: TermId,
    register: usize,
    free: usize,
) -> Result<(), NoMemory>
    requires own { id.number < length pool.now.entries }
    requires suits { Suits pool.now (length homes.now) (term_of pool.now id) }
    requires works { All (IsWork pool.now (length homes.now)) works.old.items }
    requires made { length made.old.items ≡ length homes.now }
    ensures { OnOk result (Turns pool.now homes.now (Read id register free) works.old.items
        code.old.items made.old.items works.new.items code.new.items made.new.items) }
{
    if let Node::Comp(name, parts) = pool.view(id) {
        let next = behind_all(pool, parts, free)?;
        get_structure(pool, homes, made, code, name, parts, register, free)?;
        push_compounds(pool, works, true, parts, free, next)?;
    }
    Ok(())
}

/// Takes the work.
fn turn(
    pool: &Pool,
    homes: &[Register],
    made: &mut Vec<bool>,
    code: &mut Vec<Code>,
    works: &mut Vec<Work>,
    work: Work,
) -> Result<(), NoMemory>
    requires work { IsWork pool.now (length homes.now) work }
    requires works { All (IsWork pool.now (length homes.now)) works.old.items }
    requires made { length made.old.items ≡ length homes.now }
    ensures { OnOk result (Turns pool.now homes.now work works.old.items code.old.items
        made.old.items works.new.items code.new.items made.new.items) }
{
    match work {
        Work::Build(id, register, free) => open(pool, works, id, register, free)?,
        Work::Close(id, register, free) => close(pool, homes, made, code, id, register, free)?,
        Work::Read(id, register, free) => {
            read(pool, homes, made, code, works, id, register, free)?
        }
    }
    Ok(())
}

/// Takes all the works.
fn work_all(
    pool: &Pool,
    homes: &[Register],
    made: &mut Vec<bool>,
    code: &mut Vec<Code>,
    works: &mut Vec<Work>,
) -> Result<(), NoMemory>
    requires works { All (IsWork pool.now (length homes.now)) works.old.items }
    requires made { length made.old.items ≡ length homes.now }
    ensures writes { OnOk result (Writes homes.now code.old.items made.old.items
        (stack_steps pool.now works.old.items) code.new.items made.new.items) }
    ensures done { OnOk result (works.new.items ≡ []) }
{
    while let Some(work) = works.pop() {
        turn(pool, homes, made, code, works, work)?;
    }
    Ok(())
}

/// A goal's argument, into the register.
#[tactic(auto, using(crate::proofs::WrittenSteps::atom_known))]
pub(crate) fn put(
    pool: &Pool,
    homes: &[Register],
    made: &mut Vec<bool>,
    code: &mut Vec<Code>,
    works: &mut Vec<Work>,
    id: TermId,
    register: usize,
    free: usize,
) -> Result<(), NoMemory>
    requires own { id.number < length pool.now.entries }
    requires suits { Suits pool.now (length homes.now) (term_of pool.now id) }
    requires made { length made.old.items ≡ length homes.now }
    requires works { works.old.items ≡ [] }
    ensures writes { OnOk result (Writes homes.now code.old.items made.old.items
        (put pool.now register free (term_of pool.now id)) code.new.items made.new.items) }
    ensures done { OnOk result (works.new.items ≡ []) }
{
    match pool.view(id) {
        Node::Var(x) => return put_variable(homes, made, code, x as usize, register),
        Node::Int(integer) => code.push(Code::PutInteger(integer, register))?,
        Node::Atom(atom) => code.push(Code::PutConstant(atom, register))?,
        Node::Comp(_, _) => {
            works.push(Work::Build(id, register, free))?;
            return work_all(pool, homes, made, code, works);
        }
    }
    Ok(())
}

/// A head's argument, which is in the register.
#[tactic(auto, using(crate::proofs::WrittenSteps::atom_known))]
fn get(
    pool: &Pool,
    homes: &[Register],
    made: &mut Vec<bool>,
    code: &mut Vec<Code>,
    works: &mut Vec<Work>,
    id: TermId,
    register: usize,
    free: usize,
) -> Result<(), NoMemory>
    requires own { id.number < length pool.now.entries }
    requires suits { Suits pool.now (length homes.now) (term_of pool.now id) }
    requires made { length made.old.items ≡ length homes.now }
    requires works { works.old.items ≡ [] }
    ensures writes { OnOk result (Writes homes.now code.old.items made.old.items
        (get pool.now register free (term_of pool.now id)) code.new.items made.new.items) }
    ensures done { OnOk result (works.new.items ≡ []) }
{
    match pool.view(id) {
        Node::Var(x) => return get_variable(homes, made, code, x as usize, register),
        Node::Int(integer) => code.push(Code::GetInteger(integer, register))?,
        Node::Atom(atom) => code.push(Code::GetConstant(atom, register))?,
        Node::Comp(_, _) => {
            works.push(Work::Read(id, register, free))?;
            return work_all(pool, homes, made, code, works);
        }
    }
    Ok(())
}

/// The arguments of a goal, into the registers from 1 on, by way of those from `free` on.
pub(crate) fn put_all(
    pool: &Pool,
    homes: &[Register],
    made: &mut Vec<bool>,
    code: &mut Vec<Code>,
    works: &mut Vec<Work>,
    ids: &[TermId],
    free: usize,
) -> Result<(), NoMemory>
    requires own { All (λ t. t.number < length pool.now.entries) ids.now }
    requires few { length ids.now ≤ 255 }
    requires suits { AllSuit pool.now (length homes.now) (terms_by (term_of pool.now) ids.now) }
    requires made { length made.old.items ≡ length homes.now }
    requires works { works.old.items ≡ [] }
    ensures writes { OnOk result (Writes homes.now code.old.items made.old.items
        (puts pool.now 1 free (terms_by (term_of pool.now) ids.now)) code.new.items
        made.new.items) }
    ensures done { OnOk result (works.new.items ≡ []) }
{
    let mut register = 1;
    for id in ids {
        put(pool, homes, made, code, works, *id, register, free)?;
        register += 1;
    }
    Ok(())
}

/// The arguments of a head, from the register 1 on, by way of those from `free` on.
pub(crate) fn get_all(
    pool: &Pool,
    homes: &[Register],
    made: &mut Vec<bool>,
    code: &mut Vec<Code>,
    works: &mut Vec<Work>,
    ids: &[TermId],
    free: usize,
) -> Result<(), NoMemory>
    requires own { All (λ t. t.number < length pool.now.entries) ids.now }
    requires few { length ids.now ≤ 255 }
    requires suits { AllSuit pool.now (length homes.now) (terms_by (term_of pool.now) ids.now) }
    requires made { length made.old.items ≡ length homes.now }
    requires works { works.old.items ≡ [] }
    ensures writes { OnOk result (Writes homes.now code.old.items made.old.items
        (gets pool.now 1 free (terms_by (term_of pool.now) ids.now)) code.new.items
        made.new.items) }
    ensures done { OnOk result (works.new.items ≡ []) }
{
    let mut register = 1;
    for id in ids {
        get(pool, homes, made, code, works, *id, register, free)?;
        register += 1;
    }
    Ok(())
}

/// Makes the variable x, by way of the scratch register, unless it is made.
fn fill_one(
    homes: &[Register],
    made: &mut Vec<bool>,
    code: &mut Vec<Code>,
    x: usize,
    scratch: usize,
) -> Result<(), NoMemory>
    requires home { x < length homes.now }
    requires made { length made.old.items ≡ length homes.now }
    ensures codes { OnOk result (code.new.items
        ≡ code.old.items ++ fill homes.now scratch made.old.items x) }
    ensures marks { made.new.items ≡ marked made.old.items x }
{
    if !mark(made, x) {
        code.push(Code::PutVariable(homes[x], scratch))?;
    }
    Ok(())
}

/// Makes the variables that are still to be made.
pub(crate) fn fill_all(
    homes: &[Register],
    made: &mut Vec<bool>,
    code: &mut Vec<Code>,
    scratch: usize,
) -> Result<(), NoMemory>
    requires { length made.old.items ≡ length homes.now }
    ensures codes { OnOk result (code.new.items
        ≡ code.old.items ++ fills homes.now scratch made.old.items (length homes.now)) }
    ensures marks { OnOk result (made.new.items ≡ filled made.old.items (length homes.now)) }
{
    for x in 0..homes.len() {
        fill_one(homes, made, code, x, scratch)?;
    }
    Ok(())
}
