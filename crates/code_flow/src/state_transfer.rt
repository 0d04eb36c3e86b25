//! The state that an instruction hands on.

ghost use Rattle.std.specs.Prelude.{◌≡◌, ◌↔◌, ◌-◌, ℕ, [], true, map, replicate, Some, None, IsTrue, IfOk, OnOk, slice_get, option_map};
ghost use Rattle.fd_language.specs.Family.{has};
ghost use Rattle.wam_code.specs.Area as area;
ghost use Rattle.wam_code.specs.Effect as effect;
ghost use Rattle.wam_code.specs.VerifiedCode.{Covers};
ghost use Rattle.code_flow.specs.StateTransfer.{needs, plain_needs, unify_needs, changed, IsSame};
ghost use Rattle.code_flow.specs.Successors.{AreRegisters};
ghost use Rattle.code_listing.specs.States.{slot_of, state_of};

use code_listing::{PlaceState, Slot};
use fd_language::NoMemory;
use indexmap::IndexSet;
use std::alloc::Global;
use std::marker::Model;
use wam_code::{Code, Entry, Register};

/// A state that is handed on, with its registers in a set.
#[derive(Drop)]
pub(crate) struct Handed {
    regs: IndexSet<usize>,
    frame: Option<Vec<Slot>>,
    owed: usize,
}

impl Model for Handed {
    ghost use Rattle.std.specs.Prelude.{map, option_map};
    ghost use Rattle.wam_code.specs.Area.{State};
    ghost use Rattle.code_listing.specs.States.{slot_of};

    ghost Value = { State };

    ghost view = { λ h. record {
      regs = h.regs.keys;
      frame = option_map (λ v. map slot_of v.items) h.frame;
      owed = h.owed;
    } };
}

impl Handed {
    /// Whether an argument register is set.
    fn has(&self, number: usize) -> bool
        ensures { result ≡ has self.now.regs number }
    {
        self.regs.contains(&number)
    }

    /// The slot with a number, from 1 on.
    fn slot(&self, number: usize) -> Option<Slot>
        ensures { option_map slot_of result ≡ effect.slot_at self.now.frame number }
    {
        if number == 0 {
            return None;
        }
        match &self.frame {
            None => None,
            Some(slots) => {
                if number <= slots.len() {
                    Some(slots[number - 1])
                } else {
                    None
                }
            }
        }
    }

    /// Whether there is a frame.
    fn has_frame(&self) -> bool
        ensures { result ≡ effect.has_frame self.now.frame }
    {
        self.frame.is_some()
    }

    /// Whether there is none.
    fn no_frame(&self) -> bool
        ensures { result ≡ effect.no_frame self.now.frame }
    {
        self.frame.is_none()
    }

    /// Whether a register holds a cell.
    fn is_set(&self, register: Register) -> bool
        ensures { result ≡ effect.is_set self.now register }
    {
        match register {
            Register::X(number) => self.has(number),
            Register::Y(number) => match self.slot(number) {
                Some(Slot::Cell) => true,
                _ => false,
            },
        }
    }

    /// Whether a register may become a cell.
    fn is_free(&self, register: Register) -> bool
        ensures { result ≡ effect.is_free self.now register }
    {
        match register {
            Register::X(_) => true,
            Register::Y(number) => match self.slot(number) {
                Some(Slot::Unset) => true,
                _ => false,
            },
        }
    }

    /// Whether a slot holds a level.
    fn is_level(&self, number: usize) -> bool
        ensures { result ≡ effect.is_level (effect.slot_at self.now.frame number) }
    {
        match self.slot(number) {
            Some(Slot::Level) => true,
            _ => false,
        }
    }

    /// Whether a slot may become a level.
    fn may_be_level(&self, number: usize) -> bool
        ensures { result ≡ effect.may_be_level (effect.slot_at self.now.frame number) }
    {
        match self.slot(number) {
            Some(Slot::Unset) => true,
            Some(Slot::Level) => true,
            _ => false,
        }
    }

    /// Whether the argument registers from 1 to this number are set.
    fn are_set(&self, count: usize) -> bool
        ensures { result ≡ effect.are_set self.now.regs count }
    {
        let mut left = count;
        while left > 0 {
            if !self.has(left) {
                return false;
            }
            left -= 1;
        }
        true
    }

    /// Whether the arguments of the predicate with this number are set.
    fn are_given(&self, entries: &[Entry], number: usize) -> bool
        ensures { result ≡ effect.are_given self.now (slice_get entries.now number) }
    {
        match entries.get(number) {
            None => false,
            Some(entry) => self.are_set(entry.arity as usize),
        }
    }

    /// Whether an instruction of the unify group finds what it needs.
    fn unify_needs(&self, code: Code) -> bool
        ensures { result ≡ unify_needs code self.now }
    {
        match code {
            Code::UnifyVariable(r) => self.is_free(r),
            Code::UnifyValue(r) => self.is_set(r),
            Code::UnifyConstant(_) => true,
            Code::UnifyInteger(_) => true,
            Code::UnifyVoid(n) => n <= self.owed,
            _ => false,
        }
    }

    /// Whether an instruction finds what it needs where nothing is owed.
    fn plain_needs(&self, entries: &[Entry], code: Code) -> bool
        ensures { result ≡ plain_needs entries.now code self.now }
    {
        match code {
            Code::GetVariable(r, a) => self.has(a) && self.is_free(r),
            Code::GetValue(r, a) => self.has(a) && self.is_set(r),
            Code::GetConstant(_, a) => self.has(a),
            Code::GetInteger(_, a) => self.has(a),
            Code::GetStructure(_, _, a) => self.has(a),
            Code::PutVariable(r, _) => self.is_free(r),
            Code::PutValue(r, _) => self.is_set(r),
            Code::Allocate(_) => self.no_frame(),
            Code::Deallocate => self.has_frame(),
            Code::Call(e) => self.has_frame() && self.are_given(entries, e),
            Code::Execute(e) => self.no_frame() && self.are_given(entries, e),
            Code::Proceed => self.no_frame(),
            Code::SwitchOnTerm(..) => self.has(1),
            Code::SwitchOnConstant(_) => self.has(1),
            Code::SwitchOnInteger(_) => self.has(1),
            Code::SwitchOnStructure(_) => self.has(1),
            Code::Builtin(kind) => self.are_set(kind.arity()),
            Code::Constrain(kind) => self.are_set(kind.arity()),
            Code::Label(_) => self.are_set(1),
            Code::Best(..) => self.are_set(2),
            Code::PostRange(_, n) => self.are_set(n),
            Code::Level(n) => self.may_be_level(n),
            Code::TestOnly(n) => self.may_be_level(n),
            Code::EnterTest(n, m, _) => self.may_be_level(n) && self.may_be_level(m),
            Code::CutTo(n) => self.is_level(n),
            Code::UnifyVariable(_) => false,
            Code::UnifyValue(_) => false,
            Code::UnifyConstant(_) => false,
            Code::UnifyInteger(_) => false,
            Code::UnifyVoid(_) => false,
            _ => true,
        }
    }

    /// Whether an instruction finds what it needs.
    pub(crate) fn needs(&self, entries: &[Entry], code: Code) -> bool
        ensures { result ≡ needs entries.now code self.now }
    {
        if self.owed == 0 {
            self.plain_needs(entries, code)
        } else {
            self.unify_needs(code)
        }
    }
}

/// A copy of slots.
fn copy_slots(alloc: Global, state: &PlaceState) -> Result<Option<Vec<Slot>>, NoMemory>
    ensures { IfOk result (λ f. option_map (λ v. map slot_of v.items) f
        ≡ (state_of state.now).frame) }
{
    match &state.frame {
        None => Ok(None),
        Some(slots) => Ok(Some(Vec::from_slice(alloc, slots)?)),
    }
}

/// The numbers in a set.
pub fn set_of(alloc: Global, numbers: &[usize]) -> Result<IndexSet<usize>, NoMemory>
    ensures { IfOk result (λ s. (n : ℕ) → has s.keys n ≡ has numbers.now n) }
{
    let mut found = IndexSet::new(alloc);
    for (index, number) in numbers.iter().enumerate() {
        found.insert_full(*number)?;
    }
    Ok(found)
}

/// The numbers, each of them once.
pub(crate) fn each_once(alloc: Global, numbers: &[usize]) -> Result<Vec<usize>, NoMemory>
    ensures { IfOk result (λ v. (n : ℕ) → has v.items n ≡ has numbers.now n) }
{
    let set = set_of(alloc, numbers)?;
    let once = Vec::from_slice(alloc, set.as_slice())?;
    Ok(once)
}

/// The registers of a state, each of them once.
fn registers_once(alloc: Global, state: &PlaceState) -> Result<Vec<usize>, NoMemory>
    ensures { IfOk result (λ v. (n : ℕ) → has v.items n ≡ has state.now.regs.items n) }
{
    each_once(alloc, &state.regs)
}

/// The registers of each state, in whatever order.
pub fn registers_of(alloc: Global, states: &[PlaceState]) -> Result<Vec<Vec<usize>>, NoMemory>
    ensures { IfOk result (λ v. AreRegisters states.now v.items) }
{
    let mut registers = Vec::with_capacity(alloc, states.len())?;
    for at in 0..states.len() {
        let once = registers_once(alloc, &states[at])?;
        registers.push(once)?;
    }
    Ok(registers)
}

/// So many slots that are unset.
fn unset_slots(alloc: Global, count: usize) -> Result<Vec<Slot>, NoMemory>
    ensures { IfOk result (λ v. map slot_of v.items ≡ replicate count area.Unset) }
{
    let mut slots = Vec::new(alloc);
    for done in 0..count {
        slots.push(Slot::Unset)?;
    }
    Ok(slots)
}

/// Whether two lists of slots are the same.
fn are_same_slots(one: &[Slot], two: &[Slot]) -> bool
    ensures { IsTrue result ↔ (map slot_of one.now ≡ map slot_of two.now) }
{
    if one.len() != two.len() {
        return false;
    }
    for index in 0..one.len() {
        if !is_same_slot(one[index], two[index]) {
            return false;
        }
    }
    true
}

/// Whether two slots are the same.
fn is_same_slot(one: Slot, two: Slot) -> bool
    ensures { IsTrue result ↔ (slot_of one ≡ slot_of two) }
{
    match (one, two) {
        (Slot::Unset, Slot::Unset) => true,
        (Slot::Cell, Slot::Cell) => true,
        (Slot::Level, Slot::Level) => true,
        _ => false,
    }
}

impl Handed {
    /// The state of a place.
    pub(crate) fn from_state(alloc: Global, state: &PlaceState) -> Result<Handed, NoMemory>
        ensures { IfOk result (λ h. IsSame h (state_of state.now)) }
    {
        let regs = set_of(alloc, &state.regs)?;
        let frame = copy_slots(alloc, state)?;
        Ok(Handed {
            regs,
            frame,
            owed: state.owed,
        })
    }

    /// A register becomes a cell.
    fn put(&mut self, register: Register) -> Result<(), NoMemory>
        ensures { OnOk result (IsSame self.new (effect.with_set self.old register)) }
    {
        match register {
            Register::X(number) => {
                self.regs.insert_full(number)?;
            }
            Register::Y(number) => {
                if let Some(slots) = &mut self.frame {
                    if number > 0 && number <= slots.len() {
                        slots[number - 1] = Slot::Cell;
                    }
                }
            }
        }
        Ok(())
    }

    /// A slot becomes a level.
    fn mark(&mut self, number: usize)
        ensures { self.new ≡ effect.with_level self.old number }
    {
        let Some(slots) = &mut self.frame else {
            return;
        };
        if number == 0 || number > slots.len() {
            return;
        }
        slots[number - 1] = Slot::Level;
    }

    /// Two slots become levels.
    fn mark_both(&mut self, one: usize, two: usize)
        ensures { self.new ≡ effect.with_level (effect.with_level self.old one) two }
    {
        self.mark(one);
        self.mark(two);
    }

    /// The frame becomes one of so many slots, all unset.
    fn open(&mut self, alloc: Global, count: usize) -> Result<(), NoMemory>
        ensures { OnOk result (self.new
            ≡ record self.old { frame = Some (replicate count area.Unset) }) }
    {
        self.frame = Some(unset_slots(alloc, count)?);
        Ok(())
    }

    /// So many arguments are owed.
    fn owe(&mut self, count: usize)
        ensures { self.new ≡ effect.with_owed self.old count }
    {
        self.owed = count;
    }

    /// So many arguments fewer are owed.
    fn pay(&mut self, count: usize)
        ensures { self.new ≡ effect.with_owed self.old (self.old.owed - count) }
    {
        self.owed = self.owed.saturating_sub(count);
    }

    /// One argument fewer is owed, and a register becomes a cell.
    fn pay_with(&mut self, register: Register) -> Result<(), NoMemory>
        ensures { OnOk result (IsSame self.new (effect.with_set
            (effect.with_owed self.old (self.old.owed - 1)) register)) }
    {
        self.pay(1);
        self.put(register)
    }

    /// Two registers become cells.
    fn put_both(&mut self, one: Register, two: Register) -> Result<(), NoMemory>
        ensures { OnOk result
            (IsSame self.new (effect.with_set (effect.with_set self.old one) two)) }
    {
        self.put(one)?;
        self.put(two)
    }

    /// A register becomes a cell, and so many arguments are owed.
    fn put_owing(&mut self, register: Register, count: usize) -> Result<(), NoMemory>
        ensures { OnOk result
            (IsSame self.new (effect.with_owed (effect.with_set self.old register) count)) }
    {
        self.put(register)?;
        self.owe(count);
        Ok(())
    }

    /// There is no frame.
    fn close(&mut self)
        ensures { self.new ≡ record self.old { frame = None } }
    {
        self.frame = None;
    }

    /// No argument register is set.
    fn forget(&mut self, alloc: Global)
        ensures { self.new ≡ record self.old { regs = [] } }
    {
        self.regs = IndexSet::new(alloc);
    }

    /// What an instruction changes, where it found what it needs.
    pub(crate) fn change(&mut self, alloc: Global, code: Code) -> Result<(), NoMemory>
        ensures { OnOk result (IsSame self.new (changed code self.old)) }
    {
        match code {
            Code::GetVariable(r, _) => self.put(r)?,
            Code::GetStructure(_, n, _) => self.owe(n as usize),
            Code::PutVariable(r, a) => self.put_both(r, Register::X(a))?,
            Code::PutValue(_, a) => self.put(Register::X(a))?,
            Code::PutConstant(_, a) => self.put(Register::X(a))?,
            Code::PutInteger(_, a) => self.put(Register::X(a))?,
            Code::PutStructure(_, n, a) => self.put_owing(Register::X(a), n as usize)?,
            Code::Allocate(n) => self.open(alloc, n)?,
            Code::Deallocate => self.close(),
            Code::Call(_) => self.forget(alloc),
            Code::Level(n) => self.mark(n),
            Code::TestOnly(n) => self.mark(n),
            Code::EnterTest(n, m, _) => self.mark_both(n, m),
            Code::UnifyVariable(r) => self.pay_with(r)?,
            Code::UnifyValue(_) => self.pay(1),
            Code::UnifyConstant(_) => self.pay(1),
            Code::UnifyInteger(_) => self.pay(1),
            Code::UnifyVoid(n) => self.pay(n),
            _ => {}
        }
        Ok(())
    }

    /// Whether it covers the state of a place, which has these registers: the same frame and number
    /// owed, at least its registers.
    pub(crate) fn covers(&self, state: &PlaceState, registers: &[usize]) -> bool
        requires { (n : ℕ) → has registers.now n ≡ has state.now.regs.items n }
        ensures { IsTrue result ↔ Covers self.now (state_of state.now) }
    {
        self.owed == state.owed
            && self.has_frame_of(state)
            && self.has_registers_of(state, registers)
    }

    /// Whether the registers of the state are set.
    fn has_registers_of(&self, state: &PlaceState, registers: &[usize]) -> bool
        requires { (n : ℕ) → has registers.now n ≡ has state.now.regs.items n }
        ensures { IsTrue result ↔ ((n : ℕ) → has (state_of state.now).regs n ≡ true
            → has self.now.regs n ≡ true) }
    {
        self.has_all(registers)
    }

    /// Whether the state has the same frame.
    fn has_frame_of(&self, state: &PlaceState) -> bool
        ensures { IsTrue result ↔ (self.now.frame ≡ (state_of state.now).frame) }
    {
        match (&self.frame, &state.frame) {
            (None, None) => true,
            (Some(one), Some(two)) => are_same_slots(one, two),
            _ => false,
        }
    }

    /// Whether these argument registers are set.
    fn has_all(&self, numbers: &[usize]) -> bool
        ensures { IsTrue result
            ↔ ((n : ℕ) → has numbers.now n ≡ true → has self.now.regs n ≡ true) }
    {
        for (index, number) in numbers.iter().enumerate() {
            if !self.has(*number) {
                return false;
            }
        }
        true
    }
}
