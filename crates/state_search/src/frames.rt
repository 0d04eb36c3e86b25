//! The frames of places, found from the first place on, since every place that is named lies ahead.

use code_flow::{goes_on, put_named};
use code_listing::Slot;
use fd_language::NoMemory;
use std::alloc::Global;
use wam_code::{Code, CodeParts, Register};

/// What is found of a place's frame. A place to which none leads has none.
#[derive(Drop)]
pub(crate) struct FoundFrame {
    is_known: bool,
    slots: Option<Vec<Slot>>,
}

impl FoundFrame {
    /// The frame alone.
    pub(crate) fn into_slots(self) -> Option<Vec<Slot>> {
        self.slots
    }
}

fn unknown_frames(alloc: Global, count: usize) -> Result<Vec<FoundFrame>, NoMemory> {
    let mut frames = Vec::with_capacity(alloc, count)?;
    for _ in 0..count {
        frames.push(FoundFrame {
            is_known: false,
            slots: None,
        })?;
    }
    Ok(frames)
}

fn unset_slots(alloc: Global, count: usize) -> Result<Vec<Slot>, NoMemory> {
    let mut slots = Vec::new(alloc);
    for _ in 0..count {
        slots.push(Slot::Unset)?;
    }
    Ok(slots)
}

fn copy_frame(alloc: Global, frame: &Option<Vec<Slot>>) -> Result<Option<Vec<Slot>>, NoMemory> {
    match frame {
        None => Ok(None),
        Some(slots) => Ok(Some(Vec::from_slice(alloc, slots)?)),
    }
}

/// Puts what a slot becomes, where there is one with this number.
fn put_slot(slots: &mut [Slot], number: usize, slot: Slot) {
    if number > 0 && number <= slots.len() {
        slots[number - 1] = slot;
    }
}

fn put_cell(slots: &mut [Slot], register: Register) {
    if let Register::Y(number) = register {
        put_slot(slots, number, Slot::Cell);
    }
}

/// Changes the slots as the instruction does.
fn change_slots(slots: &mut [Slot], code: Code) {
    match code {
        Code::GetVariable(register, _) => put_cell(slots, register),
        Code::PutVariable(register, _) => put_cell(slots, register),
        Code::UnifyVariable(register) => put_cell(slots, register),
        Code::Level(slot) => put_slot(slots, slot, Slot::Level),
        Code::TestOnly(slot) => put_slot(slots, slot, Slot::Level),
        Code::EnterTest(slot, other, _) => {
            put_slot(slots, slot, Slot::Level);
            put_slot(slots, other, Slot::Level);
        }
        _ => {}
    }
}

fn change_frame(frame: &mut Option<Vec<Slot>>, code: Code) {
    if let Some(slots) = frame {
        change_slots(slots, code);
    }
}

/// The frame that an instruction hands on.
fn frame_behind(
    alloc: Global,
    frame: &Option<Vec<Slot>>,
    code: Code,
) -> Result<Option<Vec<Slot>>, NoMemory> {
    match code {
        Code::Allocate(count) => Ok(Some(unset_slots(alloc, count)?)),
        Code::Deallocate => Ok(None),
        _ => {
            let mut handed = copy_frame(alloc, frame)?;
            change_frame(&mut handed, code);
            Ok(handed)
        }
    }
}

/// Puts the places that the place's instruction leads to, each once, in the place of those that
/// were there.
pub(crate) fn put_behind(
    behind: &mut Vec<usize>,
    parts: &CodeParts,
    at: usize,
) -> Result<(), NoMemory> {
    behind.clear();
    if at < parts.code.len() {
        put_named(behind, parts, parts.code[at])?;
        if goes_on(parts.code[at]) {
            behind.push(at + 1)?;
        }
    }
    behind.sort_unstable();
    behind.dedup();
    Ok(())
}

/// Notes a place's frame, where none was noted before.
fn note(
    alloc: Global,
    frames: &mut [FoundFrame],
    to: usize,
    slots: &Option<Vec<Slot>>,
) -> Result<(), NoMemory> {
    if to < frames.len() && !frames[to].is_known {
        let slots = copy_frame(alloc, slots)?;
        frames[to] = FoundFrame {
            is_known: true,
            slots,
        };
    }
    Ok(())
}

/// Notes the frame that the place's instruction hands on, at the places that it leads to.
fn note_behind(
    alloc: Global,
    parts: &CodeParts,
    frames: &mut [FoundFrame],
    behind: &mut Vec<usize>,
    at: usize,
) -> Result<(), NoMemory> {
    if at < frames.len() && at < parts.code.len() {
        put_behind(behind, parts, at)?;
        let handed = frame_behind(alloc, &frames[at].slots, parts.code[at])?;
        for to in behind.iter() {
            note(alloc, frames, *to, &handed)?;
        }
    }
    Ok(())
}

/// The frames of places, each as the first place that leads there hands it on.
pub(crate) fn frames_of(alloc: Global, parts: &CodeParts) -> Result<Vec<FoundFrame>, NoMemory> {
    let mut frames = unknown_frames(alloc, parts.code.len())?;
    let mut behind = Vec::new(alloc);
    for at in 0..parts.code.len() {
        note_behind(alloc, parts, &mut frames, &mut behind, at)?;
    }
    Ok(frames)
}
