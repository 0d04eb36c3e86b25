//! The states of places.

ghost use Rattle.std.specs.Prelude.{◌≡◌, ◌∷◌, [], All, IfOk, map, option_map};
ghost use Rattle.code_listing.specs.Texts.{argument_word, frame_word, registers_word, slot_letter};
ghost use Rattle.code_listing.specs.States.{slot_of, state_of};
ghost use Rattle.listing_reader.specs.NumberBounds.{IsNumber, IsSmallState};
ghost use Rattle.listing_reader.specs.Frames.{AnyFrame, IsSlot, IsSlots, letters};
ghost use Rattle.listing_reader.specs.Lists.{state_words};
ghost use Rattle.listing_reader.specs.Reading.{Reads, ReadsAs};

use crate::read_words::{read_argument, read_number};
use crate::split::split_at_each;
use code_listing::{PlaceState, Slot};
use fd_language::NoMemory;
use std::alloc::Global;

/// The argument registers that words write.
fn read_arguments(alloc: Global, words: &[&[u8]]) -> Result<Option<Vec<usize>>, NoMemory>
    ensures { IfOk result (λ r. ReadsAs (λ v. v.items) (All IsNumber) (map argument_word)
        (map (λ w. w.now) words.now) r) }
{
    let mut arguments = Vec::new(alloc);
    for word in words {
        let Some(argument) = read_argument(word) else {
            return Ok(None);
        };
        arguments.push(argument)?;
    }
    Ok(Some(arguments))
}

/// The argument registers that a word writes.
fn read_registers(alloc: Global, word: &[u8]) -> Result<Option<Vec<usize>>, NoMemory>
    ensures { IfOk result (λ r. ReadsAs (λ v. v.items) (All IsNumber) registers_word word.now r) }
{
    if word == b"-".as_slice() {
        return Ok(Some(Vec::new(alloc)));
    }
    let parts = split_at_each(alloc, word, b',')?;
    let arguments = read_arguments(alloc, &parts)?;
    Ok(arguments)
}

/// The slot that a letter writes.
fn read_slot_letter(letter: u8) -> Option<Slot>
    ensures { ReadsAs slot_of IsSlot slot_letter letter result }
{
    match letter {
        b'u' => Some(Slot::Unset),
        b'c' => Some(Slot::Cell),
        b'l' => Some(Slot::Level),
        _ => None,
    }
}

/// The slots that letters write.
fn read_slots(alloc: Global, word: &[u8]) -> Result<Option<Vec<Slot>>, NoMemory>
    ensures { IfOk result (λ r. ReadsAs (λ v. map slot_of v.items) IsSlots letters word.now r) }
{
    let mut slots = Vec::new(alloc);
    for letter in word {
        let Some(slot) = read_slot_letter(*letter) else {
            return Ok(None);
        };
        slots.push(slot)?;
    }
    Ok(Some(slots))
}

/// The frame that a word writes.
fn read_frame(alloc: Global, word: &[u8]) -> Result<Option<Option<Vec<Slot>>>, NoMemory>
    ensures { IfOk result (λ r. ReadsAs (option_map (λ v. map slot_of v.items)) AnyFrame
        frame_word word.now r) }
{
    if word.is_empty() {
        return Ok(None);
    }
    if word == b"-".as_slice() {
        return Ok(Some(None));
    }
    if word == b".".as_slice() {
        return Ok(Some(Some(Vec::new(alloc))));
    }
    match read_slots(alloc, word)? {
        None => Ok(None),
        Some(slots) => Ok(Some(Some(slots))),
    }
}

/// The state that three words write.
pub(crate) fn read_state(
    alloc: Global,
    registers: &[u8],
    slots: &[u8],
    count: &[u8],
) -> Result<Option<PlaceState>, NoMemory>
    ensures { IfOk result (λ r. ReadsAs state_of IsSmallState state_words
        (registers.now ∷ slots.now ∷ count.now ∷ []) r) }
{
    let Some(owed) = read_number(count) else {
        return Ok(None);
    };
    let Some(regs) = read_registers(alloc, registers)? else {
        return Ok(None);
    };
    let Some(frame) = read_frame(alloc, slots)? else {
        return Ok(None);
    };
    Ok(Some(PlaceState { regs, frame, owed }))
}
