//! The values that labellings are still to try, by their choice points.

ghost use Rattle.std.specs.Prelude.{◌≡◌, reverse, false, None, OnOk};
ghost use Rattle.code_machine.specs.Labels.{labels_below};
ghost use Rattle.code_machine.specs.Steps.{labelled, TakesValues};

use crate::run::Label;
use code_goals::ValuesLeft;
use fd_language::NoMemory;

/// Keeps the values that are left for the choice point with so many older ones, if there are any. The error is want of memory.
pub(crate) fn keep_values(
    labels: &mut Vec<Label>,
    point: usize,
    left: Option<ValuesLeft>,
) -> Result<(), NoMemory>
    ensures { OnOk result (reverse labels.new.items
        ≡ labelled point left (reverse labels.old.items)) }
{
    if let Some(values) = left {
        labels.push(Label { point, values })?;
    }
    Ok(())
}

/// Whether the choice point with so many older ones has values.
#[inline]
pub(crate) fn has_values(labels: &[Label], point: usize) -> bool
    ensures { result ≡ false → TakesValues (reverse labels.now) point (reverse labels.now) None }
{
    match labels.last() {
        Some(label) => label.point == point,
        None => false,
    }
}

/// Takes the values of the choice point with so many older ones, if it has some.
pub(crate) fn take_values(labels: &mut Vec<Label>, point: usize) -> Option<ValuesLeft>
    ensures { TakesValues (reverse labels.old.items) point (reverse labels.new.items) result }
{
    match labels.last() {
        Some(label) if label.point == point => {}
        _ => return None,
    }
    match labels.pop() {
        Some(label) => Some(label.values),
        None => None,
    }
}

/// Keeps the values of the oldest `points` choice points alone: the others are gone. No memory.
pub(crate) fn drop_labels(labels: &mut Vec<Label>, points: usize)
    ensures { reverse labels.new.items ≡ labels_below points (reverse labels.old.items) }
{
    'dropping: loop {
        match labels.last() {
            Some(label) if label.point >= points => {}
            _ => return,
        }
        labels.pop();
    }
}
