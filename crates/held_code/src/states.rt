//! The numbers of states.

ghost use Rattle.std.specs.Prelude.{All};
ghost use Rattle.code_listing.specs.States.{state_of, states_of};
ghost use Rattle.listing_reader.specs.NumberBounds.{IsNumber, IsSmallState};

use code_listing::PlaceState;

/// A number.
fn hold_number(number: usize)
    ensures { IsNumber number }
{}

/// Those of registers.
fn hold_registers(numbers: &[usize])
    ensures { All IsNumber numbers.now }
{
    for number in numbers {
        hold_number(*number);
    }
}

/// Those of a state.
fn hold_state(state: &PlaceState)
    ensures { IsSmallState (state_of state.now) }
{
    hold_registers(&state.regs);
    hold_number(state.owed);
}

/// Those of states.
pub(crate) fn hold_states(states: &[PlaceState])
    ensures { All IsSmallState (states_of states.now) }
{
    for (index, state) in states.iter().enumerate() {
        hold_state(state);
    }
}
