//! Registers of code in a machine's areas.

ghost use Rattle.std.specs.Prelude.{◌≡◌, ◌<◌, ◌≤◌, length, Some, OnOk};
ghost use Rattle.code_meaning.specs.Registers.{cell_in, IsWritten};
ghost use Rattle.code_safety.specs.Machine.{registers_of, HasCell, CanHold, IsSameBehind};

use code_areas::Areas;
use fd_language::NoMemory;
use heap_cells::Cell;
use wam_code::Register;

/// The cell that a register holds.
#[inline(always)]
pub(crate) fn read(areas: &Areas, r: Register) -> Cell
    requires { HasCell areas.now r }
    ensures { cell_in (registers_of areas.now) r ≡ Some result }
{
    match r {
        Register::X(n) => areas.register(n),
        Register::Y(n) => areas.slot(n - 1),
    }
}

/// Puts a cell into a register. The error is want of memory.
#[inline(always)]
pub(crate) fn write(areas: &mut Areas, r: Register, cell: Cell) -> Result<(), NoMemory>
    requires { CanHold areas.old r }
    ensures written { OnOk result (IsWritten (registers_of areas.old) r cell
        (registers_of areas.new)) }
    ensures same { OnOk result (IsSameBehind areas.old areas.new) }
    ensures slots { OnOk result (length areas.new.slots ≡ length areas.old.slots) }
{
    match r {
        Register::X(n) => areas.set_register(n, cell),
        Register::Y(n) => {
            areas.set_slot(n - 1, cell);
            Ok(())
        }
    }
}
