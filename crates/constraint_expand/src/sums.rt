//! Sums that are at most their constants, and their rows.

ghost use Rattle.std.specs.Prelude.{◌≡◌, [], MatchOption, IfOk, OnOk, OnErr};
ghost use Rattle.constraint_expand.specs.Pieces.{IsPiece, IsOver};
ghost use Rattle.constraint_expand.specs.Sums.{sums_ahead, AreReadySums, IsLoadable, Loads};

use crate::rows::{Comparison, Rows, rows_of_form};
use fd_language::NoMemory;
use linear_forms::Linear;
use monotone_check::Checked;
use std::alloc::Global;

/// The rows of a sum that are left, the sums, and the place of the first whose rows have not been
/// made.
#[derive(Drop)]
pub(crate) struct Sums {
    pub current: Rows,
    pub forms: Vec<Linear>,
    pub next: usize,
}

impl Sums {
    /// No sums.
    pub(crate) fn none(alloc: Global) -> Sums
        ensures none { sums_ahead result ≡ [] }
        ensures ready { AreReadySums result }
    {
        Sums {
            current: Rows::none(alloc),
            forms: Vec::new(alloc),
            next: 0,
        }
    }

    /// Makes the rows of the next sum, where none are left of the one before.
    fn load(&mut self, alloc: Global) -> Result<(), NoMemory>
        requires ready { AreReadySums self.old }
        requires over { IsLoadable self.old }
        ensures loads { OnOk result (Loads self.old self.new) }
        ensures unchanged { OnErr result (self.new ≡ self.old) }
        ensures ready { AreReadySums self.new }
    {
        let form = &self.forms[self.next];
        self.current = rows_of_form(alloc, Comparison::AtMost, &form.terms, form.constant)?;
        self.next += 1;
        Ok(())
    }

    /// The next row, and none where no row is left.
    pub(crate) fn next_piece(
        &mut self,
        alloc: Global,
    ) -> Result<Option<Vec<(u64, Checked)>>, NoMemory>
        requires { AreReadySums self.old }
        ensures piece { IfOk result (λ p. MatchOption p
            (IsOver (sums_ahead self.old) (sums_ahead self.new))
            (λ list. IsPiece (sums_ahead self.old) (sums_ahead self.new) list.items)) }
        ensures unchanged { OnErr result (sums_ahead self.new ≡ sums_ahead self.old) }
        ensures ready { AreReadySums self.new }
    {
        while self.next < self.forms.len() {
            if let Some(piece) = self.current.next_piece(alloc)? {
                return Ok(Some(piece));
            }
            self.load(alloc)?;
        }
        self.current.next_piece(alloc)
    }
}
