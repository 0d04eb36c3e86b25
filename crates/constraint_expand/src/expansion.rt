//! What a constraint becomes: variables with integers, and ranges that are made piece by piece.

ghost use Rattle.std.specs.Prelude.{◌≡◌, ◌<◌, ◌+◌, ◌^◌, ◌++◌, [], length, map, MatchOption, IfOk, OnErr};
ghost use Rattle.fd_language.specs.Lists.{Each};
ghost use Rattle.fd_model.specs.Splitting.{joined, sum_rows};
ghost use Rattle.linear_forms.specs.LinearForm.{form_of};
ghost use Rattle.linear_forms.specs.IntegerSums.{IsInside};
ghost use Rattle.product_bool.specs.Views.{parts_of};
ghost use Rattle.fd_model.specs.ListRows.{counts, pairwise};
ghost use Rattle.constraint_expand.specs.Pieces.{IsPiece, IsOver, rows_ahead, AreReady};
ghost use Rattle.constraint_expand.specs.Posts.{indexicals, Accepted};
ghost use Rattle.constraint_expand.specs.Views.{IsRest};

use crate::counts::Counters;
use crate::differences::Pairs;
use crate::members::Placed;
use crate::rows::{LinearRanges, Rows};
use crate::sums::Sums;
use fd_language::NoMemory;
use monotone_check::Checked;
use product_bool::Split;
use std::alloc::Global;
use std::marker::Model;
use std::mem::replace;

/// What a constraint becomes. Its ranges are made when they are asked for, a piece at a time.
#[derive(Drop)]
pub struct Expansion {
    alloc: Global,
    equated: Vec<(u64, i64)>,
    added: u64,
    pairs: Pairs,
    counters: Counters,
    rows: Rows,
    rest: Vec<(u64, Checked)>,
    sums: Sums,
}

impl Model for Expansion {
    ghost use Rattle.fd_model.specs.LinearRows as linear;

    ghost Value = { linear.Expansion };

    ghost use Rattle.constraint_expand.specs.Views.{expansion_coded};

    ghost coded = { expansion_coded };

    ghost use Rattle.std.specs.Prelude.{◌++◌};
    ghost use Rattle.constraint_expand.specs.Pieces.{pairs_ahead, counts_ahead, rows_ahead, AreNumbers, AreReady};
    ghost use Rattle.constraint_expand.specs.Posts.{indexicals};
    ghost use Rattle.constraint_expand.specs.Sums.{sums_ahead, AreReadySums};

    ghost view = { λ x. record {
      equated = x.equated.items;
      ranges = pairs_ahead x.pairs ++ (counts_ahead x.counters
          ++ (rows_ahead x.rows ++ (indexicals x.rest.items ++ sums_ahead x.sums)));
      fresh = x.added;
    } };

    ghost invariant = { λ x. AreNumbers x.counters × AreReady x.rows × AreReadySums x.sums };
}

impl Expansion {
    /// The fresh variables that are equated, each with its integer.
    pub fn equated(&self) -> &[(u64, i64)]
        ensures { result.now ≡ self.now.equated }
    {
        &self.equated
    }

    /// The next fresh number.
    pub fn added(&self) -> u64
        ensures { result ≡ self.now.fresh }
    {
        self.added
    }

    /// The next ranges, each behind its target, and none where no range is left. The error is want
    /// of memory; the same ranges are left then.
    pub fn next_piece(&mut self) -> Result<Option<Vec<(u64, Checked)>>, NoMemory>
        ensures piece { IfOk result (λ p. MatchOption p
            (IsOver self.old.ranges self.new.ranges)
            (λ list. IsPiece self.old.ranges self.new.ranges list.items)) }
        ensures rest { IsRest self.old self.new }
        ensures unchanged { OnErr result (self.new ≡ self.old) }
    {
        let alloc = self.alloc;
        if let Some(piece) = self.pairs.next_piece(alloc)? {
            return Ok(Some(piece));
        }
        if let Some(piece) = self.counters.next_piece(alloc)? {
            return Ok(Some(piece));
        }
        if let Some(piece) = self.rows.next_piece(alloc)? {
            return Ok(Some(piece));
        }
        if !self.rest.is_empty() {
            return Ok(Some(replace(&mut self.rest, Vec::new(alloc))));
        }
        self.sums.next_piece(alloc)
    }

    /// The ranges of a comparison.
    pub(crate) fn comparing(alloc: Global, linear: LinearRanges) -> Expansion
        requires { AreReady linear.rows }
        ensures equated { result.equated ≡ [] }
        ensures ranges { result.ranges
            ≡ rows_ahead linear.rows ++ indexicals linear.rest.items }
        ensures fresh { result.fresh ≡ linear.added }
    {
        let LinearRanges { rows, rest, added } = linear;
        Expansion {
            alloc,
            equated: Vec::new(alloc),
            added,
            pairs: Pairs::none(alloc),
            counters: Counters::none(alloc),
            rows,
            rest,
            sums: Sums::none(alloc),
        }
    }

    /// The ranges of members that differ in pairs, and others behind them.
    pub(crate) fn differing(alloc: Global, placed: Placed, rest: Vec<(u64, Checked)>) -> Expansion
        ensures equated { result.equated ≡ placed.equated.items }
        ensures ranges { result.ranges
            ≡ pairwise placed.variables.items ++ indexicals rest.items }
        ensures fresh { result.fresh ≡ placed.fresh }
    {
        let Placed {
            variables,
            equated,
            fresh,
        } = placed;
        Expansion {
            alloc,
            equated,
            added: fresh,
            pairs: Pairs { variables, next: 0 },
            counters: Counters::none(alloc),
            rows: Rows::none(alloc),
            rest,
            sums: Sums::none(alloc),
        }
    }

    /// The ranges of an element and its number.
    pub(crate) fn choosing(alloc: Global, placed: Placed, list: Vec<(u64, Checked)>) -> Expansion
        ensures equated { result.equated ≡ placed.equated.items }
        ensures ranges { result.ranges ≡ indexicals list.items }
        ensures fresh { result.fresh ≡ placed.fresh }
    {
        Expansion {
            alloc,
            equated: placed.equated,
            added: placed.fresh,
            pairs: Pairs::none(alloc),
            counters: Counters::none(alloc),
            rows: Rows::none(alloc),
            rest: list,
            sums: Sums::none(alloc),
        }
    }

    /// The ranges of members that are counted, and those of the counters' sum.
    pub(crate) fn counting(
        alloc: Global,
        value: i64,
        placed: Placed,
        sum: LinearRanges,
    ) -> Expansion
        requires numbers { placed.fresh + length placed.variables.items < 2 ^ 64 }
        requires ready { AreReady sum.rows }
        ensures equated { result.equated ≡ placed.equated.items }
        ensures ranges { result.ranges ≡ counts value placed.variables.items placed.fresh
            ++ (rows_ahead sum.rows ++ indexicals sum.rest.items) }
        ensures fresh { result.fresh ≡ sum.added }
    {
        let Placed {
            variables,
            equated,
            fresh,
        } = placed;
        let LinearRanges { rows, rest, added } = sum;
        Expansion {
            alloc,
            equated,
            added,
            pairs: Pairs::none(alloc),
            counters: Counters {
                value,
                variables,
                first: fresh,
                next: 0,
            },
            rows,
            rest,
            sums: Sums::none(alloc),
        }
    }

    /// The ranges of a product or a Boolean constraint, and the rows of its sums behind them.
    pub(crate) fn splitting(alloc: Global, parts: Split) -> Expansion
        requires inside { Each IsInside (map form_of parts.sums.items) }
        requires accepted { Accepted (sum_rows (map form_of parts.sums.items)) }
        ensures { result ≡ joined (parts_of parts) }
    {
        let Split {
            equated,
            added,
            list,
            sums,
        } = parts;
        Expansion {
            alloc,
            equated,
            added,
            pairs: Pairs::none(alloc),
            counters: Counters::none(alloc),
            rows: Rows::none(alloc),
            rest: list,
            sums: Sums {
                current: Rows::none(alloc),
                forms: sums,
                next: 0,
            },
        }
    }
}
