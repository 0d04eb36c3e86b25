//! Domains that are changed in place, with marks to which they go back.
#![tactic(auto)]

ghost use Rattle.std.specs.Prelude.{◌≡◌, ◌<◌, ◌≤◌, ℕ, List, pos, filter, [], ◌∷◌, ◌++◌, length, take, drop, slice_set, IfOk, OnOk, OnErr, IsTrue, false};
ghost use Rattle.fd_language.specs.Family.{has, universe};
ghost use Rattle.fd_language.specs.Range.{least, greatest, is_none_left};
ghost use Rattle.domain_ranges.specs.Spans.{members};
ghost use Rattle.domain_ranges.specs.Narrowing.{between, all_but, AreEnds, IsNarrowed};
ghost use Rattle.domain_trail.specs.Cuts.{set_at, IsCut, IsWithout};

use domain_ranges::{Domain, Membership, Narrowed, Part, View};
use fd_language::{INFINITY, NoMemory};
use std::alloc::Global;
use std::marker::Model;
use std::mem;

/// A variable's domain, and the stamp of the stretch between two marks in which it last changed. It takes 64 bytes.
#[derive(Drop)]
struct Cell {
    domain: Domain,
    stamp: u64,
}

const _: () = prove!(size_of::<Cell>() == 64);

impl Cell {
    /// Takes a member out of the domain, which has others, at a stamp. After `NoMemory` the cell is as it was.
    #[inline(always)]
    fn leave_out(&mut self, n: u32, stamp: u64) -> Result<(), NoMemory>
        requires member { IsTrue (has self.old.domain n) }
        requires others { least self.old.domain < greatest self.old.domain }
        ensures left { OnOk result (self.new ≡ record {
          domain = filter (has (all_but (pos n))) self.old.domain;
          stamp = stamp;
        }) }
        ensures some { OnOk result (is_none_left self.new.domain ≡ false) }
        ensures unchanged { OnErr result (self.new ≡ self.old) }
    {
        self.domain.leave_out(n)?;
        self.stamp = stamp;
        Ok(())
    }
}

/// What the cell of a variable was. It takes 72 bytes.
#[derive(Drop)]
struct Saved {
    var: usize,
    cell: Cell,
}

const _: () = prove!(size_of::<Saved>() == 72);

/// How many cells were saved and how many variables there were, and the stamp before the mark. It takes 24 bytes.
#[derive(Clone, Copy, Drop)]
struct Mark {
    saved: usize,
    vars: usize,
    stamp: u64,
}

const _: () = prove!(size_of::<Mark>() == 24);

/// What became of a domain of which some values were taken away.
#[derive(Clone, Copy)]
pub enum Cut {
    /// It is as it was.
    Same,
    /// No value would be left, and it is as it was.
    Empty,
    /// It has fewer values: the least and the greatest one before, and those after.
    Changed((u32, u32), (u32, u32)),
}

/// The domains of variables, as a list of stores of which the first is the current one.
///
/// A domain changes in place. Between two marks the old one is saved at most once, unless marks were dropped there:
/// a variable's stamp tells whether it was. A stamp is never handed out twice, and at the last one every change is saved;
/// a mark that goes gives back the stamp before it. Cells that were written after the stamp `settled` change unsaved.
///
/// Where marks were dropped, what was saved twice is forgotten: of the newest saved cells at once, and of all above a mark as
/// soon as they are more than twice as many as the variables.
///
/// A call that answers `NoMemory` leaves the trail as it was, and may be tried again.
#[derive(Drop)]
pub struct Trail {
    alloc: Global,
    cells: Vec<Cell>,
    saved: Vec<Saved>,
    marks: Vec<Mark>,
    stamp: u64,
    settled: u64,
    last: u64,
    sifted: usize,
}

impl Model for Trail {
    ghost use Rattle.domain_trail.specs.Stores.{Stores};

    ghost Value = { Stores };

    ghost use Rattle.std.specs.Prelude.{reverse};
    ghost use Rattle.domain_trail.specs.Trails.{sets_of, stores_below, IsTrail, AreOld, AreUnsettled};

    ghost view = { λ t. record {
      current = sets_of t.cells.items;
      below = stores_below (reverse t.marks.items) t.saved.items t.cells.items;
    } };

    ghost invariant = { λ t. IsTrail (reverse t.marks.items) t.saved.items t.cells.items t.stamp
        × AreOld t.last t.marks.items t.saved.items t.cells.items t.stamp
        × AreUnsettled t.marks.items t.stamp t.settled };
}

impl Trail {
    /// One store without variables.
    pub fn new(alloc: Global) -> Trail
        ensures { result ≡ record { current = []; below = [] } }
    {
        Trail {
            alloc,
            cells: Vec::new(alloc),
            saved: Vec::new(alloc),
            marks: Vec::new(alloc),
            stamp: 1,
            settled: 0,
            last: 1,
            sifted: 0,
        }
    }

    /// How many variables the current store has.
    pub fn vars(&self) -> usize
        ensures { result ≡ length self.now.current }
    {
        self.cells.len()
    }

    /// How many stores are below the current one.
    pub fn marks(&self) -> usize
        ensures { result ≡ length self.now.below }
    {
        self.marks.len()
    }

    /// One more variable, which may have any value, and its number. `NoMemory`: there is no room for it.
    pub fn new_var(&mut self) -> Result<usize, NoMemory>
        ensures number { IfOk result (λ k. k ≡ length self.old.current) }
        ensures added { OnOk result (self.new ≡ record self.old {
          current = self.old.current ++ universe INFINITY ∷ [];
        }) }
        ensures unchanged { OnErr result (self.new ≡ self.old) }
    {
        let k = self.cells.len();
        self.cells.push(Cell {
            domain: Domain::full(self.alloc),
            stamp: self.stamp,
        })?;
        Ok(k)
    }

    /// Gives the variable `k` another domain. `NoMemory`: there is no room for the old one; the new one is then gone.
    #[inline(always)]
    pub fn narrow(&mut self, k: usize, domain: Domain) -> Result<(), NoMemory>
        requires { k < length self.old.current }
        ensures changed { OnOk result
            (self.new ≡ record self.old { current = slice_set self.old.current k domain }) }
        ensures unchanged { OnErr result (self.new ≡ self.old) }
    {
        let stamp = self.stamp;
        let old = self.cells[k].stamp;
        if self.settled < old {
            self.cells[k] = Cell { domain, stamp };
            return Ok(());
        }
        self.save_and_narrow(k, domain)
    }

    /// The same where the old domain is saved.
    #[inline(always)]
    fn save_and_narrow(&mut self, k: usize, domain: Domain) -> Result<(), NoMemory>
        requires { k < length self.old.current }
        ensures changed { OnOk result
            (self.new ≡ record self.old { current = slice_set self.old.current k domain }) }
        ensures unchanged { OnErr result (self.new ≡ self.old) }
    {
        self.saved.reserve(1)?;
        let stamp = self.stamp;
        let cell = mem::replace(&mut self.cells[k], Cell { domain, stamp });
        self.saved.push_reserved(Saved { var: k, cell });
        Ok(())
    }

    /// Takes the values outside of `lo` to `hi` from the domain of the variable `k`, which isn't empty. `NoMemory`: there is no
    /// room for the old domain, or for the new one.
    #[inline(always)]
    pub fn cut(&mut self, k: usize, lo: i64, hi: i64) -> Result<Cut, NoMemory>
        requires var { k < length self.old.current }
        requires some { is_none_left (set_at self.old k) ≡ false }
        ensures cut { IfOk result (IsCut (between lo hi) k self.old self.new) }
        ensures unchanged { OnErr result (self.new ≡ self.old) }
    {
        let cell = &self.cells[k];
        match cell.domain.part_between(lo, hi) {
            Part::All => Ok(Cut::Same),
            Part::Nothing => Ok(Cut::Empty),
            Part::Within(low, high) => {
                if !cell.domain.is_interval() {
                    return self.cut_apart(k, lo, hi);
                }
                let before = ends(&cell.domain);
                if self.settled < cell.stamp {
                    let stamp = self.stamp;
                    set_interval(&mut self.cells, k, (low, high), stamp);
                    return Ok(Cut::Changed(before, (low, high)));
                }
                self.save_and_narrow(k, Domain::of_span(self.alloc, (low, high)))?;
                Ok(Cut::Changed(before, (low, high)))
            }
        }
    }

    /// The same of a domain of any intervals.
    #[inline(never)]
    fn cut_apart(&mut self, k: usize, lo: i64, hi: i64) -> Result<Cut, NoMemory>
        requires var { k < length self.old.current }
        requires some { is_none_left (set_at self.old k) ≡ false }
        ensures cut { IfOk result (IsCut (between lo hi) k self.old self.new) }
        ensures unchanged { OnErr result (self.new ≡ self.old) }
    {
        let left = self.cells[k].domain.narrowed_to(lo as i128, hi as i128)?;
        self.take_left(k, left)
    }

    /// Takes the number from the domain of the variable `k`, which isn't empty. `NoMemory`: there is no room for the old
    /// domain, or for the new one.
    #[inline(always)]
    pub fn cut_out(&mut self, k: usize, number: i64) -> Result<Cut, NoMemory>
        requires var { k < length self.old.current }
        requires some { is_none_left (set_at self.old k) ≡ false }
        ensures cut { IfOk result (IsCut (all_but number) k self.old self.new) }
        ensures unchanged { OnErr result (self.new ≡ self.old) }
    {
        let domain = &self.cells[k].domain;
        match domain.membership(number) {
            Membership::Outside => Ok(Cut::Same),
            Membership::Alone => Ok(Cut::Empty),
            Membership::Among(n) => {
                let before = ends(domain);
                self.leave_out(k, n)?;
                let after = ends(&self.cells[k].domain);
                Ok(Cut::Changed(before, after))
            }
        }
    }

    /// Takes the member `n` from the domain of the variable `k`, which has others.
    #[inline(always)]
    fn leave_out(&mut self, k: usize, n: u32) -> Result<(), NoMemory>
        requires var { k < length self.old.current }
        requires member { IsTrue (has (set_at self.old k) n) }
        requires others { least (set_at self.old k) < greatest (set_at self.old k) }
        ensures without { OnOk result (IsWithout k n self.old self.new) }
        ensures unchanged { OnErr result (self.new ≡ self.old) }
    {
        let stamp = self.stamp;
        let old = self.cells[k].stamp;
        if self.settled < old {
            self.cells[k].leave_out(n, stamp)?;
            return Ok(());
        }
        self.save_and_leave_out(k, n)
    }

    /// The same where the old domain is saved.
    #[inline(never)]
    fn save_and_leave_out(&mut self, k: usize, n: u32) -> Result<(), NoMemory>
        requires var { k < length self.old.current }
        requires member { IsTrue (has (set_at self.old k) n) }
        requires others { least (set_at self.old k) < greatest (set_at self.old k) }
        ensures without { OnOk result (IsWithout k n self.old self.new) }
        ensures unchanged { OnErr result (self.new ≡ self.old) }
    {
        let mut left = self.cells[k].domain.copy_with_room()?;
        left.leave_out(n)?;
        self.save_and_narrow(k, left)
    }

    /// Gives the variable `k` what is left of its domain, which isn't empty. `NoMemory`: there is no room for the old domain.
    #[inline(always)]
    pub fn take_left(&mut self, k: usize, left: Narrowed) -> Result<Cut, NoMemory>
        requires var { k < length self.old.current }
        requires some { is_none_left (set_at self.old k) ≡ false }
        requires left { (set : List ℕ) × IsNarrowed (set_at self.old k) set left }
        ensures cut { (set : List ℕ) → IsNarrowed (set_at self.old k) set left
            → IfOk result (IsCut set k self.old self.new) }
        ensures unchanged { OnErr result (self.new ≡ self.old) }
    {
        match left {
            Narrowed::Same => Ok(Cut::Same),
            Narrowed::Empty => Ok(Cut::Empty),
            Narrowed::Changed(domain) => {
                let before = ends(&self.cells[k].domain);
                let after = ends(&domain);
                self.narrow(k, domain)?;
                Ok(Cut::Changed(before, after))
            }
        }
    }

    /// Puts a copy of the current store below it. `NoMemory`: there is no room for the mark.
    pub fn push_mark(&mut self) -> Result<(), NoMemory>
        ensures marked { OnOk result (self.new ≡ record self.old {
          below = self.old.current ∷ self.old.below;
        }) }
        ensures unchanged { OnErr result (self.new ≡ self.old) }
    {
        self.marks.push(Mark {
            saved: self.saved.len(),
            vars: self.cells.len(),
            stamp: self.stamp,
        })?;
        self.last = self.last.saturating_add(1);
        self.stamp = self.last;
        self.settled = settled_at(self.stamp);
        Ok(())
    }

    /// Gives back the store below the current one.
    pub fn pop_mark(&mut self)
        requires { 0 < length self.old.below }
        ensures { self.old.below ≡ self.new.current ∷ self.new.below }
    {
        let mark = self.marks.pop().unwrap();
        restore(&mut self.cells, &mut self.saved, mark.saved);
        self.cells.truncate(mark.vars);
        self.stamp = mark.stamp;
        self.settled = if self.marks.is_empty() {
            0
        } else {
            settled_at(mark.stamp)
        };
        self.sifted = self.sifted.min(mark.saved);
    }

    /// Takes away the `n` stores directly below the current one.
    pub fn drop_marks(&mut self, n: usize)
        requires { n ≤ length self.old.below }
        ensures { self.new ≡ record self.old { below = drop n self.old.below } }
    {
        if n == 0 {
            return;
        }
        let left = self.marks.len() - n;
        let oldest = self.marks[left];
        self.marks.truncate(left);
        self.stamp = oldest.stamp;
        if left == 0 {
            self.saved.clear();
            self.settled = 0;
        } else {
            let from = place_to_sift(
                self.saved.len(),
                self.cells.len(),
                oldest.saved,
                self.sifted,
            );
            forget_since(&mut self.saved, from, oldest.stamp);
            self.settled = settled_at(oldest.stamp);
        }
        self.sifted = self.saved.len();
    }
}

impl View for Trail {
    ghost sets = { λ t. t.current };

    fn domain(&self, k: usize) -> &Domain {
        &self.cells[k].domain
    }
}

/// The least and the greatest value of a domain that isn't empty.
#[inline(always)]
fn ends(domain: &Domain) -> (u32, u32)
    requires { is_none_left domain.now ≡ false }
    ensures { AreEnds result domain.now }
{
    (domain.least(), domain.greatest())
}

/// The stamp before that of a stretch. At the last stamp of all it is that one: no cell is written later.
fn settled_at(stamp: u64) -> u64
    ensures { (ms : List Mark) → AreUnsettled ms stamp result }
{
    if stamp == u64::MAX {
        stamp
    } else {
        stamp.saturating_sub(1)
    }
}

/// The domain of a cell becomes an interval, at a stamp.
#[inline(always)]
fn set_interval(cells: &mut Vec<Cell>, k: usize, span: (u32, u32), stamp: u64)
    requires cell { k < length cells.old.items }
    requires order { span.0 ≤ span.1 }
    requires high { span.1 ≤ INFINITY }
    ensures { cells.new.items ≡ slice_set cells.old.items k
        (record { domain = members (span ∷ []); stamp = stamp }) }
{
    let cell = &mut cells[k];
    cell.stamp = stamp;
    cell.domain.set_interval(span.0, span.1);
}

ghost use Rattle.std.specs.Prelude.{◌^◌, ◌-◌, All};
ghost use Rattle.domain_trail.specs.Trails.{undo, sift, AreUnsettled};
ghost use Rattle.domain_trail.specs.declared.Mark.{Mark};

/// From which saved cell on those are looked for that were saved twice, where the marks from that at place `at` on go: from the
/// first that wasn't looked at, or from `at` on where there are more than twice as many as variables.
fn place_to_sift(saved: usize, vars: usize, at: usize, sifted: usize) -> usize
    ensures { at ≤ result }
{
    if saved.saturating_sub(at) / 2 > vars {
        at
    } else {
        sifted.max(at)
    }
}

/// Forgets the saved cells from `from` on that were written at the stamp or later, unless it is the last one.
fn forget_since(saved: &mut Vec<Saved>, from: usize, stamp: u64)
    ensures last { 2 ^ 64 - 1 ≤ stamp → saved.new.items ≡ saved.old.items }
    ensures sifted { stamp < 2 ^ 64 - 1 → saved.new.items ≡ sift from stamp saved.old.items }
{
    if stamp < u64::MAX {
        forget(saved, from, stamp);
    }
}

/// Forgets the saved cells from `from` on that were written at the stamp or later.
fn forget(saved: &mut Vec<Saved>, from: usize, stamp: u64)
    ensures { saved.new.items ≡ sift from stamp saved.old.items }
{
    let mut kept = from;
    let mut place = from;
    'sifting: while place < saved.len() {
        if saved[place].cell.stamp < stamp {
            saved.swap(kept, place);
            kept += 1;
        }
        place += 1;
    }
    saved.truncate(kept);
}

/// Puts back what was saved since there were `from` saved cells, the newest first.
fn restore(cells: &mut Vec<Cell>, saved: &mut Vec<Saved>, from: usize)
    requires from { from ≤ length saved.old.items }
    requires vars { All (λ e. e.var < length cells.old.items) saved.old.items }
    ensures cells { cells.new.items ≡ undo (drop from saved.old.items) cells.old.items }
    ensures saved { saved.new.items ≡ take from saved.old.items }
{
    'restoring: while saved.len() > from {
        let entry = saved.pop().unwrap();
        cells[entry.var] = entry.cell;
    }
}
