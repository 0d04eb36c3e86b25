//! Ranges that are prepared once and evaluated often: the set of a range over the current domains (Codognet and Diaz 1996).
#![tactic(auto)]

ghost use Rattle.std.specs.Prelude.{◌≡◌, ◌≤◌, ◌+◌, ◌-◌, ◌^◌, ◌↔◌, min, ℕ, pos, List, [], true, false, length, map, IfOk, OnOk, IsTrue};
ghost use Rattle.fd_language.specs.RangeVerdict.{is_accepted};
ghost use Rattle.fd_language.specs.Family.{IsFamily};
ghost use Rattle.fd_language.specs.PostfixRanges.{nodes_of};
ghost use Rattle.fd_language.specs.Range.{Range, set_of, least, is_none_left, is_several};
ghost use Rattle.domain_ranges.specs.Narrowing.{IsNarrowed};
ghost use Rattle.range_code.specs.Slots.{slots_of, slot_needs, slot_features, in_slots, IsAlike};
ghost use Rattle.range_code.specs.ValSlots.{val_slots};
ghost use Rattle.range_code.specs.Heights.{height, tallest};
ghost use Rattle.range_code.specs.FoldedRanges.{folded_nodes};
ghost use Rattle.range_code.specs.Pieces.{pieces_of, piece_node, literals};
ghost use Rattle.range_code.specs.CodeFields.{AreStepsOf, IsShapeOf};
ghost use Rattle.range_code.specs.Instructions.{instructions_of, tests_of};
ghost use Rattle.range_code.specs.StepNodes.{all_steps, ArePlaced};
ghost use Rattle.range_code.specs.Forms.{IsEvaluation, IsShifted};
ghost use Rattle.range_code.specs.SetReaches.{IsReach};
ghost use Rattle.std.specs.List.{list_any};
ghost use Rattle.range_code.specs.Frames.{IsArgumentFrame, posted, family_of, slot_set};
ghost use Rattle.range_code.specs.declared.frame.Arg.{Arg as AnyArg};

mod choice;
mod compile;
mod evaluate;
mod fold;
mod form;
mod frame;
mod instr;
mod quick_forms;
mod renamed_ranges;
mod spelled_forms;
mod told_forms;
mod work;

use crate::compile::{copy_range, height_of, needs_of_slots, put_in_slots, reads_of};
use crate::evaluate::{Steps, evaluate, evaluate_narrowing};
use crate::fold::fold_literals;
use crate::form::{Evaluation, both_values, form_of};
pub use crate::frame::Arg;
use crate::frame::{Standing, find_standing, is_open, is_some_open, slot_domain};
pub use crate::instr::RangeInstr;
use crate::instr::steps_of;
pub use crate::quick_forms::{Quick, quick_of, quick_reach};
use crate::renamed_ranges::{are_same_needs, are_same_nodes};
use crate::work::Work;
pub use domain_ranges::Narrowed;
use domain_ranges::{Domain, View};
use fd_language::{Feature, FlatRange, INFINITY, Need, NoMemory, RangeNode};
use monotone_check::Checked;
use std::alloc::Global;
use std::marker::Model;

/// An accepted range, ready to be evaluated.
///
/// Each variable of the range has a slot. Slots are numbered from 0 in the order of the variables' first occurrence.
#[derive(Drop)]
pub struct RangeCode {
    range: FlatRange,
    slots: Vec<u64>,
    needs: Vec<Option<Need>>,
    features: Vec<(usize, Feature)>,
    vals: Vec<usize>,
    nodes: Vec<RangeNode>,
    steps: Steps,
    form: Evaluation,
    height: usize,
}

impl Model for RangeCode {
    ghost use Rattle.std.specs.Coded.{code_by, coded_list};
    ghost use Rattle.fd_language.specs.contracts.range_node.RangeNode as node;
    ghost use Rattle.fd_language.specs.Range.{Range};
    ghost use Rattle.fd_language.specs.PostfixRanges.{nodes_of, spelled_range, spelled_range-nodes};

    ghost Value = { Range };

    ghost coded = { code_by _ (coded_list node.the_row.coded) nodes_of spelled_range spelled_range-nodes };

    ghost use Rattle.range_code.specs.CodeFields.{IsCompiled};

    ghost view = { λ c. c.range };

    ghost invariant = { λ c. IsCompiled c.range c.slots.items c.needs.items c.features.items
        c.vals.items c.nodes.items c.steps c.form c.height };
}

/// How many ranges were evaluated.
#[derive(Clone, Copy)]
pub struct Activations {
    /// Their number. It stands still at 2^64 - 1.
    pub count: u64,
}

impl Activations {
    /// None so far.
    pub fn new() -> Activations
        ensures { result.count ≡ 0 }
    {
        Activations { count: 0 }
    }

    /// One more.
    #[inline(always)]
    pub fn add(&mut self)
        ensures { self.new.count ≡ min (self.old.count + 1) (2 ^ 64 - 1) }
    {
        self.count = self.count.saturating_add(1);
    }
}

impl RangeCode {
    /// The variables of the range, by their slots.
    pub fn slots(&self) -> &[u64]
        ensures { result.now ≡ slots_of self.now }
    {
        &self.slots
    }

    /// What each slot needs: the need of a parameter, and `None` for any other variable.
    pub fn needs(&self) -> &[Option<Need>]
        ensures { result.now ≡ slot_needs self.now }
    {
        &self.needs
    }

    /// What the range reads, as pairs of a slot and a feature. Each pair stands once, in the order of first occurrence.
    pub fn features(&self) -> &[(usize, Feature)]
        ensures features { result.now ≡ slot_features self.now }
        ensures accepted { IsTrue (is_accepted INFINITY self.now) }
    {
        &self.features
    }

    /// The range itself.
    pub fn range(&self) -> &FlatRange
        ensures { result.now ≡ self.now }
    {
        &self.range
    }

    /// The instructions of the range: what `run_range` does.
    pub fn instrs(&self) -> &[RangeInstr]
        ensures { result.now ≡ instructions_of self.now }
    {
        &self.steps.instrs
    }

    /// Whether the code's range and that of the shape are the same but for the names of their variables. With the same arguments the two
    /// are posted as one range, so the code serves for both.
    pub fn has_shape(&self, shape: &Shape) -> bool
        ensures alike { (r : Range) → IsShapeOf r shape.now → IsTrue result ↔ IsAlike self.now r }
        ensures posted { (r : Range) → IsShapeOf r shape.now → IsTrue result
            → (args : List AnyArg) → posted self.now args ≡ posted r args }
        ensures needs { (r : Range) → IsShapeOf r shape.now → IsTrue result
            → slot_needs self.now ≡ slot_needs r }
        ensures nodes { (r : Range) → IsShapeOf r shape.now → IsTrue result
            → length (nodes_of self.now) ≡ length (nodes_of r) }
    {
        are_same_needs(&self.needs, &shape.needs) && are_same_nodes(&self.nodes, &shape.nodes)
    }

    /// The slots that are read by val.
    #[inline(always)]
    fn vals(&self) -> &[usize]
        ensures vals { result.now ≡ val_slots self.now }
        ensures accepted { IsTrue (is_accepted INFINITY self.now) }
    {
        &self.vals
    }

    /// Whether nothing is read by val.
    fn reads_no_val(&self) -> bool
        ensures { IsTrue result → val_slots self.now ≡ [] }
    {
        self.vals.is_empty()
    }

    /// The nodes with slots as variables.
    fn nodes(&self) -> &[RangeNode]
        ensures nodes { result.now ≡ nodes_of (in_slots self.now) }
        ensures accepted { IsTrue (is_accepted INFINITY self.now) }
    {
        &self.nodes
    }

    /// The tests in front of the other instructions.
    fn tests(&self) -> &[RangeInstr]
        ensures tests { result.now ≡ tests_of self.now }
        ensures accepted { IsTrue (is_accepted INFINITY self.now) }
    {
        &self.steps.instrs[..self.steps.tests]
    }

    /// What is evaluated.
    #[inline(always)]
    fn steps(&self) -> &Steps
        ensures nodes { all_steps result.now ≡ folded_nodes self.now }
        ensures placed { ArePlaced result.now }
    {
        &self.steps
    }

    /// How the range is evaluated where it narrows.
    #[inline(always)]
    fn form(&self) -> &Evaluation
        ensures form { IsEvaluation (in_slots self.now) result.now }
        ensures shifted { IsShifted result.now → val_slots self.now ≡ [] }
        ensures accepted { IsTrue (is_accepted INFINITY self.now) }
    {
        &self.form
    }

    /// How many values or sets wait at most.
    fn height(&self) -> usize
        ensures { result ≡ height self.now }
    {
        self.height
    }
}

/// What is evaluated for the nodes, and how many values or sets wait at most.
fn steps_and_height(
    alloc: Global,
    nodes: &[RangeNode],
    needs: &[Option<Need>],
    vals: &[usize],
) -> Result<(Steps, usize), NoMemory>
    ensures steps { IfOk result (λ made. AreStepsOf needs.now vals.now
        (literals (pieces_of nodes.now)) (map piece_node (pieces_of nodes.now)) made.0) }
    ensures height { IfOk result (λ made. made.1
        ≡ tallest (map piece_node (pieces_of nodes.now))) }
{
    let pieces = fold_literals(alloc, nodes)?;
    let height = height_of(&pieces);
    let steps = steps_of(alloc, needs, vals, &pieces)?;
    Ok((steps, height))
}

/// A range in slots: the variable of each slot, what each needs, and the nodes. `compile_shape` makes the code from it, unless a code
/// that is there has the shape already.
#[derive(Drop)]
pub struct Shape {
    slots: Vec<u64>,
    needs: Vec<Option<Need>>,
    nodes: Vec<RangeNode>,
}

impl Shape {
    /// The shape of an accepted range.
    pub fn new(alloc: Global, c: &Checked) -> Result<Shape, NoMemory>
        ensures { IfOk result (IsShapeOf c.now) }
    {
        let put = put_in_slots(alloc, c.range().nodes())?;
        let needs = needs_of_slots(alloc, c, &put.slots)?;
        Ok(Shape {
            slots: put.slots,
            needs,
            nodes: put.nodes,
        })
    }

    /// The variables of the range, by their slots.
    pub fn slots(&self) -> &[u64]
        ensures { (r : Range) → IsShapeOf r self.now → result.now ≡ slots_of r }
    {
        &self.slots
    }
}

/// Prepares the range of a shape for `run_range` and `narrow`.
pub fn compile_shape(alloc: Global, c: &Checked, shape: Shape) -> Result<RangeCode, NoMemory>
    requires { IsShapeOf c.now shape }
    ensures { IfOk result (λ code. code ≡ c.now) }
{
    let range = copy_range(alloc, c.range())?;
    let reads = reads_of(alloc, &shape.nodes, shape.slots.as_slice().len())?;
    let (steps, height) = steps_and_height(alloc, &shape.nodes, &shape.needs, &reads.vals)?;
    let form = form_of(alloc, &shape.nodes, reads.vals.is_empty())?;
    Ok(RangeCode {
        range,
        slots: shape.slots,
        needs: shape.needs,
        features: reads.features,
        vals: reads.vals,
        nodes: shape.nodes,
        steps,
        form,
        height,
    })
}

/// Prepares an accepted range for `run_range` and `narrow`.
pub fn compile_range(alloc: Global, c: &Checked) -> Result<RangeCode, NoMemory>
    ensures { IfOk result (λ code. code ≡ c.now) }
{
    let shape = Shape::new(alloc, c)?;
    compile_shape(alloc, c, shape)
}

/// The set of the range over the domains of a view, and one more activation in `n`.
///
/// There is one argument for each slot: for a parameter an integer that meets its need, and for any other variable its number in the view.
pub fn run_range<V: View>(
    alloc: Global,
    code: &RangeCode,
    args: &[Arg],
    view: &V,
    n: &mut Activations,
) -> Result<Domain, NoMemory>
    requires { IsArgumentFrame (length (V.sets view.now)) code.now args.now }
    ensures set { IfOk result (λ d. d ≡ set_of INFINITY (family_of (V.sets view.now))
        (posted code.now args.now)) }
    ensures count { n.new.count ≡ min (n.old.count + 1) (2 ^ 64 - 1) }
{
    n.add();
    match find_standing(code.tests(), args, view) {
        Standing::Empty => Ok(Domain::empty(alloc)),
        Standing::Open => Ok(Domain::full(alloc)),
        Standing::Settled => {
            let mut work = Work::new(alloc);
            work.reserve(code.height())?;
            evaluate(&mut work, code.steps(), args, view)
        }
    }
}

/// The work stacks of runs, which a caller lends. They grow only in `reserve`, but for a set of more than two intervals.
///
/// A contract sees how high they may grow without memory.
#[derive(Drop)]
pub struct Stacks {
    work: Work,
}

impl Model for Stacks {
    ghost use Rattle.std.specs.Prelude.{ℕ, min, vec_capacity};

    ghost Value = { ℕ };

    ghost view = { λ s. min (vec_capacity s.work.values) s.work.sets.room };
}

impl Stacks {
    /// Stacks without room.
    pub fn new(alloc: Global) -> Stacks {
        Stacks {
            work: Work::new(alloc),
        }
    }

    /// Makes room for the runs of the range.
    pub fn reserve(&mut self, code: &RangeCode) -> Result<(), NoMemory>
        ensures kept { self.old ≤ self.new }
        ensures room { OnOk result (height code.now ≤ self.new) }
    {
        self.work.reserve(code.height())
    }
}

/// The set of a range over the domains of a view, as far as numbers tell it.
#[derive(Clone, Copy)]
pub enum Reach {
    /// All numbers.
    All,
    /// The numbers from a number to a number.
    Between(i64, i64),
    /// All numbers but one.
    Except(i64),
    /// Any set: numbers don't tell it.
    Other,
}

/// All numbers but the only member of the domain, and all where it has several.
#[inline(always)]
fn reach_without(domain: &Domain) -> Reach
    ensures open { is_several domain.now ≡ true → result ≡ Reach.All }
    ensures known { is_several domain.now ≡ false
        → result ≡ Reach.Except (pos (least domain.now)) }
{
    if is_open(domain) {
        Reach::All
    } else {
        Reach::Except(domain.least() as i64)
    }
}

/// The set of the range, as far as numbers tell it, where each variable that is read by val has a single member.
#[inline(always)]
fn settled_reach<V: View>(code: &RangeCode, args: &[Arg], view: &V) -> Reach
    requires frame { IsArgumentFrame (length (V.sets view.now)) code.now args.now }
    requires some { (k : ℕ) → is_none_left (family_of (V.sets view.now) k) ≡ false }
    requires settled { list_any (λ s. is_several (slot_set (V.sets view.now) args.now s))
        (val_slots code.now) ≡ false }
    ensures { IsReach
        (set_of INFINITY (family_of (V.sets view.now)) (posted code.now args.now)) result }
{
    match code.form() {
        Evaluation::Between(low, high) => {
            let low = low.value(args, view);
            Reach::Between(low, high.value(args, view))
        }
        Evaluation::Row(low, high) => {
            let ends = both_values(low, high, args, view);
            Reach::Between(ends.0, ends.1)
        }
        Evaluation::Except(number) => Reach::Except(number.value(args, view)),
        _ => Reach::Other,
    }
}

/// The set of the range over the domains of a view, as far as numbers tell it.
#[inline(always)]
fn reach_of<V: View>(code: &RangeCode, args: &[Arg], view: &V) -> Reach
    requires frame { IsArgumentFrame (length (V.sets view.now)) code.now args.now }
    requires some { (k : ℕ) → is_none_left (family_of (V.sets view.now) k) ≡ false }
    ensures reach { IsReach
        (set_of INFINITY (family_of (V.sets view.now)) (posted code.now args.now)) result }
    ensures other { result ≡ Reach.Other
        → list_any (λ s. is_several (slot_set (V.sets view.now) args.now s))
        (val_slots code.now) ≡ false }
{
    let form = code.form();
    if let Evaluation::Above(low, high) = form {
        return Reach::Between(low.least(args, view), *high);
    }
    if let Evaluation::Below(low, high) = form {
        return Reach::Between(*low, high.greatest(args, view));
    }
    if let Evaluation::Differs(slot) = form {
        return reach_without(slot_domain(args, *slot, view));
    }
    if is_some_open(code.vals(), args, view) {
        return Reach::All;
    }
    settled_reach(code, args, view)
}

/// The set of the range over the domains of a view, as far as numbers tell it. No memory is taken.
///
/// The arguments are those of `run_range`. No set of the view is empty. A caller may not rely on when `Other` comes.
#[inline(always)]
pub fn find_reach<V: View>(code: &RangeCode, args: &[Arg], view: &V) -> Reach
    requires frame { IsArgumentFrame (length (V.sets view.now)) code.now args.now }
    requires some { (k : ℕ) → is_none_left (family_of (V.sets view.now) k) ≡ false }
    ensures { IsReach
        (set_of INFINITY (family_of (V.sets view.now)) (posted code.now args.now)) result }
{
    reach_of(code, args, view)
}

/// What the set of the range leaves of `target`, and one more activation in `n`. Where that is all, nothing is made, and where the range
/// is an interval, no set is.
///
/// The arguments are those of `run_range`. No set of the view is empty, and there is room for the range in the stacks.
#[inline(always)]
pub fn narrow<V: View>(
    code: &RangeCode,
    args: &[Arg],
    view: &V,
    target: &Domain,
    stacks: &mut Stacks,
    n: &mut Activations,
) -> Result<Narrowed, NoMemory>
    requires frame { IsArgumentFrame (length (V.sets view.now)) code.now args.now }
    requires some { (k : ℕ) → is_none_left (family_of (V.sets view.now) k) ≡ false }
    requires family { IsFamily INFINITY (family_of (V.sets view.now)) }
    requires room { height code.now ≤ stacks.old }
    ensures narrowed { IfOk result
        (IsNarrowed target.now (set_of INFINITY (family_of (V.sets view.now))
        (posted code.now args.now))) }
    ensures room { stacks.old ≤ stacks.new }
    ensures count { n.new.count ≡ min (n.old.count + 1) (2 ^ 64 - 1) }
{
    n.add();
    match reach_of(code, args, view) {
        Reach::All => {
            target.rises();
            Ok(Narrowed::Same)
        }
        Reach::Between(low, high) => target.narrowed_between(low, high),
        Reach::Except(number) => target.narrowed_without(number),
        Reach::Other => evaluate_narrowing(
            &mut stacks.work,
            code.steps(),
            code.form(),
            args,
            view,
            target,
        ),
    }
}
