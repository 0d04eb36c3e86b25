//! Ranges that are evaluated without waiting values: an interval between two sums, the complement of one, and chosen numbers.

ghost use Rattle.std.specs.Prelude.{◌≡◌, ◌<◌, ◌≤◌, ◌^◌, ◌-◌, ◌+◌, ◌*◌, ◌⊎◌, pos, ◌+ℤ◌, ◌*ℤ◌, nat_abs, IsTrue, List, [], ◌∷◌, length, IfSome, IfOk};
ghost use Rattle.fd_language.specs.declared.range_node.RangeNode.{RangeNode as Spelled};
ghost use Rattle.fd_language.specs.Family.{Family};
ghost use Rattle.fd_language.specs.PostfixRanges.{nodes_of};
ghost use Rattle.fd_language.specs.Range.{Range};
ghost use Rattle.range_code.specs.Frames.{slot_set};
ghost use Rattle.range_code.specs.Nodes.{IsSeen};
ghost use Rattle.range_code.specs.Forms.{end_of as end_of_set, sum_of, total_of, divided as divided_by, leaf_amount, amount, bound_value, shift_value, IsShiftOf, all_but_val, AreNarrow, AreSeen, IsPositive, IsLeaf, IsSigned, IsDivision, IsPart, IsAdded, IsBound, IsInterval, IsComplement, IsEvaluation, IsShifted, other_end, IsOpposite, AreOpposite};

use crate::choice::{Choice, read_choice};
use crate::frame::{Arg, slot_domain};
use crate::spelled_forms::spelled_form;
use domain_ranges::{Domain, View};
use fd_language::{INFINITY, NoMemory, RangeNode};
use std::alloc::Global;

/// One end of a domain.
#[derive(Clone, Copy)]
pub(crate) enum End {
    Least,
    Greatest,
}

/// An integer times one end of the domain in a slot.
#[derive(Clone, Copy)]
pub(crate) struct Product {
    pub weight: i64,
    pub slot: usize,
    pub end: End,
}

/// What a sum is divided by.
#[derive(Clone, Copy)]
pub(crate) enum Division {
    Whole,
    Down(i64),
    Up(i64),
}

/// The sum of a constant and products, divided.
#[derive(Drop)]
pub(crate) struct Bound {
    pub constant: i64,
    pub products: Vec<Product>,
    pub division: Division,
}

/// The sum of a constant and one end of the domain in a slot.
#[derive(Clone, Copy)]
pub(crate) struct Shift {
    pub constant: i64,
    pub slot: usize,
}

/// How a range is evaluated: by its nodes, as the complement of a variable's value, as an interval from a moved least member up to a
/// number or from a number up to a moved greatest member, as any other interval, as one between bounds whose products are opposite, as
/// the complement of an interval or of a single number, by choosing numbers, as the counter of a number in a slot, as what a variable
/// may be whose number is counted in a slot, or as all products or quotients of two slots.
#[derive(Drop)]
pub(crate) enum Evaluation {
    Nodes,
    Differs(usize),
    Above(Shift, i64),
    Below(i64, Shift),
    Between(Bound, Bound),
    Row(Bound, Bound),
    Without(Bound, Bound),
    Except(Bound),
    Chosen(Choice),
    Counter(i64, usize),
    Counted(i64, usize),
    Products(usize, usize),
    Quotients(usize, usize),
    Disjunction(usize, usize),
}

/// A term without operators.
#[derive(Clone, Copy)]
pub(crate) enum Leaf {
    Number(i64),
    Read(usize, End),
}

/// An integer times a leaf.
#[derive(Clone, Copy)]
pub(crate) struct Addend {
    pub weight: i64,
    pub leaf: Leaf,
}

/// The end of the domain, and 0 where it has no member.
#[inline(always)]
pub(crate) fn end_of(domain: &Domain, end: End) -> u32
    ensures value { result ≡ end_of_set domain.now end }
    ensures limit { result ≤ INFINITY }
{
    match end {
        End::Least => domain.least(),
        End::Greatest => domain.greatest(),
    }
}

/// A constant and an end.
#[inline(always)]
pub(crate) fn add_end(constant: i64, end: u32) -> i64
    requires width { nat_abs constant + INFINITY ≤ 2 ^ 63 - 1 }
    requires limit { end ≤ INFINITY }
    ensures { result ≡ constant +ℤ pos end }
{
    constant + end as i64
}

impl Shift {
    /// The least member of the domain, moved.
    #[inline(always)]
    pub(crate) fn least<V: View>(&self, args: &[Arg], view: &V) -> i64
        requires width { nat_abs self.now.constant + INFINITY ≤ 2 ^ 63 - 1 }
        requires seen { IsSeen (length (V.sets view.now)) args.now self.now.slot }
        ensures { result
            ≡ shift_value (slot_set (V.sets view.now) args.now) End.Least self.now }
    {
        let domain = slot_domain(args, self.slot, view);
        add_end(self.constant, end_of(domain, End::Least))
    }

    /// The greatest member of the domain, moved.
    #[inline(always)]
    pub(crate) fn greatest<V: View>(&self, args: &[Arg], view: &V) -> i64
        requires width { nat_abs self.now.constant + INFINITY ≤ 2 ^ 63 - 1 }
        requires seen { IsSeen (length (V.sets view.now)) args.now self.now.slot }
        ensures { result
            ≡ shift_value (slot_set (V.sets view.now) args.now) End.Greatest self.now }
    {
        let domain = slot_domain(args, self.slot, view);
        add_end(self.constant, end_of(domain, End::Greatest))
    }
}

/// One more product.
#[inline(always)]
fn add_product(sum: i64, product: Product, end: u32) -> i64
    requires width { nat_abs sum + nat_abs product.weight * INFINITY ≤ 2 ^ 63 - 1 }
    requires limit { end ≤ INFINITY }
    ensures { result ≡ sum +ℤ product.weight *ℤ pos end }
{
    sum + product.weight * end as i64
}

/// The sum of a constant and products, in 64 bits.
#[inline(always)]
fn sum<V: View>(constant: i64, products: &[Product], args: &[Arg], view: &V) -> i64
    requires width { AreNarrow (nat_abs constant) products.now }
    requires seen { AreSeen (length (V.sets view.now)) args.now products.now }
    ensures value { result
        ≡ constant +ℤ sum_of (slot_set (V.sets view.now) args.now) products.now }
    ensures limit { nat_abs result ≤ 2 ^ 63 - 1 }
{
    let mut sum = constant;
    for product in products {
        let end = end_of(slot_domain(args, product.slot, view), product.end);
        sum = add_product(sum, *product, end);
    }
    sum
}

/// That end of the domain and the other one, and 0 for each where it has no member.
#[inline(always)]
fn both_ends(domain: &Domain, end: End) -> (u32, u32)
    ensures one { result.0 ≡ end_of_set domain.now end }
    ensures other { result.1 ≡ end_of_set domain.now (other_end end) }
    ensures one_limit { result.0 ≤ INFINITY }
    ensures other_limit { result.1 ≤ INFINITY }
{
    match end {
        End::Least => (domain.least(), domain.greatest()),
        End::Greatest => (domain.greatest(), domain.least()),
    }
}

/// The sums of two bounds whose products are opposite, in one pass.
#[inline(always)]
fn both_sums<V: View>(low: &Bound, high: &Bound, args: &[Arg], view: &V) -> (i64, i64)
    requires opposite { AreOpposite low.now.products.items high.now.products.items }
    requires low_width { AreNarrow (nat_abs low.now.constant) low.now.products.items }
    requires high_width { AreNarrow (nat_abs high.now.constant) high.now.products.items }
    requires seen { AreSeen (length (V.sets view.now)) args.now low.now.products.items }
    ensures low { result.0 ≡ total_of (slot_set (V.sets view.now) args.now) low.now }
    ensures high { result.1 ≡ total_of (slot_set (V.sets view.now) args.now) high.now }
    ensures low_limit { nat_abs result.0 ≤ 2 ^ 63 - 1 }
    ensures high_limit { nat_abs result.1 ≤ 2 ^ 63 - 1 }
{
    let mut low_sum = low.constant;
    let mut high_sum = high.constant;
    for product in &low.products {
        let ends = both_ends(slot_domain(args, product.slot, view), product.end);
        low_sum = add_product(low_sum, *product, ends.0);
        high_sum = add_product(high_sum, *product, ends.1);
    }
    (low_sum, high_sum)
}

/// The values of two bounds whose products are opposite, over the domains of a view.
#[inline(always)]
pub(crate) fn both_values<V: View>(low: &Bound, high: &Bound, args: &[Arg], view: &V) -> (i64, i64)
    requires opposite { AreOpposite low.now.products.items high.now.products.items }
    requires low_width { AreNarrow (nat_abs low.now.constant) low.now.products.items }
    requires high_width { AreNarrow (nat_abs high.now.constant) high.now.products.items }
    requires low_division { IsPositive low.now.division }
    requires high_division { IsPositive high.now.division }
    requires seen { AreSeen (length (V.sets view.now)) args.now low.now.products.items }
    ensures low { result.0 ≡ bound_value (slot_set (V.sets view.now) args.now) low.now }
    ensures high { result.1 ≡ bound_value (slot_set (V.sets view.now) args.now) high.now }
{
    let sums = both_sums(low, high, args, view);
    (
        divided(sums.0, low.division),
        divided(sums.1, high.division),
    )
}

/// The sum, divided.
#[inline(always)]
fn divided(sum: i64, division: Division) -> i64
    requires limit { nat_abs sum ≤ 2 ^ 63 - 1 }
    requires positive { IsPositive division }
    ensures { result ≡ divided_by division sum }
{
    match division {
        Division::Whole => sum,
        Division::Down(divisor) => sum.div_euclid(divisor),
        Division::Up(divisor) => -(-sum).div_euclid(divisor),
    }
}

impl Bound {
    /// The value over the domains of a view.
    #[inline(always)]
    pub(crate) fn value<V: View>(&self, args: &[Arg], view: &V) -> i64
        requires width { AreNarrow (nat_abs self.now.constant) self.now.products.items }
        requires division { IsPositive self.now.division }
        requires seen { AreSeen (length (V.sets view.now)) args.now self.now.products.items }
        ensures { result ≡ bound_value (slot_set (V.sets view.now) args.now) self.now }
    {
        divided(
            sum(self.constant, &self.products, args, view),
            self.division,
        )
    }

    /// The sum of nothing.
    fn new(alloc: Global) -> Bound
        ensures value { (S : Family) → total_of S result ≡ pos 0 }
        ensures products { result.products.items ≡ [] }
        ensures division { result.division ≡ Division.Whole }
    {
        Bound {
            constant: 0,
            products: Vec::new(alloc),
            division: Division::Whole,
        }
    }

    /// Adds the product of two integers, where 64 bits hold it.
    fn add_number(&mut self, weight: i64, value: i64) -> bool
        ensures constant { IsTrue result
            → self.new.constant ≡ self.old.constant +ℤ weight *ℤ value }
        ensures products { self.new.products ≡ self.old.products }
        ensures division { self.new.division ≡ self.old.division }
    {
        let Some(product) = weight.checked_mul(value) else {
            return false;
        };
        let Some(constant) = self.constant.checked_add(product) else {
            return false;
        };
        self.constant = constant;
        true
    }

    /// Adds an integer times a leaf, where 64 bits hold the constant.
    fn add(&mut self, addend: Addend) -> Result<bool, NoMemory>
        ensures { IfOk result (λ there. IsTrue there → IsAdded self.old addend self.new) }
    {
        match addend.leaf {
            Leaf::Number(value) => Ok(self.add_number(addend.weight, value)),
            Leaf::Read(slot, end) => {
                self.products.push(Product {
                    weight: addend.weight,
                    slot,
                    end,
                })?;
                Ok(true)
            }
        }
    }

    /// Whether no sum leaves 64 bits.
    fn is_narrow(&self) -> bool
        ensures { IsTrue result
            → AreNarrow (nat_abs self.now.constant) self.now.products.items }
    {
        let mut width = self.constant.unsigned_abs();
        for product in &self.products {
            let weight = product.weight.unsigned_abs();
            width = width.saturating_add(weight.saturating_mul(INFINITY as u64));
        }
        width <= i64::MAX as u64
    }
}

/// The leaf that the node is, where its value needs at most 64 bits and no argument.
fn leaf_of(node: RangeNode) -> Option<Leaf>
    ensures { IfSome result (IsLeaf node) }
{
    match node {
        RangeNode::Int(value) => Some(Leaf::Number(value)),
        RangeNode::Infinity => Some(Leaf::Number(INFINITY as i64)),
        RangeNode::Min(slot) => Some(Leaf::Read(slot as usize, End::Least)),
        RangeNode::Max(slot) => Some(Leaf::Read(slot as usize, End::Greatest)),
        RangeNode::Val(slot) => Some(Leaf::Read(slot as usize, End::Least)),
        _ => None,
    }
}

/// The product of two leaves, one of which is a number.
fn times(a: Leaf, b: Leaf) -> Option<Addend>
    ensures value { IfSome result (λ made. (S : Family)
        → leaf_amount S a *ℤ leaf_amount S b ≡ amount S made) }
    ensures leaf { IfSome result (λ made. (made.leaf ≡ a) ⊎ (made.leaf ≡ b)) }
{
    match (a, b) {
        (Leaf::Number(weight), leaf) => Some(Addend { weight, leaf }),
        (leaf, Leaf::Number(weight)) => Some(Addend { weight, leaf }),
        _ => None,
    }
}

/// What is added where the node adds something or takes it away.
fn signed(addend: Addend, node: RangeNode) -> Option<Addend>
    ensures { IfSome result (IsSigned node addend) }
{
    match node {
        RangeNode::Add => Some(addend),
        RangeNode::Sub => Some(Addend {
            weight: addend.weight.checked_neg()?,
            leaf: addend.leaf,
        }),
        _ => None,
    }
}

fn is_product(node: RangeNode) -> bool
    ensures { IsTrue result → node ≡ RangeNode.Mul }
{
    matches!(node, RangeNode::Mul)
}

pub(crate) fn is_span(node: RangeNode) -> bool
    ensures { IsTrue result → node ≡ RangeNode.Span }
{
    matches!(node, RangeNode::Span)
}

fn is_single(node: RangeNode) -> bool
    ensures { IsTrue result → node ≡ RangeNode.One }
{
    matches!(node, RangeNode::One)
}

fn is_complement(node: RangeNode) -> bool
    ensures { IsTrue result → node ≡ RangeNode.Outside }
{
    matches!(node, RangeNode::Outside)
}

/// A division by 1, which leaves the term whole.
fn undivided(operator: RangeNode) -> Option<Division>
    ensures { IfSome result (IsDivision (RangeNode.Int (pos 1)) operator) }
{
    match operator {
        RangeNode::DivDown => Some(Division::Whole),
        RangeNode::DivUp => Some(Division::Whole),
        _ => None,
    }
}

/// The division by an integer, where the two nodes are one.
fn division_of(divisor: RangeNode, operator: RangeNode) -> Option<Division>
    ensures { IfSome result (IsDivision divisor operator) }
{
    let RangeNode::Int(divisor) = divisor else {
        return None;
    };
    if divisor < 1 {
        return None;
    }
    if divisor == 1 {
        return undivided(operator);
    }
    match operator {
        RangeNode::DivDown => Some(Division::Down(divisor)),
        RangeNode::DivUp => Some(Division::Up(divisor)),
        _ => None,
    }
}

/// What two nodes add to the term before them.
fn addend_of(first: RangeNode, last: RangeNode) -> Option<Addend>
    ensures { IfSome result (λ a. (rest : List Spelled) → IsPart (first ∷ last ∷ rest) a rest) }
{
    let leaf = leaf_of(first)?;
    signed(Addend { weight: 1, leaf }, last)
}

/// The same of four nodes.
fn product_of(
    first: RangeNode,
    second: RangeNode,
    third: RangeNode,
    last: RangeNode,
) -> Option<Addend>
    ensures { IfSome result (λ a. (rest : List Spelled)
        → IsPart (first ∷ second ∷ third ∷ last ∷ rest) a rest) }
{
    if !is_product(third) {
        return None;
    }
    let a = leaf_of(first)?;
    let b = leaf_of(second)?;
    let product = times(a, b)?;
    signed(product, last)
}

/// What the first nodes add to the term before them, and the nodes behind these.
fn next_part(nodes: &[RangeNode]) -> Option<(Addend, &[RangeNode])>
    ensures part { IfSome result (λ found. IsPart nodes.now found.0 found.1.now) }
    ensures fewer { IfSome result (λ found. length found.1.now < length nodes.now) }
{
    if let [first, second, third, last, rest @ ..] = nodes {
        if let Some(addend) = product_of(*first, *second, *third, *last) {
            return Some((addend, rest));
        }
    }
    if let [first, last, rest @ ..] = nodes {
        let addend = addend_of(*first, *last)?;
        return Some((addend, rest));
    }
    None
}

/// The sum that the first nodes are, and the nodes behind them.
fn read_sum(alloc: Global, nodes: &[RangeNode]) -> Result<Option<(Bound, &[RangeNode])>, NoMemory>
    ensures bound { IfOk result (λ o. IfSome o (λ found. IsBound nodes.now found.0 found.1.now)) }
    ensures whole { IfOk result (λ o. IfSome o (λ found. found.0.division ≡ Division.Whole)) }
{
    let [first, rest @ ..] = nodes else {
        return Ok(None);
    };
    let Some(leaf) = leaf_of(*first) else {
        return Ok(None);
    };
    let mut bound = Bound::new(alloc);
    let mut rest = rest;
    if !bound.add(Addend { weight: 1, leaf })? {
        return Ok(None);
    }
    'parts: while let Some((addend, behind)) = next_part(rest) {
        if !bound.add(addend)? {
            return Ok(None);
        }
        rest = behind;
    }
    Ok(Some((bound, rest)))
}

/// The divided sum that the first nodes are, and the nodes behind them.
fn read_bound(alloc: Global, nodes: &[RangeNode]) -> Result<Option<(Bound, &[RangeNode])>, NoMemory>
    ensures bound { IfOk result (λ o. IfSome o (λ found. IsBound nodes.now found.0 found.1.now)) }
    ensures width { IfOk result (λ o. IfSome o (λ found.
        AreNarrow (nat_abs found.0.constant) found.0.products.items)) }
{
    let Some((mut bound, rest)) = read_sum(alloc, nodes)? else {
        return Ok(None);
    };
    if !bound.is_narrow() {
        return Ok(None);
    }
    if let [divisor, operator, behind @ ..] = rest {
        if let Some(division) = division_of(*divisor, *operator) {
            bound.division = division;
            return Ok(Some((bound, behind)));
        }
    }
    Ok(Some((bound, rest)))
}

/// The slot whose value alone is left out, where the nodes say so.
fn differing_slot(nodes: &[RangeNode]) -> Option<usize>
    ensures { IfSome result (λ slot. nodes.now ≡ nodes_of (all_but_val slot)) }
{
    let [value, single, last] = nodes else {
        return None;
    };
    if !is_single(*single) || !is_complement(*last) {
        return None;
    }
    let RangeNode::Val(slot) = value else {
        return None;
    };
    Some(*slot as usize)
}

/// The form of the range that the nodes spell. It is a moved end only where nothing is read by val.
pub(crate) fn form_of(
    alloc: Global,
    nodes: &[RangeNode],
    no_val: bool,
) -> Result<Evaluation, NoMemory>
    ensures form { IfOk result
        (λ form. (r : Range) → nodes.now ≡ nodes_of r → IsEvaluation r form) }
    ensures shifted { IfOk result (λ form. IsShifted form → IsTrue no_val) }
{
    if let Some(slot) = differing_slot(nodes) {
        return Ok(Evaluation::Differs(slot));
    }
    if let Some(form) = spelled_form(nodes) {
        return Ok(form);
    }
    match read_choice(alloc, nodes)? {
        Some(choice) => Ok(Evaluation::Chosen(choice)),
        None => sums_form(alloc, nodes, no_val),
    }
}

/// Its form where it is made of sums.
fn sums_form(alloc: Global, nodes: &[RangeNode], no_val: bool) -> Result<Evaluation, NoMemory>
    ensures form { IfOk result
        (λ form. (r : Range) → nodes.now ≡ nodes_of r → IsEvaluation r form) }
    ensures shifted { IfOk result (λ form. IsShifted form → IsTrue no_val) }
{
    let Some((low, rest)) = read_bound(alloc, nodes)? else {
        return Ok(Evaluation::Nodes);
    };
    if let [single, last] = rest {
        if is_single(*single) && is_complement(*last) {
            return Ok(Evaluation::Except(low));
        }
    }
    let Some((high, rest)) = read_bound(alloc, rest)? else {
        return Ok(Evaluation::Nodes);
    };
    match rest {
        [last] if is_span(*last) => Ok(between_form(low, high, no_val)),
        [span, last] if is_span(*span) && is_complement(*last) => Ok(outside_form(low, high)),
        _ => Ok(Evaluation::Nodes),
    }
}

/// Whether the ends are the same.
pub(crate) fn is_same_end(a: End, b: End) -> bool
    ensures { IsTrue result → a ≡ b }
{
    match (a, b) {
        (End::Least, End::Least) => true,
        (End::Greatest, End::Greatest) => true,
        _ => false,
    }
}

/// Whether the products are the same.
fn is_same_product(a: Product, b: Product) -> bool
    ensures { IsTrue result → a ≡ b }
{
    a.weight == b.weight && a.slot == b.slot && is_same_end(a.end, b.end)
}

/// Whether the lists of products are the same.
fn are_same_products(a: &[Product], b: &[Product]) -> bool
    ensures { IsTrue result → a.now ≡ b.now }
{
    if a.len() != b.len() {
        return false;
    }
    for (i, product) in a.iter().enumerate() {
        if !is_same_product(*product, b[i]) {
            return false;
        }
    }
    true
}

/// Whether the second end is the other one.
fn is_other_end(a: End, b: End) -> bool
    ensures { IsTrue result → b ≡ other_end a }
{
    match (a, b) {
        (End::Least, End::Greatest) => true,
        (End::Greatest, End::Least) => true,
        _ => false,
    }
}

/// Whether the products differ in their ends alone.
fn is_opposite(a: Product, b: Product) -> bool
    ensures { IsTrue result → IsOpposite a b }
{
    a.weight == b.weight && a.slot == b.slot && is_other_end(a.end, b.end)
}

/// Whether each two products at one place differ in their ends alone.
fn are_opposite(a: &[Product], b: &[Product]) -> bool
    ensures { IsTrue result → AreOpposite a.now b.now }
{
    if a.len() != b.len() {
        return false;
    }
    for (i, product) in a.iter().enumerate() {
        if !is_opposite(*product, b[i]) {
            return false;
        }
    }
    true
}

pub(crate) fn is_whole(division: Division) -> bool
    ensures { IsTrue result → division ≡ Division.Whole }
{
    matches!(division, Division::Whole)
}

/// The number that a bound is, where it reads nothing and isn't divided.
pub(crate) fn number_of(bound: &Bound) -> Option<i64>
    ensures { IfSome result (λ z. (S : Family) → bound_value S bound.now ≡ z) }
{
    if !is_whole(bound.division) {
        return None;
    }
    if !bound.products.is_empty() {
        return None;
    }
    Some(bound.constant)
}

/// The moved end that a bound is, where it reads that one alone and isn't divided.
pub(crate) fn shift_of(bound: &Bound, end: End) -> Option<Shift>
    ensures { IfSome result (IsShiftOf bound.now end) }
{
    if !is_whole(bound.division) {
        return None;
    }
    let [only] = bound.products.as_slice() else {
        return None;
    };
    if only.weight != 1 || !is_same_end(only.end, end) {
        return None;
    }
    Some(Shift {
        constant: bound.constant,
        slot: only.slot,
    })
}

/// The form of the interval between two bounds, where one is a number and the other a moved end.
fn shifted_form(low: &Bound, high: &Bound) -> Option<Evaluation>
    ensures { IfSome result (λ form. (r : Range) → IsInterval r low.now high.now
        → IsEvaluation r form) }
{
    if let Some(number) = number_of(high) {
        let shift = shift_of(low, End::Least)?;
        return Some(Evaluation::Above(shift, number));
    }
    let number = number_of(low)?;
    let shift = shift_of(high, End::Greatest)?;
    Some(Evaluation::Below(number, shift))
}

/// The form of the interval between two bounds: where their products are opposite, one pass gives both.
fn between_form(low: Bound, high: Bound, no_val: bool) -> Evaluation
    ensures form { (r : Range) → IsInterval r low high → IsEvaluation r result }
    ensures shifted { IsShifted result → IsTrue no_val }
{
    if no_val {
        if let Some(form) = shifted_form(&low, &high) {
            return form;
        }
    }
    if are_opposite(&low.products, &high.products) {
        Evaluation::Row(low, high)
    } else {
        Evaluation::Between(low, high)
    }
}

/// Whether the bounds are one undivided sum.
fn is_one_sum(a: &Bound, b: &Bound) -> bool
    ensures { IsTrue result → (S : Family) → bound_value S a.now ≡ bound_value S b.now }
{
    a.constant == b.constant
        && is_whole(a.division)
        && is_whole(b.division)
        && are_same_products(&a.products, &b.products)
}

/// The form of the complement of the interval between two bounds: where they are one sum, a single number is left out.
fn outside_form(low: Bound, high: Bound) -> Evaluation
    ensures form { (r : Range) → IsComplement r low high → IsEvaluation r result }
    ensures unshifted { IsShifted result → ⊥ }
{
    if is_one_sum(&low, &high) {
        Evaluation::Except(low)
    } else {
        Evaluation::Without(low, high)
    }
}
