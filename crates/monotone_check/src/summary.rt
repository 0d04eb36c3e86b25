//! What is kept of a term and of a range while the nodes above it are still to come.

ghost use Rattle.std.specs.Prelude.{◌≡◌, ℕ, ◌+◌, ◌-◌, ◌*◌, ◌^◌, ◌≤◌, ◌<◌, min, max, ℤ, FitsSigned, true, false, Option, Some, None, IfSome, pos, int_le, nat_abs};
ghost use Rattle.std.specs.Int.{w128};
ghost use Rattle.fd_language.specs.Check.{Wish};
ghost use Rattle.fd_language.specs.RangeVerdict.{first, where_below_zero, where_too_wide, over_limit, unless_divides, scaled};
ghost use Rattle.monotone_check.specs.Wishes.{by_wish};
ghost use Rattle.monotone_check.specs.Summary.{capped, operator_bound, operator_literal, product_first, quotient_first, operands_first, kept, pointwise_over, pointwise_first, IsLeaf, IsOperated, IsSpan, IsSingle, IsDomain, IsCombined, IsComplement, IsPointwise};

use crate::offences::{Wishes, earlier};
use fd_language::{INFINITY, Offence, RangeNode};

/// The greatest magnitude that a value may have is one less.
const OVER_LIMIT: u128 = 1 << 126;

/// The greatest magnitude of the factor in a pointwise product or quotient.
const FACTOR_LIMIT: u128 = 1 << 98;

/// What is kept of a term. The offences are those where it may be any integer, and those where it has to be natural.
#[derive(Clone, Copy)]
pub(crate) struct TermCheck {
    pub place: usize,
    pub bound: u128,
    pub wide: Option<Offence>,
    pub literal: Option<i128>,
    pub parameter: bool,
    pub plain: Wishes,
    pub natural: Wishes,
}

/// What is kept of a range: the first node over the limit, and the first offence where it is to shrink, and to grow.
#[derive(Clone, Copy)]
pub(crate) struct RangeCheck {
    pub wide: Option<Offence>,
    pub shrinking: Option<Offence>,
    pub growing: Option<Offence>,
}

fn too_wide(bound: u128, place: usize) -> Option<Offence>
    ensures { (n : ℕ) → bound ≡ capped n → result ≡ first (where_too_wide (over_limit n) place) }
{
    if bound >= OVER_LIMIT {
        Some(Offence::TooWide(place))
    } else {
        None
    }
}

fn below_zero(value: i128, place: usize) -> Option<Offence>
    ensures { result ≡ first (where_below_zero true value place) }
{
    if value < 0 {
        Some(Offence::NotNatural(place))
    } else {
        None
    }
}

fn bad_divisor(value: i128, place: usize) -> Option<Offence>
    ensures { result ≡ first (unless_divides (int_le (pos 1) value) place) }
{
    if value >= 1 {
        None
    } else {
        Some(Offence::BadDivisor(place))
    }
}

/// The wishes for a term that is multiplied by the literal.
fn scaled_by(wishes: Wishes, factor: i128) -> Wishes
    ensures { (w : Wish) → by_wish result w ≡ by_wish wishes (scaled factor w) }
{
    if factor < 0 { wishes.turned() } else { wishes }
}

fn sum_bound(a: u128, b: u128) -> u128
    ensures { (x y : ℕ) → a ≡ capped x → b ≡ capped y → result ≡ capped (x + y) }
{
    a.saturating_add(b).min(OVER_LIMIT)
}

fn product_bound(a: u128, b: u128) -> u128
    ensures { (x y : ℕ) → a ≡ capped x → b ≡ capped y → result ≡ capped (x * y) }
{
    a.saturating_mul(b).min(OVER_LIMIT)
}

fn quotient_bound(a: u128) -> u128
    ensures { (x : ℕ) → a ≡ capped x → result ≡ capped (max x INFINITY) }
{
    a.max(INFINITY as u128).min(OVER_LIMIT)
}

fn bound_of(node: RangeNode, a: u128, b: u128) -> u128
    ensures { (x y : ℕ) → a ≡ capped x → b ≡ capped y → result
        ≡ capped (operator_bound INFINITY node x y) }
{
    match node {
        RangeNode::Add | RangeNode::Sub => sum_bound(a, b),
        RangeNode::Mul => product_bound(a, b),
        _ => quotient_bound(a),
    }
}

fn literal_of(node: RangeNode, a: Option<i128>, b: Option<i128>) -> Option<i128>
    ensures some { IfSome (operator_literal node a b) (λ z. FitsSigned w128 z → result ≡ Some z) }
    ensures none { operator_literal node a b ≡ None → result ≡ None }
{
    match (node, a, b) {
        (RangeNode::Add, Some(x), Some(y)) => x.checked_add(y),
        (RangeNode::Sub, Some(x), Some(y)) => x.checked_sub(y),
        (RangeNode::Mul, Some(x), Some(y)) => x.checked_mul(y),
        _ => None,
    }
}

/// The wishes for the operands of a product.
fn product_wishes(a: TermCheck, b: TermCheck) -> (Wishes, Wishes)
    ensures plain { (w : Wish) → by_wish result.0 w ≡ product_first a.literal b.literal a b w
        false }
    ensures natural { (w : Wish) → by_wish result.1 w ≡ product_first a.literal b.literal a b w
        true }
{
    match (a.literal, b.literal) {
        (Some(factor), _) => (
            a.plain.and(scaled_by(b.plain, factor)),
            a.natural.and(scaled_by(b.natural, factor)),
        ),
        (_, Some(factor)) => (
            scaled_by(a.plain, factor).and(b.plain),
            scaled_by(a.natural, factor).and(b.natural),
        ),
        _ => {
            let both = a.natural.and(b.natural);
            (both, both)
        }
    }
}

/// The wishes for the operands of a quotient.
fn quotient_wishes(a: TermCheck, b: TermCheck) -> (Wishes, Wishes)
    ensures plain { (w : Wish) → by_wish result.0 w ≡ quotient_first b.literal a b w false }
    ensures natural { (w : Wish) → by_wish result.1 w ≡ quotient_first b.literal a b w true }
{
    match b.literal {
        Some(divisor) => {
            let bad = Wishes::all(bad_divisor(divisor, b.place));
            (a.plain.and(bad), a.natural.and(bad))
        }
        None if b.parameter => (a.plain, a.natural),
        None => {
            let both = a.natural.and(b.natural.turned());
            (both, both)
        }
    }
}

/// The first offences in the operands, and of a difference its own. The first are those where the term may be any integer.
fn operand_wishes(node: RangeNode, a: TermCheck, b: TermCheck, place: usize) -> (Wishes, Wishes)
    ensures plain { (w : Wish) → by_wish result.0 w ≡ operands_first node a b place w false }
    ensures natural { (w : Wish) → by_wish result.1 w ≡ operands_first node a b place w true }
{
    match node {
        RangeNode::Add => (a.plain.and(b.plain), a.natural.and(b.natural)),
        RangeNode::Sub => {
            let here = Wishes::all(Some(Offence::NotNatural(place)));
            (
                a.plain.and(b.plain.turned()),
                a.natural.and(b.natural.turned()).and(here),
            )
        }
        RangeNode::Mul => product_wishes(a, b),
        _ => quotient_wishes(a, b),
    }
}

/// The term of an operator with two terms.
pub(crate) fn operate(node: RangeNode, a: TermCheck, b: TermCheck, place: usize) -> TermCheck
    ensures { IsOperated INFINITY node a b place result }
{
    let bound = bound_of(node, a.bound, b.bound);
    let wide = earlier(earlier(a.wide, b.wide), too_wide(bound, place));
    let literal = literal_of(node, a.literal, b.literal);
    let (plain, natural) = match literal {
        Some(value) => (Wishes::all(None), Wishes::all(below_zero(value, place))),
        None => operand_wishes(node, a, b, place),
    };
    TermCheck {
        place,
        bound,
        wide,
        literal,
        parameter: false,
        plain,
        natural,
    }
}

/// What is kept of a term that offends nowhere and is no literal.
fn plain_leaf(bound: u128, parameter: bool, place: usize) -> TermCheck
    requires { bound < 2 ^ 126 }
    ensures place { result.place ≡ place }
    ensures size { result.bound ≡ bound }
    ensures wide { result.wide ≡ None }
    ensures literal { result.literal ≡ None }
    ensures parameter { result.parameter ≡ parameter }
    ensures plain { (w : Wish) → by_wish result.plain w ≡ None }
    ensures natural { (w : Wish) → by_wish result.natural w ≡ None }
{
    TermCheck {
        place,
        bound,
        wide: None,
        literal: None,
        parameter,
        plain: Wishes::all(None),
        natural: Wishes::all(None),
    }
}

/// An integer, or the value of `infinity`.
fn literal_leaf(value: i128, place: usize) -> TermCheck
    ensures place { result.place ≡ place }
    ensures size { result.bound ≡ min (nat_abs value) (2 ^ 126) }
    ensures wide { result.wide ≡ first (where_too_wide (over_limit (nat_abs value)) place) }
    ensures literal { result.literal ≡ Some value }
    ensures parameter { result.parameter ≡ false }
    ensures plain { (w : Wish) → by_wish result.plain w ≡ None }
    ensures natural { (w : Wish) → by_wish result.natural w
        ≡ first (where_below_zero true value place) }
{
    let bound = value.unsigned_abs().min(OVER_LIMIT);
    TermCheck {
        place,
        bound,
        wide: too_wide(bound, place),
        literal: Some(value),
        parameter: false,
        plain: Wishes::all(None),
        natural: Wishes::all(below_zero(value, place)),
    }
}

/// A least or greatest value, which fits one wish alone.
fn bound_leaf(wishes: Wishes, place: usize) -> TermCheck
    ensures place { result.place ≡ place }
    ensures size { result.bound ≡ capped INFINITY }
    ensures wide { result.wide ≡ first (where_too_wide (over_limit INFINITY) place) }
    ensures literal { result.literal ≡ None }
    ensures parameter { result.parameter ≡ false }
    ensures plain { result.plain ≡ wishes }
    ensures natural { result.natural ≡ wishes }
{
    let bound = INFINITY as u128;
    TermCheck {
        place,
        bound,
        wide: too_wide(bound, place),
        literal: None,
        parameter: false,
        plain: wishes,
        natural: wishes,
    }
}

/// The term of a node without operands.
pub(crate) fn leaf(node: RangeNode, place: usize) -> TermCheck
    ensures { IsLeaf INFINITY node place result }
{
    let offence = Some(Offence::NotMonotone(place));
    match node {
        RangeNode::Int(value) => literal_leaf(value as i128, place),
        RangeNode::Infinity => literal_leaf(INFINITY as i128, place),
        RangeNode::Param(_) => plain_leaf(i64::MAX as u128, true, place),
        RangeNode::Min(_) => bound_leaf(
            Wishes {
                rising: None,
                falling: offence,
                constant: offence,
            },
            place,
        ),
        RangeNode::Max(_) => bound_leaf(
            Wishes {
                rising: offence,
                falling: None,
                constant: offence,
            },
            place,
        ),
        RangeNode::Val(_) => plain_leaf(INFINITY as u128, false, place),
        _ => literal_leaf(0, place),
    }
}

/// The interval of two terms.
pub(crate) fn span(a: TermCheck, b: TermCheck) -> RangeCheck
    ensures { IsSpan a b result }
{
    RangeCheck {
        wide: earlier(a.wide, b.wide),
        shrinking: earlier(a.plain.rising, b.plain.falling),
        growing: earlier(a.plain.falling, b.plain.rising),
    }
}

/// The set of one term.
pub(crate) fn single(a: TermCheck) -> RangeCheck
    ensures { IsSingle a result }
{
    RangeCheck {
        wide: a.wide,
        shrinking: a.plain.constant,
        growing: a.plain.constant,
    }
}

/// A whole domain, which only shrinks.
pub(crate) fn domain(place: usize) -> RangeCheck
    ensures { IsDomain place result }
{
    RangeCheck {
        wide: None,
        shrinking: None,
        growing: Some(Offence::NotMonotone(place)),
    }
}

/// The union or the intersection of two ranges.
pub(crate) fn combined(r: RangeCheck, q: RangeCheck) -> RangeCheck
    ensures { IsCombined r q result }
{
    RangeCheck {
        wide: earlier(r.wide, q.wide),
        shrinking: earlier(r.shrinking, q.shrinking),
        growing: earlier(r.growing, q.growing),
    }
}

/// The complement of a range.
pub(crate) fn complement(r: RangeCheck) -> RangeCheck
    ensures { IsComplement r result }
{
    RangeCheck {
        wide: r.wide,
        shrinking: r.growing,
        growing: r.shrinking,
    }
}

fn pointwise_too_wide(node: RangeNode, bound: u128) -> bool
    ensures { (n : ℕ) → bound ≡ capped n → result ≡ pointwise_over INFINITY node n }
{
    let greatest = INFINITY as u128;
    match node {
        RangeNode::Plus | RangeNode::Minus => bound.saturating_add(greatest) >= OVER_LIMIT,
        _ => bound > FACTOR_LIMIT || bound.saturating_mul(greatest) >= OVER_LIMIT,
    }
}

fn pointwise_offence(node: RangeNode, c: TermCheck) -> Option<Offence>
    ensures { result ≡ pointwise_first node c }
{
    match (node, c.literal) {
        (RangeNode::Over, Some(value)) => bad_divisor(value, c.place),
        (RangeNode::Over, None) if c.parameter => None,
        (RangeNode::Over, None) => Some(Offence::BadDivisor(c.place)),
        _ => c.plain.constant,
    }
}

/// The pointwise sum, difference, product or quotient of a range and a term.
pub(crate) fn pointwise(node: RangeNode, r: RangeCheck, c: TermCheck, place: usize) -> RangeCheck
    ensures { IsPointwise INFINITY node r c place result }
{
    let here = if pointwise_too_wide(node, c.bound) {
        Some(Offence::TooWide(place))
    } else {
        None
    };
    let offence = pointwise_offence(node, c);
    RangeCheck {
        wide: earlier(earlier(r.wide, c.wide), here),
        shrinking: earlier(r.shrinking, offence),
        growing: earlier(r.growing, offence),
    }
}
