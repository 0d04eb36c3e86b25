//! Ranges whose numbers are chosen: each number has a key, and is there where the key is in a domain.

ghost use Rattle.std.specs.Prelude.{◌≡◌, ◌<◌, ◌≤◌, [], ◌∷◌, ℕ, pos, IsTrue, length, IfSome, IfNone, IfOk, OnOk};
ghost use Rattle.std.specs.List.{All};
ghost use Rattle.domain_ranges.specs.Spans.{within, IsSpans};
ghost use Rattle.fd_language.specs.Family.{has};
ghost use Rattle.fd_language.specs.PostfixRanges.{nodes_of, range_nodes};
ghost use Rattle.fd_language.specs.Range.{Range};
ghost use Rattle.range_code.specs.Choices.{part_range, left_chosen, IsPairAdded, AreRising, IsChoice, IsFromNumber};

use domain_ranges::{Domain, SetStack};
use fd_language::{INFINITY, NoMemory, RangeNode};
use std::alloc::Global;

/// Pairs of a key and a number, the numbers in rising order. Those are chosen whose keys are in the domain in the slot.
#[derive(Drop)]
pub(crate) struct Choice {
    pub slot: usize,
    pub pairs: Vec<(u32, u32)>,
}

/// A number that is there where its key is in the domain in the slot.
#[derive(Clone, Copy)]
pub(crate) struct Part {
    pub key: i64,
    pub slot: usize,
    pub number: i64,
}

/// Whether the nodes are the operators of a part.
fn are_operators(
    one: RangeNode,
    inter: RangeNode,
    zero: RangeNode,
    times: RangeNode,
    plus: RangeNode,
) -> bool
    ensures one { IsTrue result → one ≡ RangeNode.One }
    ensures inter { IsTrue result → inter ≡ RangeNode.Inter }
    ensures zero { IsTrue result → zero ≡ RangeNode.Int (pos 0) }
    ensures times { IsTrue result → times ≡ RangeNode.Times }
    ensures plus { IsTrue result → plus ≡ RangeNode.Plus }
{
    matches!(one, RangeNode::One)
        && matches!(inter, RangeNode::Inter)
        && matches!(zero, RangeNode::Int(0))
        && matches!(times, RangeNode::Times)
        && matches!(plus, RangeNode::Plus)
}

/// The part with this key, this domain and this number.
fn part_of(key: RangeNode, dom: RangeNode, number: RangeNode) -> Option<Part>
    ensures key { IfSome result (λ part. key ≡ RangeNode.Int part.key) }
    ensures dom { IfSome result (λ part. dom ≡ RangeNode.Dom part.slot) }
    ensures number { IfSome result (λ part. number ≡ RangeNode.Int part.number) }
{
    match (key, dom, number) {
        (RangeNode::Int(key), RangeNode::Dom(slot), RangeNode::Int(number)) => Some(Part {
            key,
            slot: slot as usize,
            number,
        }),
        _ => None,
    }
}

/// The part that the first nodes are, and the nodes behind them.
fn next_part(nodes: &[RangeNode]) -> Option<(Part, &[RangeNode])>
    ensures { IfSome result (λ found.
        nodes.now ≡ range_nodes (part_range found.0) found.1.now) }
{
    let [key, one, dom, inter, zero, times, number, plus, rest @ ..] = nodes else {
        return None;
    };
    if !are_operators(*one, *inter, *zero, *times, *plus) {
        return None;
    }
    let part = part_of(*key, *dom, *number)?;
    Some((part, rest))
}

fn is_union(node: RangeNode) -> bool
    ensures { IsTrue result → node ≡ RangeNode.Union }
{
    matches!(node, RangeNode::Union)
}

/// The part that the first nodes join to what is before them, and the nodes behind these.
fn next_joined(nodes: &[RangeNode]) -> Option<(Part, &[RangeNode])>
    ensures part { IfSome result (λ found.
        nodes.now ≡ range_nodes (part_range found.0) (RangeNode.Union ∷ found.1.now)) }
    ensures fewer { IfSome result (λ found. length found.1.now < length nodes.now) }
{
    let (part, behind) = next_part(nodes)?;
    match behind {
        [union, rest @ ..] if is_union(*union) => Some((part, rest)),
        _ => None,
    }
}

/// The key and the number of a part, where both are in 0 to `INFINITY`.
fn pair_of(part: Part) -> Option<(u32, u32)>
    ensures key { IfSome result (λ pair. part.key ≡ pos pair.0) }
    ensures number { IfSome result (λ pair. part.number ≡ pos pair.1) }
    ensures key_high { IfSome result (λ pair. pair.0 ≤ INFINITY) }
    ensures number_high { IfSome result (λ pair. pair.1 ≤ INFINITY) }
    ensures none { IfNone result ((k n : ℕ)
        → k ≤ INFINITY → n ≤ INFINITY → part.key ≡ pos k → part.number ≡ pos n → ⊥) }
{
    let high = INFINITY as i64;
    if part.key < 0 || part.key > high || part.number < 0 || part.number > high {
        return None;
    }
    Some((part.key as u32, part.number as u32))
}

/// Adds the pair of a part, where it may be chosen.
fn add_pair(pairs: &mut Vec<(u32, u32)>, part: Part) -> Result<(), NoMemory>
    ensures { OnOk result (IsPairAdded part pairs.old.items pairs.new.items) }
{
    if let Some(pair) = pair_of(part) {
        pairs.push(pair)?;
    }
    Ok(())
}

/// The choice that the nodes of a range are.
pub(crate) fn read_choice(alloc: Global, nodes: &[RangeNode]) -> Result<Option<Choice>, NoMemory>
    ensures { IfOk result (λ o. IfSome o (λ choice.
        (r : Range) → nodes.now ≡ nodes_of r → IsChoice r choice)) }
{
    let Some((first, rest)) = next_part(nodes) else {
        return Ok(None);
    };
    let slot = first.slot;
    let mut pairs = Vec::new(alloc);
    add_pair(&mut pairs, first)?;
    let mut rest = rest;
    'parts: while let Some((part, behind)) = next_joined(rest) {
        if part.slot != slot {
            return Ok(None);
        }
        add_pair(&mut pairs, part)?;
        rest = behind;
    }
    if !rest.is_empty() {
        return Ok(None);
    }
    pairs.sort_unstable_by_key(|pair| pair.1);
    Ok(Some(Choice { slot, pairs }))
}

/// Whether the key is in the domain.
#[inline(always)]
fn is_key(key: u32, keys: &Domain) -> bool
    ensures { result ≡ has keys.now key }
{
    match keys.spans() {
        [only] => only.0 <= key && key <= only.1,
        _ => keys.contains(key as i128),
    }
}

/// The intervals from the first one on that doesn't end below the number.
#[inline(always)]
fn spans_from(spans: &[(u32, u32)], number: u32) -> &[(u32, u32)]
    requires { IsSpans 0 INFINITY spans.now }
    ensures spans { IsSpans 0 INFINITY result.now }
    ensures same { (n : ℕ) → number ≤ n → within result.now n ≡ within spans.now n }
    ensures first { IsFromNumber number result.now }
{
    let mut rest = spans;
    'skipping: while let [first, behind @ ..] = rest {
        if number <= first.1 {
            return rest;
        }
        rest = behind;
    }
    rest
}

/// Whether the number is in the intervals, the first of which doesn't end below it.
#[inline(always)]
fn is_in_first(spans: &[(u32, u32)], number: u32) -> bool
    requires spans { IsSpans 0 INFINITY spans.now }
    requires first { IsFromNumber number spans.now }
    ensures { result ≡ within spans.now number }
{
    match spans {
        [] => false,
        [first, ..] => first.0 <= number,
    }
}

/// Puts the members of the target that are chosen into the set on top, which is empty. How many they are.
pub(crate) fn gather(
    sets: &mut SetStack,
    pairs: &[(u32, u32)],
    keys: &Domain,
    target: &Domain,
) -> Result<u32, NoMemory>
    requires high { All (λ pair. pair.1 ≤ INFINITY) pairs.now }
    requires rising { AreRising pairs.now }
    requires top { sets.old.sets ≡ [] ∷ [] }
    ensures gathered { OnOk result
        (sets.new.sets ≡ left_chosen target.now keys.now pairs.now ∷ []) }
    ensures count { IfOk result (λ n. n ≡ length (left_chosen target.now keys.now pairs.now)) }
    ensures room { sets.new.room ≡ sets.old.room }
{
    let mut rest = target.spans();
    let mut from = 0;
    let mut count = 0;
    for pair in pairs {
        rest = spans_from(rest, pair.1);
        if from <= pair.1 && is_in_first(rest, pair.1) && is_key(pair.0, keys) {
            sets.add(pair.1)?;
            from = pair.1 + 1;
            count += 1;
        }
    }
    Ok(count)
}
