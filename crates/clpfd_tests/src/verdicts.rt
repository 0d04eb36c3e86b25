//! Ranges with their verdicts, as the rules of the check give them.

use crate::assertions::same;
use fd_language::{FlatRange, Need, RangeNode};
use monotone_check::{CheckFault, Checked, check, needs};
use std::alloc::{AllocError, Global};
use std::test::Fail;

fn leaf_of(kind: &str, number: i64) -> Option<RangeNode> {
    let variable = number.unsigned_abs();
    match kind {
        "int" => Some(RangeNode::Int(number)),
        "inf" => Some(RangeNode::Infinity),
        "param" => Some(RangeNode::Param(variable)),
        "min" => Some(RangeNode::Min(variable)),
        "max" => Some(RangeNode::Max(variable)),
        "val" => Some(RangeNode::Val(variable)),
        "dom" => Some(RangeNode::Dom(variable)),
        _ => None,
    }
}

fn operator_of(kind: &str) -> Option<RangeNode> {
    match kind {
        "add" => Some(RangeNode::Add),
        "sub" => Some(RangeNode::Sub),
        "mul" => Some(RangeNode::Mul),
        "divdown" => Some(RangeNode::DivDown),
        "divup" => Some(RangeNode::DivUp),
        "span" => Some(RangeNode::Span),
        "one" => Some(RangeNode::One),
        "union" => Some(RangeNode::Union),
        "inter" => Some(RangeNode::Inter),
        "outside" => Some(RangeNode::Outside),
        "plus" => Some(RangeNode::Plus),
        "minus" => Some(RangeNode::Minus),
        "times" => Some(RangeNode::Times),
        "over" => Some(RangeNode::Over),
        _ => None,
    }
}

/// The node and the place of a token `kind:number:place`.
fn node_at(token: &str) -> Option<(RangeNode, usize)> {
    let (kind, rest) = token.split_once(':')?;
    let (number, place) = rest.split_once(':')?;
    let node = leaf_of(kind, number.parse().ok()?).or(operator_of(kind))?;
    Some((node, place.parse().ok()?))
}

/// Puts the node and the place of a token behind the others.
fn push_node(token: &str, nodes: &mut Vec<RangeNode>, places: &mut Vec<usize>) -> Result<(), Fail> {
    let Some((node, place)) = node_at(token) else {
        return Err(Fail::new("no node"));
    };
    nodes.push(node)?;
    places.push(place)?;
    Ok(())
}

/// The range that the tokens spell, and the places of its nodes.
fn spelled(alloc: Global, spelling: &str) -> Result<(FlatRange, Vec<usize>), Fail> {
    let mut nodes = Vec::new(alloc);
    let mut places = Vec::new(alloc);
    for token in spelling.split(' ') {
        push_node(token, &mut nodes, &mut places)?;
    }
    match FlatRange::from_nodes(nodes) {
        Some(range) => Ok((range, places)),
        None => Err(Fail::new("no range")),
    }
}

/// What the check finds of the range that the tokens spell.
fn found_of(alloc: Global, spelling: &str) -> Result<Result<Checked, CheckFault>, Fail> {
    let (range, places) = spelled(alloc, spelling)?;
    if places.len() == range.nodes().len() {
        Ok(check(alloc, range, &places))
    } else {
        Err(Fail::new("no place for each node"))
    }
}

fn cause_and_place(fault: CheckFault) -> (&'static str, usize) {
    match fault {
        CheckFault::NotMonotone { place } => ("not monotone", place),
        CheckFault::NotNatural { place } => ("not natural", place),
        CheckFault::BadDivisor { place } => ("bad divisor", place),
        CheckFault::TooWide { place } => ("too wide", place),
        CheckFault::NoMemory => ("out of memory", 0),
    }
}

/// What the check of a range is told to have found.
pub(crate) fn told(
    alloc: Global,
    checked: Result<Checked, CheckFault>,
) -> Result<String, AllocError> {
    match checked {
        Ok(_) => String::from_str(alloc, "accepted"),
        Err(fault) => {
            let (cause, place) = cause_and_place(fault);
            format!(in alloc; "{cause} {place}")
        }
    }
}

fn verdict_of(alloc: Global, spelling: &str) -> Result<String, Fail> {
    Ok(told(alloc, found_of(alloc, spelling)?)?)
}

/// A range's text, its nodes in postfix order with their places, and what the check says of it.
const ROWS: &str = "\
1..3 | int:1:0 int:3:3 span:0:1 | accepted\n\
{5} | int:5:1 one:0:0 | accepted\n\
dom(Y) | dom:0:0 | accepted\n\
min(Y)+1..infinity | min:0:0 int:1:7 add:0:6 inf:0:10 span:0:8 | accepted\n\
0..max(X)-1 | int:0:0 max:0:3 int:1:10 sub:0:9 span:0:1 | accepted\n\
-{2} | int:2:2 one:0:1 outside:0:0 | accepted\n\
-dom(Y) | dom:0:1 outside:0:0 | not monotone 1\n\
max(Y)..9 | max:0:0 int:9:8 span:0:6 | not monotone 0\n\
0..min(Y) | int:0:0 min:0:3 span:0:1 | not monotone 3\n\
-(min(Y)..9) | min:0:2 int:9:10 span:0:8 outside:0:0 | not monotone 2\n\
-(0..max(Y)) | int:0:2 max:0:5 span:0:3 outside:0:0 | not monotone 5\n\
-(max(Y)..min(Z)) | max:0:2 min:1:10 span:0:8 outside:0:0 | accepted\n\
-(-dom(Y)) | dom:0:3 outside:0:2 outside:0:0 | accepted\n\
{min(Y)} | min:0:1 one:0:0 | not monotone 1\n\
{max(Y)+1} | max:0:1 int:1:8 add:0:7 one:0:0 | not monotone 1\n\
{val(Y)+P} | val:0:1 param:1:8 add:0:7 one:0:0 | accepted\n\
1..3:dom(Y) | int:1:0 int:3:3 span:0:1 dom:0:5 union:0:4 | accepted\n\
1..3& -dom(Y) | int:1:0 int:3:3 span:0:1 dom:0:7 outside:0:6 inter:0:4 | not monotone 7\n\
0-max(Y)..9 | int:0:0 max:0:2 sub:0:1 int:9:10 span:0:8 | accepted\n\
0-min(Y)..9 | int:0:0 min:0:2 sub:0:1 int:9:10 span:0:8 | not monotone 2\n\
0..9-min(Y) | int:0:0 int:9:3 min:0:5 sub:0:4 span:0:1 | accepted\n\
0..9-max(Y) | int:0:0 int:9:3 max:0:5 sub:0:4 span:0:1 | not monotone 5\n\
2*min(Y)..9 | int:2:0 min:0:2 mul:0:1 int:9:10 span:0:8 | accepted\n\
-2*max(Y)..9 | int:-2:0 max:0:3 mul:0:2 int:9:11 span:0:9 | accepted\n\
-2*min(Y)..9 | int:-2:0 min:0:3 mul:0:2 int:9:11 span:0:9 | not monotone 3\n\
max(Y)* -2..9 | max:0:0 int:-2:8 mul:0:6 int:9:12 span:0:10 | accepted\n\
min(Y)* -2..9 | min:0:0 int:-2:8 mul:0:6 int:9:12 span:0:10 | not monotone 0\n\
(3-5)*max(Y)..9 | int:3:1 int:5:3 sub:0:2 max:0:6 mul:0:5 int:9:14 span:0:12 | accepted\n\
(3-5)*min(Y)..9 | int:3:1 int:5:3 sub:0:2 min:0:6 mul:0:5 int:9:14 span:0:12 | not monotone 6\n\
0*max(Y)..9 | int:0:0 max:0:2 mul:0:1 int:9:10 span:0:8 | not monotone 2\n\
min(Y)*min(Z)..9 | min:0:0 min:1:7 mul:0:6 int:9:15 span:0:13 | accepted\n\
0..max(Y)*max(Z) | int:0:0 max:0:3 max:1:10 mul:0:9 span:0:1 | accepted\n\
0..max(Y)*min(Z) | int:0:0 max:0:3 min:1:10 mul:0:9 span:0:1 | not monotone 10\n\
P*Q..9 | param:0:0 param:1:2 mul:0:1 int:9:5 span:0:3 | accepted\n\
0..(max(Y)-1)*max(Z) | int:0:0 max:0:4 int:1:11 sub:0:10 max:1:14 mul:0:13 span:0:1 | not natural 10\n\
0..(3-5+P)*max(Y) | int:0:0 int:3:4 int:5:6 sub:0:5 param:0:8 add:0:7 max:1:11 mul:0:10 span:0:1 | not natural 5\n\
0..(P+ -1)*max(Y) | int:0:0 param:0:4 int:-1:7 add:0:5 max:1:11 mul:0:10 span:0:1 | not natural 7\n\
0..(2-1+P)*max(Y) | int:0:0 int:2:4 int:1:6 sub:0:5 param:0:8 add:0:7 max:1:11 mul:0:10 span:0:1 | accepted\n\
0..(0-1)*P*max(Y) | int:0:0 int:0:4 int:1:6 sub:0:5 param:0:9 mul:0:8 max:1:11 mul:0:10 span:0:1 | not natural 5\n\
0..max(Y)/<2 | int:0:0 max:0:3 int:2:11 divdown:0:9 span:0:1 | accepted\n\
min(Y)/>2..9 | min:0:0 int:2:8 divup:0:6 int:9:11 span:0:9 | accepted\n\
0..max(Y)/<0 | int:0:0 max:0:3 int:0:11 divdown:0:9 span:0:1 | bad divisor 11\n\
0..max(Y)/< -1 | int:0:0 max:0:3 int:-1:12 divdown:0:9 span:0:1 | bad divisor 12\n\
0..max(Y)/>(1-1) | int:0:0 max:0:3 int:1:12 int:1:14 sub:0:13 divup:0:9 span:0:1 | bad divisor 13\n\
0..max(Y)/<P | int:0:0 max:0:3 param:1:11 divdown:0:9 span:0:1 | accepted\n\
0..max(Y)/<min(Z) | int:0:0 max:0:3 min:1:11 divdown:0:9 span:0:1 | accepted\n\
0..max(Y)/<max(Z) | int:0:0 max:0:3 max:1:11 divdown:0:9 span:0:1 | not monotone 11\n\
0..(max(Y)-1)/<min(Z) | int:0:0 max:0:4 int:1:11 sub:0:10 min:1:15 divdown:0:13 span:0:1 | not natural 10\n\
0..(max(Y)-1)/<P | int:0:0 max:0:4 int:1:11 sub:0:10 param:1:15 divdown:0:13 span:0:1 | accepted\n\
0..9/<(P-1) | int:0:0 int:9:3 param:0:7 int:1:9 sub:0:8 divdown:0:4 span:0:1 | not natural 8\n\
0..9/<(max(Y)-1) | int:0:0 int:9:3 max:0:7 int:1:14 sub:0:13 divdown:0:4 span:0:1 | not monotone 7\n\
dom(Y)+P | dom:0:0 param:1:7 plus:0:6 | accepted\n\
dom(Y)-P*Q | dom:0:0 param:1:7 param:2:9 mul:0:8 minus:0:6 | accepted\n\
dom(Y)*(P-1) | dom:0:0 param:1:8 int:1:10 sub:0:9 times:0:6 | accepted\n\
dom(Y)/2 | dom:0:0 int:2:7 over:0:6 | accepted\n\
dom(Y)/P | dom:0:0 param:1:7 over:0:6 | accepted\n\
dom(Y)/0 | dom:0:0 int:0:7 over:0:6 | bad divisor 7\n\
dom(Y)/ -1 | dom:0:0 int:-1:8 over:0:6 | bad divisor 8\n\
dom(Y)/(P+1) | dom:0:0 param:1:8 int:1:10 add:0:9 over:0:6 | bad divisor 9\n\
(-dom(Y))*2 | dom:0:2 outside:0:1 int:2:10 times:0:9 | not monotone 2\n\
dom(Y)/(1+1) | dom:0:0 int:1:8 int:1:10 add:0:9 over:0:6 | accepted\n\
Y..max(Y) | param:0:0 max:0:3 span:0:1 | not monotone 3\n\
min(Y)..Y | min:0:0 param:0:8 span:0:6 | not monotone 8\n\
{P}:dom(P) | param:0:1 one:0:0 dom:0:4 union:0:3 | not monotone 4\n\
{val(P)+P+P} | val:0:1 param:0:8 add:0:7 param:0:10 add:0:9 one:0:0 | not monotone 8\n\
P*P*P..9 | param:0:0 param:0:2 mul:0:1 param:0:4 mul:0:3 int:9:7 span:0:5 | too wide 3\n\
A*B*C..9 | param:0:0 param:1:2 mul:0:1 param:2:4 mul:0:3 int:9:7 span:0:5 | too wide 3\n\
A*(B*C*D)..9 | param:0:0 param:1:3 param:2:5 mul:0:4 param:3:7 mul:0:6 mul:0:1 int:9:11 span:0:9 | too wide 1\n\
dom(Y)*(9223372036854775807*9223372036854775807) | dom:0:0 int:9223372036854775807:8 int:9223372036854775807:28 mul:0:27 times:0:6 | too wide 6\n\
dom(Y)/(infinity*infinity*infinity*infinity*infinity) | dom:0:0 inf:0:8 inf:0:17 mul:0:16 inf:0:26 mul:0:25 inf:0:35 mul:0:34 inf:0:44 mul:0:43 over:0:6 | too wide 6\n\
max(Y)..A*B*C | max:0:0 param:1:8 param:2:10 mul:0:9 param:3:12 mul:0:11 span:0:6 | too wide 11\n\
0*A*B*C..9 | int:0:0 param:0:2 mul:0:1 param:1:4 mul:0:3 param:2:6 mul:0:5 int:9:9 span:0:7 | accepted\n\
A*B+A*B..9 | param:0:0 param:1:2 mul:0:1 param:0:4 param:1:6 mul:0:5 add:0:3 int:9:9 span:0:7 | too wide 3\n\
A*B+A*B+A*B+A*B+A*B..9 | param:0:0 param:1:2 mul:0:1 param:0:4 param:1:6 mul:0:5 add:0:3 param:0:8 param:1:10 mul:0:9 add:0:7 param:0:12 param:1:14 mul:0:13 add:0:11 param:0:16 param:1:18 mul:0:17 add:0:15 int:9:21 span:0:19 | too wide 3\n\
dom(Y)+A*B*(1+1) | dom:0:0 param:1:7 param:2:9 mul:0:8 int:1:12 int:1:14 add:0:13 mul:0:10 plus:0:6 | too wide 6\n\
X in -dom(Y). | dom:0:20 outside:0:19 | not monotone 20\n\
X in 0..(max(Y)-1)*max(Z). | int:0:8 max:0:12 int:1:19 sub:0:18 max:1:22 mul:0:21 span:0:9 | not natural 18\n\
X in 0..max(Y)/<0. | int:0:8 max:0:11 int:0:19 divdown:0:17 span:0:9 | bad divisor 19\n\
X in A*B*C..9. | param:0:8 param:1:10 mul:0:9 param:2:12 mul:0:11 int:9:15 span:0:13 | too wide 11";

#[test]
fn verdicts(rt: HostRuntime) -> Result<(), Fail> {
    for line in ROWS.lines() {
        let (_, rest) = line.split_once(" | ").expect(&rt, line);
        let (spelling, verdict) = rest.split_once(" | ").expect(&rt, line);
        let found = verdict_of(rt.alloc(), spelling)?;
        same(&rt, found.as_str(), verdict, spelling);
    }
    Ok(())
}

/// The strongest need holds: P is natural in a product, though it stands alone before, and R is a divisor.
#[test]
fn strongest_needs(rt: HostRuntime) -> Result<(), Fail> {
    let spelling =
        "param:0:0 int:9:0 span:0:0 int:0:0 param:0:0 param:1:0 mul:0:0 span:0:0 union:0:0 param:2:0 over:0:0";
    let checked = found_of(rt.alloc(), spelling)??;
    let found = needs(rt.alloc(), &checked)?;
    let expected = [(0, Need::Natural), (1, Need::Natural), (2, Need::Divisor)];
    same(&rt, found.as_slice(), expected.as_slice(), "the needs");
    Ok(())
}
