//! Whether a list of nodes spells a range. Nothing is built: it is enough to count what waits for an operator.

ghost use Rattle.std.specs.Prelude.{◌≡◌, ◌↔◌, ℕ, suc, ◌+◌, ◌<◌, ◌≤◌, ◌^◌, List, [], ◌∷◌, IsTrue, None, MatchOption, IfSome, length};
ghost use Rattle.fd_language.specs.Range.{Range, Expr};
ghost use Rattle.fd_language.specs.declared.range_node.RangeNode.{RangeNode as Spelled};
ghost use Rattle.fd_language.specs.PostfixRanges.{built, IsSpelled};
ghost use Rattle.fd_language.specs.Counts.{takes, IsReached};

use crate::range_node::RangeNode;

/// How many ranges and terms an operator takes, and whether it gives a range.
#[derive(Clone, Copy)]
struct Operands {
    ranges: usize,
    terms: usize,
    gives_range: bool,
}

/// How many ranges and terms wait for their operators. A range never waits above a term.
#[derive(Clone, Copy)]
struct Waiting {
    ranges: usize,
    terms: usize,
}

fn operands_of(node: RangeNode) -> Operands
    ensures { result ≡ takes node }
{
    let (ranges, terms, gives_range) = match node {
        RangeNode::Int(_)
        | RangeNode::Infinity
        | RangeNode::Param(_)
        | RangeNode::Min(_)
        | RangeNode::Max(_)
        | RangeNode::Val(_) => (0, 0, false),
        RangeNode::Add | RangeNode::Sub | RangeNode::Mul | RangeNode::DivDown | RangeNode::DivUp =>
            (0, 2, false),
        RangeNode::Span => (0, 2, true),
        RangeNode::One => (0, 1, true),
        RangeNode::Dom(_) => (0, 0, true),
        RangeNode::Union | RangeNode::Inter => (2, 0, true),
        RangeNode::Outside => (1, 0, true),
        RangeNode::Plus | RangeNode::Minus | RangeNode::Times | RangeNode::Over => (1, 1, true),
    };
    Operands {
        ranges,
        terms,
        gives_range,
    }
}

impl Waiting {
    /// What waits behind the node, and `None` where its operands aren't there.
    fn after(self, node: RangeNode) -> Option<Waiting>
        requires { self.ranges + self.terms < usize.MAX }
        ensures reached { (ns : List Spelled) (rs : List Range) (ts : List Expr) → length rs
            ≡ self.ranges → length ts ≡ self.terms → MatchOption result (built (node ∷ ns) rs ts
            ≡ None) (λ w. IsReached (built (node ∷ ns) rs ts) ns w.ranges w.terms) }
        ensures room { IfSome result (λ w. w.ranges + w.terms ≤ suc (self.ranges + self.terms)) }
    {
        let taken = operands_of(node);
        if self.ranges < taken.ranges || self.terms < taken.terms {
            None
        } else if !taken.gives_range {
            Some(Waiting {
                ranges: self.ranges,
                terms: self.terms - taken.terms + 1,
            })
        } else if self.terms == taken.terms {
            Some(Waiting {
                ranges: self.ranges - taken.ranges + 1,
                terms: 0,
            })
        } else {
            None
        }
    }
}

/// Whether the list spells a range.
pub(crate) fn spells_range(nodes: &[RangeNode]) -> bool
    ensures { IsTrue result ↔ IsSpelled nodes.now }
{
    let mut waiting = Waiting {
        ranges: 0,
        terms: 0,
    };
    for node in nodes {
        match waiting.after(*node) {
            Some(next) => waiting = next,
            None => return false,
        }
    }
    waiting.ranges == 1 && waiting.terms == 0
}
