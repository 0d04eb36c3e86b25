//! What is asked of the parameters, node by node.

ghost use Rattle.std.specs.Prelude.{◌≡◌, ℕ, [], ◌∷◌, ◌++◌, IfOk, OnOk};
ghost use Rattle.fd_language.specs.Needs.{asks};
ghost use Rattle.fd_language.specs.PostfixRanges.{spelled_range, IsSpelled};
ghost use Rattle.monotone_check.specs.OpenTerms.{TakesAsks};
ghost use Rattle.monotone_check.specs.PlaceNeeds.{told, AsksOf, joins, Opens, OpensParameter, Operates, Closes, ClosesQuotient};

use crate::parameter_places::Asking;
use fd_language::{NoMemory, RangeNode};
use std::alloc::Global;

/// A term that waits for its operator: whether it is a literal, or a parameter alone, and the number of its first place of a parameter.
#[derive(Clone, Copy)]
pub(crate) struct OpenTerm {
    pub literal: bool,
    pub parameter: bool,
    pub from: usize,
}

/// What is asked so far, and the terms that wait for their operators.
#[derive(Drop)]
pub(crate) struct AskReader {
    pub asking: Asking,
    pub terms: Vec<OpenTerm>,
}

fn is_joining(node: RangeNode) -> bool
    ensures { result ≡ joins node }
{
    match node {
        RangeNode::Add | RangeNode::Sub | RangeNode::Mul => true,
        _ => false,
    }
}

fn ask(asking: &mut Asking, node: RangeNode, a: OpenTerm, b: OpenTerm)
    ensures { AsksOf node a b (told 0 asking.old.places.items) (told 0 asking.new.places.items) }
{
    match node {
        RangeNode::Add => {}
        RangeNode::Sub => {}
        RangeNode::Mul => {
            if !a.literal && !b.literal {
                asking.raise_from(a.from);
            }
        }
        _ => {
            if b.parameter {
                asking.divide();
            } else if !b.literal {
                asking.raise_from(a.from);
            }
        }
    }
}

impl AskReader {
    /// Nothing is asked, and no term waits. The allocator gives memory for what is to come.
    pub(crate) fn new(alloc: Global) -> AskReader
        ensures terms { result.terms.items ≡ [] }
        ensures places { result.asking.places.items ≡ [] }
    {
        AskReader {
            asking: Asking::new(alloc),
            terms: Vec::new(alloc),
        }
    }

    fn open(&mut self, literal: bool) -> Result<(), NoMemory>
        ensures { OnOk result (Opens literal self.old self.new) }
    {
        let from = self.asking.len();
        self.terms.push(OpenTerm {
            literal,
            parameter: false,
            from,
        })?;
        Ok(())
    }

    fn open_parameter(&mut self, variable: u64) -> Result<(), NoMemory>
        ensures { OnOk result (OpensParameter variable self.old self.new) }
    {
        let from = self.asking.len();
        self.asking.add(variable)?;
        self.terms.push(OpenTerm {
            literal: false,
            parameter: true,
            from,
        })?;
        Ok(())
    }

    fn operate(&mut self, node: RangeNode) -> Result<(), NoMemory>
        ensures { OnOk result (Operates node self.old self.new) }
    {
        if let Some(b) = self.terms.pop() {
            if let Some(a) = self.terms.pop() {
                ask(&mut self.asking, node, a, b);
                self.terms.push(OpenTerm {
                    literal: is_joining(node) && a.literal && b.literal,
                    parameter: false,
                    from: a.from,
                })?;
            }
        }
        Ok(())
    }

    fn close(&mut self)
        ensures { Closes self.old self.new }
    {
        self.terms.clear();
    }

    fn close_quotient(&mut self)
        ensures { ClosesQuotient self.old self.new }
    {
        if let Some(c) = self.terms.pop() {
            if c.parameter {
                self.asking.divide();
            }
        }
        self.terms.clear();
    }

    /// Takes the node's operands and notes what is asked of them.
    pub(crate) fn take(&mut self, node: RangeNode) -> Result<(), NoMemory>
        ensures { OnOk result (TakesAsks node self.old self.new) }
    {
        match node {
            RangeNode::Int(_) | RangeNode::Infinity => self.open(true),
            RangeNode::Param(variable) => self.open_parameter(variable),
            RangeNode::Min(_) | RangeNode::Max(_) | RangeNode::Val(_) => self.open(false),
            RangeNode::Add
            | RangeNode::Sub
            | RangeNode::Mul
            | RangeNode::DivDown
            | RangeNode::DivUp => self.operate(node),
            RangeNode::Over => {
                self.close_quotient();
                Ok(())
            }
            RangeNode::Span
            | RangeNode::One
            | RangeNode::Dom(_)
            | RangeNode::Union
            | RangeNode::Inter
            | RangeNode::Outside
            | RangeNode::Plus
            | RangeNode::Minus
            | RangeNode::Times => {
                self.close();
                Ok(())
            }
        }
    }
}

/// What is asked at each place of a parameter of the range that the nodes spell.
pub(crate) fn read_asks(alloc: Global, nodes: &[RangeNode]) -> Result<Asking, NoMemory>
    requires { IsSpelled nodes.now }
    ensures { IfOk result (λ q. told 0 q.places.items ≡ asks (spelled_range nodes.now)) }
{
    let mut reading = AskReader::new(alloc);
    for node in nodes {
        reading.take(*node)?;
    }
    let AskReader { asking, .. } = reading;
    Ok(asking)
}
