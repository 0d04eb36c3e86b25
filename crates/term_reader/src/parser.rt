//! Terms read from the tokens of the grammar, from left to right, with a stack of what is begun.

ghost use Rattle.std.specs.Prelude.{◌≡◌, ◌<◌, ◌≤◌, neg_ℤ, ℕ, List, [], ◌∷◌, ◌++◌, length, reverse, take, drop, Option, Some, None, IfOk, IfSome, IfNone, MatchOption, IsTrue, IsFalse, option_map, true, false, ◌⊎◌};
ghost use Rattle.fd_language.specs.PlacedTerm.{PlacedTerm, var, int, atom, comp, no_parts};
ghost use Rattle.fd_language.specs.Operators.{prefix_of};
ghost use Rattle.fd_language.specs.Grammar.{list_of};
ghost use Rattle.fd_language.specs.Terminals as Terminals;
ghost use Rattle.fd_language.specs.Terminals.{infix_operator, is_minus, is_negated, is_tight_open};
ghost use Rattle.name_syntax.specs.Operators.{operator_of};
ghost use Rattle.fd_language.specs.ReadingSteps as Machine;
ghost use Rattle.term_pool.specs.declared.AtomId.{AtomId as Atom};
ghost use Rattle.term_pool.specs.Contents.{Contents, atom_name};
ghost use Rattle.term_pool.specs.PoolInvariant.{IsPool};
ghost use Rattle.term_pool.specs.PlacedTerms.{placed_of};
ghost use Rattle.term_reader.specs.PlacedTerms.{parts_of, Adds};
ghost use Rattle.term_reader.specs.View.{AreTerms, IsNoOperation, item_of, operands, HaveIds, IsNamed, IsOperatorWord, IsTerminal, IsWhole, infix_name, Moves, Steps, Stays, item_limit, last_item, stack, state, terminal_at, closing_of, allows_lone, EndsWith, StandsAtStop, IsNegative, IsNatural, TakesArguments};

use fd_language::NoMemory;
use name_syntax::operators::{COMMA, Operator, Roles};
use std::alloc::Global;
use term_pool::{AtomId, CONS, NIL, Node, Pool, TermId};

/// A token as the grammar sees it. Stop isn't among them.
#[derive(Clone, Copy)]
pub(crate) enum Terminal {
    /// A word that is no operator, or what a quoted atom spells.
    Name(AtomId),
    /// A word that is an operator, with what it is as one.
    OperatorWord { name: AtomId, roles: Roles },
    Variable(u64),
    Integer { tight: bool, value: i64 },
    Open { tight: bool },
    Close,
    OpenList,
    CloseList,
    OpenCurly,
    CloseCurly,
    Comma,
    Bar,
}

/// What is begun: a bracket, or an operator that wants its right operand.
///
/// Places are in bytes. A bracket of arguments keeps how many arguments of the brackets around it stand before its own.
#[derive(Clone, Copy)]
pub(crate) enum Item {
    Parenthesis,
    Curly {
        place: usize,
    },
    Call {
        place: usize,
        name: AtomId,
        from: usize,
    },
    List {
        place: usize,
        from: usize,
    },
    /// A list behind its bar.
    Tail {
        place: usize,
        from: usize,
    },
    Prefix {
        place: usize,
        name: AtomId,
        operator: Operator,
    },
    Infix {
        place: usize,
        name: AtomId,
        operator: Operator,
        left: TermId,
    },
}

/// What may come next.
#[derive(Clone, Copy)]
pub(crate) enum Expecting {
    Operand,
    BehindOpenList {
        place: usize,
    },
    BehindOpenCurly {
        place: usize,
    },
    /// Behind an operator word where an operand was wanted.
    BehindOperator {
        place: usize,
        name: AtomId,
        roles: Roles,
    },
    /// Behind a name, which may be that of a call.
    BehindName {
        place: usize,
        name: AtomId,
    },
    BehindOperand {
        term: TermId,
    },
}

/// What a token ends.
#[derive(Clone, Copy)]
enum Closing {
    Nothing,
    Parenthesis,
    Curly {
        place: usize,
    },
    Call {
        place: usize,
        name: AtomId,
        from: usize,
    },
    /// An argument, behind which another one follows.
    Argument,
    List {
        place: usize,
        from: usize,
    },
    /// The last element before a list's tail.
    Bar {
        place: usize,
        from: usize,
    },
    Tail {
        place: usize,
        from: usize,
    },
}

/// What is read of a sentence.
#[derive(Drop)]
pub(crate) struct Parser {
    pub(crate) pool: Pool,
    items: Vec<Item>,
    arguments: Vec<TermId>,
    expecting: Expecting,
}

fn add_variable(pool: &mut Pool, number: u64, place: usize) -> Result<TermId, NoMemory>
    requires { IsPool pool.old }
    ensures { IfOk result (Adds pool.old pool.new (var number place)) }
{
    pool.add(Node::Var(number), place)
}

fn add_integer(pool: &mut Pool, value: i64, place: usize) -> Result<TermId, NoMemory>
    requires { IsPool pool.old }
    ensures { IfOk result (Adds pool.old pool.new (int value place)) }
{
    pool.add(Node::Int(value), place)
}

fn add_atom(pool: &mut Pool, name: AtomId, place: usize) -> Result<TermId, NoMemory>
    requires pool { IsPool pool.old }
    requires name { name.number < length pool.old.names }
    ensures { IfOk result (Adds pool.old pool.new (atom (atom_name pool.old name) place)) }
{
    pool.add(Node::Atom(name), place)
}

fn add_compound(
    pool: &mut Pool,
    name: AtomId,
    parts: &[TermId],
    place: usize,
) -> Result<TermId, NoMemory>
    requires pool { IsPool pool.old }
    requires name { name.number < length pool.old.names }
    requires parts { AreTerms pool.old parts.now }
    ensures { IfOk result (Adds pool.old pool.new (comp (atom_name pool.old name) place
        (parts_of pool.old parts.now))) }
{
    pool.add(Node::Comp(name, parts), place)
}

/// A compound term whose name may be new to the pool.
fn add_named(
    pool: &mut Pool,
    name: &str,
    parts: &[TermId],
    place: usize,
) -> Result<TermId, NoMemory>
    requires pool { IsPool pool.old }
    requires parts { AreTerms pool.old parts.now }
    ensures { IfOk result
        (Adds pool.old pool.new (comp name.now place (parts_of pool.old parts.now))) }
{
    let atom = pool.atom(name)?;
    add_compound(pool, atom, parts, place)
}

/// An atom that may be new to the pool.
fn add_named_atom(pool: &mut Pool, name: &str, place: usize) -> Result<TermId, NoMemory>
    requires { IsPool pool.old }
    ensures { IfOk result (Adds pool.old pool.new (atom name.now place)) }
{
    let id = pool.atom(name)?;
    add_atom(pool, id, place)
}

/// Whether an operator with this right limit takes its operand before an operator of the priority `below`, or before anything else.
fn gives_way(below: Option<u32>, right: u32) -> bool
    ensures { result ≡ Machine.gives_way below right }
{
    match below {
        Some(priority) => right < priority,
        None => true,
    }
}

fn top_item(items: &[Item]) -> Option<Item>
    ensures { result ≡ last_item items.now }
{
    items.last().copied()
}

/// The greatest priority of a term behind the item.
fn limit(item: Option<Item>) -> u32
    ensures { result ≡ item_limit item }
{
    match item {
        None => 1200,
        Some(Item::Parenthesis) => 1200,
        Some(Item::Curly { place: _ }) => 1200,
        Some(
            Item::Call {
                place: _,
                name: _,
                from: _,
            },
        ) => 999,
        Some(Item::List { place: _, from: _ }) => 999,
        Some(Item::Tail { place: _, from: _ }) => 999,
        Some(
            Item::Prefix {
                place: _,
                name: _,
                operator,
            },
        ) => operator.right_limit(),
        Some(
            Item::Infix {
                place: _,
                name: _,
                operator,
                left: _,
            },
        ) => operator.right_limit(),
    }
}

/// An operator that wants its right operand, with its left one where it is infix.
#[derive(Clone, Copy)]
struct Operation {
    place: usize,
    name: AtomId,
    operator: Operator,
    left: Option<TermId>,
}

/// The operator that the last item is, if it is one.
fn last_operation(items: &[Item]) -> Option<Operation>
    ensures { MatchOption result (IsNoOperation (last_item items.now))
        (λ o. last_item items.now ≡ Some (item_of o o.left)) }
{
    match top_item(items)? {
        Item::Prefix {
            place,
            name,
            operator,
        } => Some(Operation {
            place,
            name,
            operator,
            left: None,
        }),
        Item::Infix {
            place,
            name,
            operator,
            left,
        } => Some(Operation {
            place,
            name,
            operator,
            left: Some(left),
        }),
        _ => None,
    }
}

/// The term of an operator and its operands.
fn add_operation(pool: &mut Pool, operation: Operation, right: TermId) -> Result<TermId, NoMemory>
    requires pool { IsPool pool.old }
    requires name { operation.name.number < length pool.old.names }
    requires operands { AreTerms pool.old (operands operation.left right) }
    ensures { IfOk result (Adds pool.old pool.new (comp (atom_name pool.old operation.name)
        operation.place (parts_of pool.old (operands operation.left right)))) }
{
    match operation.left {
        None => add_compound(pool, operation.name, &[right], operation.place),
        Some(left) => add_compound(pool, operation.name, &[left, right], operation.place),
    }
}

/// Lets the last operator take its operand, if it gives way; then that is the operand, with its priority.
fn reduce_once(
    pool: &mut Pool,
    items: &mut Vec<Item>,
    below: Option<u32>,
    operand: TermId,
) -> Result<Option<(TermId, u32)>, NoMemory>
    requires pool { IsPool pool.old }
    requires ids { HaveIds pool.old (reverse items.old.items) }
    requires operand { operand.number < length pool.old.entries }
    ensures stays { IfOk result (λ o. IfNone o (Stays below pool.new items.new.items)) }
    ensures same { IfOk result
        (λ o. IfNone o ((pool.new ≡ pool.old) × (items.new.items ≡ items.old.items))) }
    ensures steps { IfOk result
        (λ o. IfSome o (λ r. (q : ℕ) → Steps below pool.old pool.new items.old.items
        items.new.items q r.1 operand r.0)) }
    ensures less { IfOk result
        (λ o. IfSome o (λ r. length items.new.items < length items.old.items)) }
{
    let Some(operation) = last_operation(items) else {
        return Ok(None);
    };
    if !gives_way(below, operation.operator.right_limit()) {
        return Ok(None);
    }
    items.pop();
    let term = add_operation(pool, operation, operand)?;
    Ok(Some((term, operation.operator.priority)))
}

/// Lets each operator that gives way take its operand.
fn reduce(
    pool: &mut Pool,
    items: &mut Vec<Item>,
    below: Option<u32>,
    operand: TermId,
    priority: u32,
) -> Result<(TermId, u32), NoMemory>
    requires pool { IsPool pool.old }
    requires ids { HaveIds pool.old (reverse items.old.items) }
    requires operand { operand.number < length pool.old.entries }
    ensures steps { IfOk result (λ r. Steps below pool.old pool.new items.old.items items.new.items
        priority r.1 operand r.0) }
    ensures stays { IfOk result (λ _. Stays below pool.new items.new.items) }
{
    let mut term = operand;
    let mut of_term = priority;
    while let Some((next, of_next)) = reduce_once(pool, items, below, term)? {
        term = next;
        of_term = of_next;
    }
    Ok((term, of_term))
}

/// What a token ends, by the last item.
fn closing_of(item: Option<Item>, token: Terminal) -> Closing
    ensures { result ≡ closing_of item token }
{
    match (item, token) {
        (Some(Item::Parenthesis), Terminal::Close) => Closing::Parenthesis,
        (Some(Item::Curly { place }), Terminal::CloseCurly) => Closing::Curly { place },
        (Some(Item::Call { place, name, from }), Terminal::Close) => Closing::Call {
            place,
            name,
            from,
        },
        (
            Some(
                Item::Call {
                    place: _,
                    name: _,
                    from: _,
                },
            ),
            Terminal::Comma,
        ) => Closing::Argument,
        (Some(Item::List { place: _, from: _ }), Terminal::Comma) => Closing::Argument,
        (Some(Item::List { place, from }), Terminal::CloseList) => Closing::List { place, from },
        (Some(Item::List { place, from }), Terminal::Bar) => Closing::Bar { place, from },
        (Some(Item::Tail { place, from }), Terminal::CloseList) => Closing::Tail { place, from },
        _ => Closing::Nothing,
    }
}

/// Whether an operator word alone may stand before what ends there.
fn allows_lone(closing: Closing) -> bool
    ensures { result ≡ allows_lone closing }
{
    match closing {
        Closing::Nothing => false,
        Closing::Curly { place: _ } => false,
        _ => true,
    }
}

fn is_tight_open(token: Terminal) -> bool
    ensures { (c : Contents) (p : ℕ) → result ≡ is_tight_open (terminal_at c p token) }
{
    match token {
        Terminal::Open { tight } => tight,
        _ => false,
    }
}

fn is_close_list(token: Terminal) -> bool
    ensures { (c : Contents) (p : ℕ) → result ≡ Machine.is_close_list (terminal_at c p token) }
{
    match token {
        Terminal::CloseList => true,
        _ => false,
    }
}

fn is_close_curly(token: Terminal) -> bool
    ensures { (c : Contents) (p : ℕ) → result ≡ Machine.is_close_curly (terminal_at c p token) }
{
    match token {
        Terminal::CloseCurly => true,
        _ => false,
    }
}

/// The operator that a token is between two operands.
fn infix_at(token: Terminal) -> Option<Operator>
    ensures { (c : Contents) (p : ℕ) → IsTerminal c token → option_map (operator_of
        (infix_name c token)) result ≡ infix_operator (terminal_at c p token) }
{
    match token {
        Terminal::OperatorWord { name: _, roles } => roles.infix,
        Terminal::Comma => Some(COMMA),
        _ => None,
    }
}

/// The atom that names the operator. The comma, which most often stands between arguments, is found only here.
fn infix_atom(pool: &mut Pool, token: Terminal) -> Result<AtomId, NoMemory>
    requires pool { IsPool pool.old }
    requires token { IsTerminal pool.old token }
    ensures { IfOk result (IsNamed pool.old pool.new (infix_name pool.old token)) }
{
    match token {
        Terminal::OperatorWord { name, roles: _ } => Ok(name),
        _ => pool.atom(","),
    }
}

fn is_minus(name: &str) -> bool
    ensures { result ≡ is_minus name.now }
{
    name == "-"
}

fn negated(value: i64) -> i64
    requires { IsNatural value }
    ensures { result ≡ neg_ℤ value }
{
    -value
}

/// The negative number that a minus and a tight integer behind it are.
fn negative(pool: &Pool, name: AtomId, token: Terminal) -> Option<i64>
    requires name { name.number < length pool.now.names }
    requires token { IsTerminal pool.now token }
    ensures { (p : ℕ) → IsNegative (is_negated (atom_name pool.now name)
        (terminal_at pool.now p token)) (Machine.number_of (terminal_at pool.now p token)) result }
{
    match token {
        Terminal::Integer { tight, value } => {
            if tight && is_minus(pool.name_of(name)) {
                Some(negated(value))
            } else {
                None
            }
        }
        _ => None,
    }
}

/// The ids from a number on.
fn ids_from(ids: &[TermId], from: usize) -> &[TermId]
    requires { from ≤ length ids.now }
    ensures { result.now ≡ drop from ids.now }
{
    &ids[from..]
}

/// The cells of a list before its tail, each at the place.
fn add_list(
    pool: &mut Pool,
    elements: &[TermId],
    place: usize,
    tail: TermId,
) -> Result<TermId, NoMemory>
    requires pool { IsPool pool.old }
    requires elements { AreTerms pool.old elements.now }
    requires tail { tail.number < length pool.old.entries }
    ensures { IfOk result (Adds pool.old pool.new (list_of place (parts_of pool.old elements.now)
        (placed_of pool.old tail))) }
{
    let mut list = tail;
    let mut count = elements.len();
    while count > 0 {
        count -= 1;
        list = add_compound(pool, CONS, &[elements[count], list], place)?;
    }
    Ok(list)
}

impl Parser {
    /// A parser that has read nothing.
    pub(crate) fn new(alloc: Global) -> Result<Parser, NoMemory>
        ensures whole { IfOk result IsWhole }
        ensures begins { IfOk result (λ r. (done : List PlacedTerm) → state r done ≡ Machine.want
            (Machine.top done)) }
    {
        Ok(Parser {
            pool: Pool::new(alloc)?,
            items: Vec::new(alloc),
            arguments: Vec::new(alloc),
            expecting: Expecting::Operand,
        })
    }

    /// The pool of the terms.
    pub(crate) fn into_pool(self) -> Pool
        ensures { result ≡ self.pool }
    {
        self.pool
    }

    /// A token where an operand is wanted; false where it can't stand there.
    fn operand(&mut self, token: Terminal, place: usize) -> Result<bool, NoMemory>
        requires whole { IsWhole self.old }
        requires token { IsTerminal self.old.pool token }
        ensures { IfOk result (Moves self.old.pool (λ done. Machine.wanted (stack self.old done)
            (terminal_at self.old.pool place token)) self.new) }
    {
        match token {
            Terminal::Name(name) => {
                self.expecting = Expecting::BehindName { place, name };
                Ok(true)
            }
            Terminal::OperatorWord { name, roles } => {
                self.expecting = Expecting::BehindOperator { place, name, roles };
                Ok(true)
            }
            Terminal::Variable(number) => {
                let term = add_variable(&mut self.pool, number, place)?;
                self.expecting = Expecting::BehindOperand { term };
                Ok(true)
            }
            Terminal::Integer { tight: _, value } => {
                let term = add_integer(&mut self.pool, value, place)?;
                self.expecting = Expecting::BehindOperand { term };
                Ok(true)
            }
            Terminal::Open { tight: _ } => {
                self.items.push(Item::Parenthesis)?;
                self.expecting = Expecting::Operand;
                Ok(true)
            }
            Terminal::OpenList => {
                self.expecting = Expecting::BehindOpenList { place };
                Ok(true)
            }
            Terminal::OpenCurly => {
                self.expecting = Expecting::BehindOpenCurly { place };
                Ok(true)
            }
            Terminal::Close
            | Terminal::CloseList
            | Terminal::CloseCurly
            | Terminal::Comma
            | Terminal::Bar => Ok(false),
        }
    }

    /// The end of a call's arguments, behind the last one. True: the token can stand there.
    fn end_call(
        &mut self,
        last: TermId,
        place: usize,
        name: AtomId,
        from: usize,
    ) -> Result<bool, NoMemory>
        requires whole { IsWhole self.old }
        requires last { last.number < length self.old.pool.entries }
        requires top { last_item self.old.items.items ≡ Some (Item.Call place name from) }
        ensures { IfOk result (Moves self.old.pool (λ done. Machine.closed (stack self.old done)
            (placed_of self.old.pool last) Terminals.closes) self.new) }
    {
        self.arguments.push(last)?;
        let term = add_compound(&mut self.pool, name, ids_from(&self.arguments, from), place)?;
        self.arguments.truncate(from);
        self.items.pop();
        self.expecting = Expecting::BehindOperand { term };
        Ok(true)
    }

    /// An argument or an element, behind which another one follows. True: the token can stand there.
    fn next_argument(&mut self, term: TermId) -> Result<bool, NoMemory>
        requires whole { IsWhole self.old }
        requires term { term.number < length self.old.pool.entries }
        requires top { TakesArguments (last_item self.old.items.items) }
        ensures { IfOk result (λ b. (p : ℕ) → Moves self.old.pool
            (λ done. Machine.closed (stack self.old done) (placed_of self.old.pool term)
            (Terminals.comma p)) self.new b) }
    {
        self.arguments.push(term)?;
        self.expecting = Expecting::Operand;
        Ok(true)
    }

    /// The end of a list behind its last element. True: the token can stand there.
    fn end_list(&mut self, last: TermId, place: usize, from: usize) -> Result<bool, NoMemory>
        requires whole { IsWhole self.old }
        requires last { last.number < length self.old.pool.entries }
        requires top { last_item self.old.items.items ≡ Some (Item.List place from) }
        ensures { IfOk result (Moves self.old.pool (λ done. Machine.closed (stack self.old done)
            (placed_of self.old.pool last) Terminals.close_list) self.new) }
    {
        self.arguments.push(last)?;
        let nil = add_atom(&mut self.pool, NIL, place)?;
        let term = add_list(&mut self.pool, ids_from(&self.arguments, from), place, nil)?;
        self.arguments.truncate(from);
        self.items.pop();
        self.expecting = Expecting::BehindOperand { term };
        Ok(true)
    }

    /// The end of a list behind its tail. True: the token can stand there.
    fn end_tail(&mut self, tail: TermId, place: usize, from: usize) -> Result<bool, NoMemory>
        requires whole { IsWhole self.old }
        requires tail { tail.number < length self.old.pool.entries }
        requires top { last_item self.old.items.items ≡ Some (Item.Tail place from) }
        ensures { IfOk result (Moves self.old.pool (λ done. Machine.closed (stack self.old done)
            (placed_of self.old.pool tail) Terminals.close_list) self.new) }
    {
        let term = add_list(&mut self.pool, ids_from(&self.arguments, from), place, tail)?;
        self.arguments.truncate(from);
        self.items.pop();
        self.expecting = Expecting::BehindOperand { term };
        Ok(true)
    }

    /// The bar behind a list's last element before its tail. True: the token can stand there.
    fn begin_tail(&mut self, last: TermId, place: usize, from: usize) -> Result<bool, NoMemory>
        requires whole { IsWhole self.old }
        requires last { last.number < length self.old.pool.entries }
        requires top { last_item self.old.items.items ≡ Some (Item.List place from) }
        ensures { IfOk result (Moves self.old.pool (λ done. Machine.closed (stack self.old done)
            (placed_of self.old.pool last) Terminals.bar) self.new) }
    {
        self.arguments.push(last)?;
        self.items.pop();
        self.items.push(Item::Tail { place, from })?;
        self.expecting = Expecting::Operand;
        Ok(true)
    }

    /// The end of a curly term. True: the token can stand there.
    fn end_curly(&mut self, inner: TermId, place: usize) -> Result<bool, NoMemory>
        requires whole { IsWhole self.old }
        requires inner { inner.number < length self.old.pool.entries }
        requires top { last_item self.old.items.items ≡ Some (Item.Curly place) }
        ensures { IfOk result (Moves self.old.pool (λ done. Machine.closed (stack self.old done)
            (placed_of self.old.pool inner) Terminals.close_curly) self.new) }
    {
        let term = add_named(&mut self.pool, "{}", &[inner], place)?;
        self.items.pop();
        self.expecting = Expecting::BehindOperand { term };
        Ok(true)
    }

    /// A token behind a whole operand, to which no operator is left; false where it can't stand there.
    fn close(&mut self, term: TermId, token: Terminal) -> Result<bool, NoMemory>
        requires whole { IsWhole self.old }
        requires term { term.number < length self.old.pool.entries }
        ensures { IfOk result (λ b. (p : ℕ) → Moves self.old.pool
            (λ done. Machine.closed (stack self.old done) (placed_of self.old.pool term)
            (terminal_at self.old.pool p token)) self.new b) }
    {
        match closing_of(top_item(&self.items), token) {
            Closing::Nothing => Ok(false),
            Closing::Parenthesis => {
                self.items.pop();
                self.expecting = Expecting::BehindOperand { term };
                Ok(true)
            }
            Closing::Curly { place } => self.end_curly(term, place),
            Closing::Call { place, name, from } => self.end_call(term, place, name, from),
            Closing::Argument => self.next_argument(term),
            Closing::List { place, from } => self.end_list(term, place, from),
            Closing::Bar { place, from } => self.begin_tail(term, place, from),
            Closing::Tail { place, from } => self.end_tail(term, place, from),
        }
    }

    /// A token behind an operand of this priority, where no operator takes it; false where it can't stand there.
    fn end_operand(
        &mut self,
        operand: TermId,
        priority: u32,
        token: Terminal,
    ) -> Result<bool, NoMemory>
        requires whole { IsWhole self.old }
        requires operand { operand.number < length self.old.pool.entries }
        requires token { IsTerminal self.old.pool token }
        ensures { IfOk result (λ b. (p : ℕ) → Moves self.old.pool
            (λ done. Machine.ended (Machine.reduce None (stack self.old done) priority
            (placed_of self.old.pool operand)) (terminal_at self.old.pool p token)) self.new b) }
    {
        let (term, _) = reduce(&mut self.pool, &mut self.items, None, operand, priority)?;
        self.close(term, token)
    }

    /// An operator behind an operand; where it can't take it, the token ends the operand.
    fn attach(
        &mut self,
        operand: TermId,
        operator: Operator,
        token: Terminal,
        place: usize,
    ) -> Result<bool, NoMemory>
        requires whole { IsWhole self.old }
        requires operand { operand.number < length self.old.pool.entries }
        requires token { IsTerminal self.old.pool token }
        requires operator { infix_operator (terminal_at self.old.pool place token)
            ≡ Some (operator_of (infix_name self.old.pool token) operator) }
        ensures { IfOk result (Moves self.old.pool (λ done. Machine.behind_operand
            (stack self.old done) (placed_of self.old.pool operand)
            (terminal_at self.old.pool place token)) self.new) }
    {
        let (left, priority) = reduce(
            &mut self.pool,
            &mut self.items,
            Some(operator.priority),
            operand,
            0,
        )?;
        if operator.priority <= limit(top_item(&self.items)) && priority <= operator.left_limit() {
            let name = infix_atom(&mut self.pool, token)?;
            self.items.push(Item::Infix {
                place,
                name,
                operator,
                left,
            })?;
            self.expecting = Expecting::Operand;
            Ok(true)
        } else {
            self.end_operand(left, priority, token)
        }
    }

    /// A token behind an operand; false where it can't stand there.
    fn follow(&mut self, operand: TermId, token: Terminal, place: usize) -> Result<bool, NoMemory>
        requires whole { IsWhole self.old }
        requires operand { operand.number < length self.old.pool.entries }
        requires token { IsTerminal self.old.pool token }
        ensures { IfOk result (Moves self.old.pool (λ done. Machine.behind_operand
            (stack self.old done) (placed_of self.old.pool operand)
            (terminal_at self.old.pool place token)) self.new) }
    {
        match infix_at(token) {
            Some(operator) => self.attach(operand, operator, token, place),
            None => self.end_operand(operand, 0, token),
        }
    }

    /// The parenthesis of a call. True: the token can stand there.
    fn begin_call(&mut self, place: usize, name: AtomId) -> Result<bool, NoMemory>
        requires whole { IsWhole self.old }
        requires name { name.number < length self.old.pool.names }
        ensures { IfOk result (Moves self.old.pool (λ done. Some (Machine.want (Machine.args place
            (atom_name self.old.pool name) no_parts (stack self.old done)))) self.new) }
    {
        let from = self.arguments.len();
        self.items.push(Item::Call { place, name, from })?;
        self.expecting = Expecting::Operand;
        Ok(true)
    }

    /// A token behind a prefix operator; false where the word is none, or it or the token can't stand there.
    fn begin_prefix(
        &mut self,
        at: usize,
        name: AtomId,
        prefix: Option<Operator>,
        token: Terminal,
        place: usize,
    ) -> Result<bool, NoMemory>
        requires whole { IsWhole self.old }
        requires name { name.number < length self.old.pool.names }
        requires prefix { option_map (operator_of (atom_name self.old.pool name)) prefix
            ≡ prefix_of (atom_name self.old.pool name) }
        requires token { IsTerminal self.old.pool token }
        ensures { IfOk result
            (Moves self.old.pool (λ done. Machine.begun at (atom_name self.old.pool name)
            (prefix_of (atom_name self.old.pool name)) (stack self.old done)
            (terminal_at self.old.pool place token)) self.new) }
    {
        let Some(operator) = prefix else {
            return Ok(false);
        };
        if operator.priority <= limit(top_item(&self.items)) {
            self.items.push(Item::Prefix {
                place: at,
                name,
                operator,
            })?;
            self.operand(token, place)
        } else {
            Ok(false)
        }
    }

    /// A token behind an operator word that stands where an operand was wanted.
    fn behind_operator(
        &mut self,
        at: usize,
        name: AtomId,
        roles: Roles,
        token: Terminal,
        place: usize,
    ) -> Result<bool, NoMemory>
        requires whole { IsWhole self.old }
        requires word { IsOperatorWord self.old.pool name roles }
        requires token { IsTerminal self.old.pool token }
        ensures { IfOk result
            (Moves self.old.pool (λ done. Machine.step
            (Machine.at_operator at (atom_name self.old.pool name) (stack self.old done))
            (terminal_at self.old.pool place token)) self.new) }
    {
        if is_tight_open(token) {
            self.begin_call(at, name)
        } else if let Some(value) = negative(&self.pool, name, token) {
            let term = add_integer(&mut self.pool, value, at)?;
            self.expecting = Expecting::BehindOperand { term };
            Ok(true)
        } else if allows_lone(closing_of(top_item(&self.items), token)) {
            let term = add_atom(&mut self.pool, name, at)?;
            self.close(term, token)
        } else {
            self.begin_prefix(at, name, roles.prefix, token, place)
        }
    }

    /// A token behind a name.
    fn behind_name(
        &mut self,
        at: usize,
        name: AtomId,
        token: Terminal,
        place: usize,
    ) -> Result<bool, NoMemory>
        requires whole { IsWhole self.old }
        requires name { name.number < length self.old.pool.names }
        requires token { IsTerminal self.old.pool token }
        ensures { IfOk result
            (Moves self.old.pool (λ done. Machine.step
            (Machine.after (Some (at, atom_name self.old.pool name)) (stack self.old done)
            (atom (atom_name self.old.pool name) at)) (terminal_at self.old.pool place token))
            self.new) }
    {
        if is_tight_open(token) {
            self.begin_call(at, name)
        } else {
            let term = add_atom(&mut self.pool, name, at)?;
            self.follow(term, token, place)
        }
    }

    /// A token behind an operand that is no name.
    fn behind_operand(
        &mut self,
        operand: TermId,
        token: Terminal,
        place: usize,
    ) -> Result<bool, NoMemory>
        requires whole { IsWhole self.old }
        requires operand { operand.number < length self.old.pool.entries }
        requires token { IsTerminal self.old.pool token }
        ensures { IfOk result
            (Moves self.old.pool (λ done. Machine.step (Machine.after None (stack self.old done)
            (placed_of self.old.pool operand)) (terminal_at self.old.pool place token)) self.new) }
    {
        if is_tight_open(token) {
            Ok(false)
        } else {
            self.follow(operand, token, place)
        }
    }

    /// A token directly behind `[`.
    fn behind_open_list(
        &mut self,
        at: usize,
        token: Terminal,
        place: usize,
    ) -> Result<bool, NoMemory>
        requires whole { IsWhole self.old }
        requires token { IsTerminal self.old.pool token }
        ensures { IfOk result
            (Moves self.old.pool (λ done. Machine.step (Machine.at_list at (stack self.old done))
            (terminal_at self.old.pool place token)) self.new) }
    {
        if is_close_list(token) {
            let term = add_atom(&mut self.pool, NIL, at)?;
            self.expecting = Expecting::BehindOperand { term };
            Ok(true)
        } else {
            let from = self.arguments.len();
            self.items.push(Item::List { place: at, from })?;
            self.operand(token, place)
        }
    }

    /// A token directly behind `{`.
    fn behind_open_curly(
        &mut self,
        at: usize,
        token: Terminal,
        place: usize,
    ) -> Result<bool, NoMemory>
        requires whole { IsWhole self.old }
        requires token { IsTerminal self.old.pool token }
        ensures { IfOk result
            (Moves self.old.pool (λ done. Machine.step (Machine.at_curly_bracket at
            (stack self.old done)) (terminal_at self.old.pool place token)) self.new) }
    {
        if is_close_curly(token) {
            let term = add_named_atom(&mut self.pool, "{}", at)?;
            self.expecting = Expecting::BehindOperand { term };
            Ok(true)
        } else {
            self.items.push(Item::Curly { place: at })?;
            self.operand(token, place)
        }
    }

    /// Reads the token at the place; false where it can't stand there.
    pub(crate) fn step(&mut self, token: Terminal, place: usize) -> Result<bool, NoMemory>
        requires whole { IsWhole self.old }
        requires token { IsTerminal self.old.pool token }
        ensures { IfOk result (Moves self.old.pool (λ done. Machine.step (state self.old done)
            (terminal_at self.old.pool place token)) self.new) }
    {
        match self.expecting {
            Expecting::Operand => self.operand(token, place),
            Expecting::BehindOpenList { place: at } => self.behind_open_list(at, token, place),
            Expecting::BehindOpenCurly { place: at } => self.behind_open_curly(at, token, place),
            Expecting::BehindOperator {
                place: at,
                name,
                roles,
            } => self.behind_operator(at, name, roles, token, place),
            Expecting::BehindName { place: at, name } => self.behind_name(at, name, token, place),
            Expecting::BehindOperand { term } => self.behind_operand(term, token, place),
        }
    }

    /// The operand that a stop would end.
    fn operand_at_stop(&mut self) -> Result<Option<TermId>, NoMemory>
        requires { IsWhole self.old }
        ensures { IfOk result (StandsAtStop self.old self.new) }
    {
        match self.expecting {
            Expecting::BehindName { place, name } => {
                let term = add_atom(&mut self.pool, name, place)?;
                Ok(Some(term))
            }
            Expecting::BehindOperand { term } => Ok(Some(term)),
            Expecting::Operand => Ok(None),
            Expecting::BehindOpenList { place: _ } => Ok(None),
            Expecting::BehindOpenCurly { place: _ } => Ok(None),
            Expecting::BehindOperator {
                place: _,
                name: _,
                roles: _,
            } => Ok(None),
        }
    }

    /// Reads the stop behind a sentence, and gives the sentence's term; `None` where it can't stand there.
    pub(crate) fn stop(&mut self) -> Result<Option<TermId>, NoMemory>
        requires { IsWhole self.old }
        ensures { IfOk result (EndsWith self.old self.new) }
    {
        let Some(operand) = self.operand_at_stop()? else {
            return Ok(None);
        };
        let (term, _) = reduce(&mut self.pool, &mut self.items, None, operand, 0)?;
        if self.items.is_empty() {
            self.arguments.clear();
            self.expecting = Expecting::Operand;
            Ok(Some(term))
        } else {
            Ok(None)
        }
    }

    /// Whether nothing is begun.
    pub(crate) fn is_between(&self) -> bool
        ensures between { IsTrue result → (done : List PlacedTerm) → state self.now done
            ≡ Machine.want (Machine.top done) }
        ensures begun { IsFalse result → (done terms : List PlacedTerm) → state self.now done
            ≡ Machine.want (Machine.top terms) → ⊥ }
    {
        match self.expecting {
            Expecting::Operand => self.items.is_empty(),
            _ => false,
        }
    }
}
