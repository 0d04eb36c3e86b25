//! Atoms and terms of a pool by their numbers.

ghost use Rattle.std.specs.Prelude.{◌≡◌, ◌<◌, ◌≤◌, length, IfOk};
ghost use Rattle.term_pool.specs.PoolInvariant.{IsWithin, shape_of};

use crate::assertions::same;
use std::process::Abort;
use std::test::Fail;
use term_pool::{AtomId, CONS, NIL, Node, Pool, SPAN, TermId};

/// The number of the atom with this name.
fn number(pool: &mut Pool, name: &str) -> Result<usize, Fail> {
    Ok(pool.atom(name)?.number)
}

/// The name of an atom, or nothing where the pool has no such atom.
fn name(pool: &Pool, atom: AtomId) -> &str {
    if atom.number < pool.atoms() {
        pool.name_of(atom)
    } else {
        ""
    }
}

/// Names, and the numbers that they get one after another.
const NUMBERS: &[(&str, usize)] = &[
    ("[]", 0),
    (".", 1),
    ("..", 2),
    ("dig", 3),
    ("Dig", 4),
    ("dig", 3),
    ("..", 2),
];

#[test]
fn equal_texts_have_equal_numbers(rt: HostRuntime) -> Result<(), Fail> {
    let mut pool = Pool::new(rt.alloc())?;
    for (text, want) in NUMBERS {
        let found = number(&mut pool, text)?;
        same(&rt, found, *want, text);
    }
    let count = pool.atoms();
    same(&rt, count, 5, "atoms");
    Ok(())
}

#[test]
fn three_atoms_have_constants(rt: HostRuntime) -> Result<(), Fail> {
    let pool = Pool::new(rt.alloc())?;
    same(&rt, name(&pool, NIL), "[]", "NIL");
    same(&rt, name(&pool, CONS), ".", "CONS");
    same(&rt, name(&pool, SPAN), "..", "SPAN");
    Ok(())
}

/// What the top of a term is, with the numbers of its atom and of its parts.
fn top(pool: &Pool, t: TermId) -> (i64, usize, usize)
    requires { t.number < length pool.now.entries }
{
    match pool.view(t) {
        Node::Var(_) => (-7, 0, 0),
        Node::Int(integer) => (integer, 0, 0),
        Node::Atom(atom) => (0, atom.number, 0),
        Node::Comp(atom, [.., last]) => (1, atom.number, last.number),
        Node::Comp(atom, []) => (2, atom.number, 0),
    }
}

/// A node put into the pool, where it has to be at its place and show what is wanted.
fn put(
    rt: &impl Abort,
    pool: &mut Pool,
    node: Node<'_>,
    place: usize,
    want: (i64, usize, usize),
) -> Result<TermId, Fail>
    requires { IsWithin (length pool.old.names) (length pool.old.entries) (shape_of node) }
    ensures id { IfOk result (λ t. t.number < length pool.new.entries) }
    ensures names { length pool.new.names ≡ length pool.old.names }
    ensures entries { length pool.old.entries ≤ length pool.new.entries }
{
    let t = pool.add(node, place)?;
    let found = (pool.place(t), top(pool, t));
    same(rt, found, (place, want), "a term");
    Ok(t)
}

#[test]
fn shows_a_term_with_its_parts(rt: HostRuntime) -> Result<(), Fail> {
    let mut pool = Pool::new(rt.alloc())?;
    let variable = put(&rt, &mut pool, Node::Var(7), 2, (-7, 0, 0))?;
    let integer = put(&rt, &mut pool, Node::Int(-1), 6, (-1, 0, 0))?;
    let node = Node::Comp(CONS, &[variable, integer]);
    put(&rt, &mut pool, node, 0, (1, 1, 1))?;
    Ok(())
}
