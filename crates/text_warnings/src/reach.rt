//! The numbers that are reached from the first ones.

ghost use Rattle.std.specs.Prelude.{◌≡◌, ◌<◌, ◌||◌, ℕ, [], length, map, OnOk};
ghost use Rattle.text_warnings.specs.Graphs.{is_in, items_of, leads_to, AreBelow, AreLed, IsFrontOf};

use fd_language::NoMemory;
use indexmap::IndexSet;

/// Puts numbers among the reached ones.
fn insert_all(reached: &mut IndexSet<usize>, numbers: &[usize]) -> Result<(), NoMemory>
    ensures members { OnOk result ((n : ℕ) → is_in reached.new.keys n ≡ (is_in reached.old.keys n
        || is_in numbers.now n)) }
    ensures grown { OnOk result (IsFrontOf reached.old.keys reached.new.keys) }
{
    for number in numbers {
        reached.insert(*number)?;
    }
    Ok(())
}

/// The numbers that one leads to.
fn numbers_at(edges: &[Vec<usize>], number: usize) -> &[usize]
    requires { number < length edges.now }
    ensures { result.now ≡ leads_to (map items_of edges.now) number }
{
    edges[number].as_slice()
}

/// Puts the numbers that are reached from the first ones, each of which leads to those of its list, into the empty set. All are below
/// `edges.len()`.
pub(crate) fn reach(
    starts: &[usize],
    edges: &[Vec<usize>],
    reached: &mut IndexSet<usize>,
) -> Result<(), NoMemory>
    requires none { reached.old.keys ≡ [] }
    requires starts { AreBelow (length edges.now) starts.now }
    requires edges { (n : ℕ) → AreBelow (length edges.now) (leads_to (map items_of edges.now) n) }
    ensures { OnOk result (AreLed starts.now (map items_of edges.now) reached.new.keys) }
{
    insert_all(reached, starts)?;
    for at in 0..edges.len() {
        let Some(number) = reached.get_index(at).copied() else {
            break;
        };
        insert_all(reached, numbers_at(edges, number))?;
    }
    let _count = reached.len();
    Ok(())
}
