//! The text of the generator.

ghost use Rattle.std.specs.Prelude.{◌≡◌, ◌≤◌, IfOk, string_bytes};
ghost use Rattle.fd_model.specs.Generator.{queens_text as queens_bytes};

use fd_language::NoMemory;
use itoa::Buffer;
use std::alloc::Global;

/// The text up to the name of the first queen.
const CLAUSES: &str = "safe([]).
safe([Q|Qs]) :- apart(Q, Qs, 1), safe(Qs).
apart(Q, [], D).
apart(Q, [R|Rs], D) :- Q #\\= R, Q #\\= R + D, Q #\\= R - D, E is D + 1, apart(Q, Rs, E).
range([], N).
range([Q|Qs], N) :- Q in 1..N, range(Qs, N).
?- L = [_Q1";

/// The text that places n queens on a board of n by n.
pub fn queens_text(alloc: Global, n: u32) -> Result<String, NoMemory>
    requires least { 4 ≤ n }
    requires most { n ≤ 12 }
    ensures { IfOk result (λ text. string_bytes text ≡ queens_bytes n) }
{
    let mut number = Buffer::new();
    let mut text = String::from_str(alloc, CLAUSES)?;
    for k in 2..n + 1 {
        text.push_str(",_Q")?;
        text.push_str(number.format(k))?;
    }
    text.push_str("], range(L, ")?;
    text.push_str(number.format(n))?;
    text.push_str("), safe(L), fd_labeling(L).\n")?;
    Ok(text)
}
