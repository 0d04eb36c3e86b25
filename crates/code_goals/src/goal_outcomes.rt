//! What a machine does next, where it has taken a goal.

ghost use Rattle.std.specs.Prelude.{◌≡◌, ◌<◌, length};
ghost use Rattle.term_pool.specs.PoolInvariant.{IsPool};
ghost use Rattle.code_goals.specs.GoalOutcomes.{next_by};

use code_safety::behind;
use fd_model::kinds::QueryFault;
use term_pool::Pool;
use wam_code::CodeArea;

/// What a machine does next, where it has taken a goal.
#[derive(Clone, Copy)]
pub enum Next {
    /// It goes on at the place.
    On(usize),
    /// It goes back: the current pair of the branch is to be given up.
    Back,
    /// The query ends with a fault.
    Fault(QueryFault),
    /// It writes the term of the first register, and goes on at the place. `show_written` shows the term.
    Write(usize),
    /// It ends a line, and goes on at the place.
    Newline(usize),
}

/// On to the next place where a goal holds, and else back.
#[inline]
pub(crate) fn next_if(code: &CodeArea, at: usize, holds: bool) -> Next
    requires { at < length code.now.code }
    ensures { result ≡ next_by at holds }
{
    if holds {
        Next::On(behind(code, at))
    } else {
        Next::Back
    }
}

/// The pool of the code's atoms.
#[inline]
pub(crate) fn pool_of(code: &CodeArea) -> &Pool
    ensures pool { result.now ≡ code.now.pool }
    ensures valid { IsPool code.now.pool }
{
    let pool = code.pool();
    let _ = pool.atoms();
    pool
}
