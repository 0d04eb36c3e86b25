//! Where instructions lead.

ghost use Rattle.std.specs.Prelude.{◌≡◌, suc, ◌<◌, length};
ghost use Rattle.code_safety.specs.RepresentedBranch.{went_by, went_to};

use wam_code::CodeArea;

/// Where an instruction leads.
#[derive(Clone, Copy)]
pub enum Went {
    /// To the place to go on at.
    On(usize),
    /// Back: the current pair of the branch is to be given up.
    Back,
}

/// The place behind another one of the code.
#[inline]
pub fn behind(code: &CodeArea, at: usize) -> usize
    requires { at < length code.now.code }
    ensures { result ≡ suc at }
{
    prove!(at < code.parts().code.len());
    at + 1
}

/// Where an instruction leads that has made two cells equal, or could not.
#[inline]
pub fn next_if(code: &CodeArea, at: usize, equal: bool) -> Went
    requires { at < length code.now.code }
    ensures { result ≡ went_by at equal }
{
    if equal {
        Went::On(behind(code, at))
    } else {
        Went::Back
    }
}

/// To a place, or back.
#[inline]
pub fn on_if(to: usize, so: bool) -> Went
    ensures { result ≡ went_to to so }
{
    if so { Went::On(to) } else { Went::Back }
}
