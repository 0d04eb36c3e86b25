//! The slots of a frame in which levels are kept.

ghost use Rattle.std.specs.Prelude.{◌≡◌, suc, ◌+◌, ◌≤◌, ◌^◌, MatchResult};
ghost use Rattle.wam_code.specs.declared.instruction.Code.TheVariants.{EnterTest};
ghost use Rattle.clause_code.specs.Bodies.{in_test};

use fd_language::NoMemory;
use wam_code::Code;

/// The slots from `first` on, before `end`, are for levels. At a goal a cut goes to the slot `cut`, and those from `next` on are free.
#[derive(Clone, Copy)]
pub(crate) struct Levels {
    pub first: usize,
    pub end: usize,
    pub cut: usize,
    pub next: usize,
}

impl Levels {
    /// Those in a test whose cuts go to the slot `cut`: two more slots are taken.
    fn in_test(self, cut: usize) -> Result<Levels, NoMemory>
        ensures { MatchResult result (λ l. l ≡ in_test self cut) (λ _. 2 ^ 64 ≤ self.next + 2) }
    {
        let next = self.next.checked_add(2).ok_or(NoMemory)?;
        Ok(Levels {
            first: self.first,
            end: self.end,
            cut,
            next,
        })
    }

    /// Those in a test without another way.
    pub(crate) fn in_lone_test(self) -> Result<Levels, NoMemory>
        ensures { MatchResult result (λ l. l ≡ in_test self self.next)
            (λ _. 2 ^ 64 ≤ self.next + 2) }
    {
        self.in_test(self.next)
    }

    /// Those in a test with another way, for which there is a choice point: a cut in the test keeps that one.
    pub(crate) fn in_choice(self) -> Result<Levels, NoMemory>
        ensures { MatchResult result (λ l. l ≡ in_test self (suc self.next))
            (λ _. 2 ^ 64 ≤ self.next + 2) }
    {
        self.in_test(self.second()?)
    }

    /// The second one of the next two slots.
    fn second(self) -> Result<usize, NoMemory>
        ensures { MatchResult result (λ n. n ≡ suc self.next) (λ _. 2 ^ 64 ≤ suc self.next) }
    {
        self.next.checked_add(1).ok_or(NoMemory)
    }

    /// The instruction before a test, with the place of the other way.
    pub(crate) fn entering(self, to: usize) -> Result<Code, NoMemory>
        ensures { MatchResult result (λ i. i ≡ EnterTest self.next (suc self.next) to)
            (λ _. 2 ^ 64 ≤ suc self.next) }
    {
        Ok(Code::EnterTest(self.next, self.second()?, to))
    }
}
