//! The laws of lines that tell a refusal, of what is read before a place, and of what is written without queries.

ghost use Rattle.std.specs.Prelude.{◌≡◌, ◌↔◌, ℕ, List, Some};
ghost use Rattle.clpwhere.specs.BeforePlace.{IsReadByTokens};
ghost use Rattle.clpwhere.specs.MarkedLines.{IsPlain};
ghost use Rattle.clpwhere.specs.Parts.{TextParts};
ghost use Rattle.clpwhere.specs.Refusals.{refusal_of, Refusal, Tells};

/// A line tells a refusal exactly where it is spelled as `clpfd` spells one: the place in decimal, at most 16,777,216, and the words
/// of a reason.
pub fn told_as_spelled()
    ensures { (line : List ℕ) (r : Refusal) → (refusal_of line ≡ Some r) ↔ Tells line r }
{}

/// What is read before a place is what the tokens of the text tell of it, and nothing is told from the first fault of a text on.
pub fn read_by_tokens()
    ensures { IsReadByTokens }
{}

/// Without the places of queries each line is explained by itself: one that tells a refusal, and no other.
pub fn without_queries()
    ensures { (text : TextParts) (input : List ℕ) → IsPlain text input }
{}
