//! Words of other systems, and what is written in their place.

ghost use Rattle.std.specs.Prelude.{◌≡◌};
ghost use Rattle.clpwhere.specs.ForeignWords.{foreign_word, word_sentence, word_spelling};

/// A word that is an operator, or begins a comment, in another system.
#[derive(Clone, Copy, Debug, PartialEq, Eq)]
pub(crate) enum ForeignWord {
    /// `#==>`
    Implies,
    /// `#<==>`
    Equivalent,
    /// `#\/`
    Or,
    /// `#/\`
    And,
    /// `#\`
    Not,
    /// `\=`
    NotUnified,
    /// `ins`
    Ins,
    /// `<>`
    Unequal,
    /// `!=`
    ExclaimedUnequal,
    /// `#<=`
    PostedAtMost,
    /// `<=`
    AtMost,
    /// `==>`
    Arrow,
    /// `\/`
    Union,
    /// `/\`
    Intersection,
    /// `#`
    Hash,
    /// `//`
    Slashes,
}

/// All of them.
const FOREIGN_WORDS: [ForeignWord; 16] = [
    ForeignWord::Implies,
    ForeignWord::Equivalent,
    ForeignWord::Or,
    ForeignWord::And,
    ForeignWord::Not,
    ForeignWord::NotUnified,
    ForeignWord::Ins,
    ForeignWord::Unequal,
    ForeignWord::ExclaimedUnequal,
    ForeignWord::PostedAtMost,
    ForeignWord::AtMost,
    ForeignWord::Arrow,
    ForeignWord::Union,
    ForeignWord::Intersection,
    ForeignWord::Hash,
    ForeignWord::Slashes,
];

impl ForeignWord {
    /// How it is spelled.
    fn spelling(self) -> &'static str
        ensures { result.now ≡ word_spelling self }
    {
        match self {
            ForeignWord::Implies => "#==>",
            ForeignWord::Equivalent => "#<==>",
            ForeignWord::Or => "#\\/",
            ForeignWord::And => "#/\\",
            ForeignWord::Not => "#\\",
            ForeignWord::NotUnified => "\\=",
            ForeignWord::Ins => "ins",
            ForeignWord::Unequal => "<>",
            ForeignWord::ExclaimedUnequal => "!=",
            ForeignWord::PostedAtMost => "#<=",
            ForeignWord::AtMost => "<=",
            ForeignWord::Arrow => "==>",
            ForeignWord::Union => "\\/",
            ForeignWord::Intersection => "/\\",
            ForeignWord::Hash => "#",
            ForeignWord::Slashes => "//",
        }
    }

    /// The sentence that says what is written in its place.
    pub fn sentence(self) -> &'static str
        ensures { result.now ≡ word_sentence self }
    {
        match self {
            ForeignWord::Implies =>
                "There is no #==> here: make each side a truth value, as in A #<=> X #> 1, and write A #=< B.",
            ForeignWord::Equivalent =>
                "Here it is written #<=>, with a truth value on its left side and a comparison on its right, as in A #<=> X #> 1.",
            ForeignWord::Or =>
                "There is no #\\/ here: make each side a truth value, as in A #<=> X #> 1, and write fd_or(A, B, 1).",
            ForeignWord::And =>
                "There is no #/\\ here: constraints with commas between them all hold, and of truth values A and B write fd_and(A, B, 1).",
            ForeignWord::Not =>
                "There is no #\\ here: write the opposite comparison, or fd_not(A, 1) of a truth value A.",
            ForeignWord::NotUnified =>
                "There is no \\= here: \\+ X = Y asks it now, and X #\\= Y says it of two numbers.",
            ForeignWord::Ins =>
                "There is no ins here: write a clause that goes over the list, with X in R for each member.",
            ForeignWord::Unequal | ForeignWord::ExclaimedUnequal =>
                "Here it is written #\\= for a constraint, and =\\= between known numbers.",
            ForeignWord::PostedAtMost => "Here it is written #=<.",
            ForeignWord::AtMost =>
                "Here it is written =< between known numbers, and #=< for a constraint.",
            ForeignWord::Arrow =>
                "There is no ==> here: an if is C -> A ; B, and of truth values A and B write A #=< B.",
            ForeignWord::Union =>
                "Here the union of two ranges is written with :, as in 1..3 : 5..7.",
            ForeignWord::Intersection =>
                "Here the numbers that two ranges share are written with &, as in 1..5 & 3..7.",
            ForeignWord::Hash => "Here a comment begins with %.",
            ForeignWord::Slashes => "Here a comment begins with %, and // divides known numbers.",
        }
    }
}

/// The one that is spelled so.
pub(crate) fn foreign_word(text: &[u8]) -> Option<ForeignWord>
    ensures { result ≡ foreign_word text.now }
{
    FOREIGN_WORDS
        .iter()
        .copied()
        .find(|word| text == word.spelling().as_bytes())
}
