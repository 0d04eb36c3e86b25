//! The reasons of refusals.

ghost use Rattle.std.specs.Prelude.{◌≡◌};
ghost use Rattle.clpwhere.specs.Reasons.{is_told_by, names_functor, reason_of, reason_words};

use crate::functors::is_functor;
use crate::refusal::behind;

/// Why a text is refused.
#[derive(Clone, Copy, Debug, PartialEq, Eq)]
pub(crate) enum Reason {
    /// It has too many bytes.
    TooLarge,
    /// Its bytes are not UTF-8.
    NotUtf8,
    /// A character starts no token.
    BadCharacter,
    /// A quote isn't closed.
    OpenQuote,
    /// A comment isn't closed.
    OpenComment,
    /// An escape in a quoted name spells no character.
    BadEscape,
    /// An integer has more than 63 bits.
    IntegerTooWide,
    /// A number has a fraction.
    FloatOut,
    /// A text stands in double quotes.
    StringOut,
    /// The grammar doesn't go on here.
    Syntax,
    /// Too many brackets are open.
    TooDeep,
    /// A compound term has too many arguments.
    ArityOver255,
    /// A head is none that a clause may have.
    BadHead,
    /// A head is a form of the language.
    Redefines,
    /// A goal is none that a body may have.
    BadGoal,
    /// Nothing has the name of a goal.
    Unknown,
    /// A part fits nowhere in a range.
    NotARange,
    /// A value could go past 126 bits.
    TooWide,
    /// A range can grow when domains shrink.
    NotMonotone,
    /// A difference or a literal below 0 where a natural number is asked for.
    NotNatural,
    /// A literal divisor is below 1, or a divisor is neither literal nor parameter.
    BadDivisor,
}

/// All reasons.
const REASONS: [Reason; 21] = [
    Reason::TooLarge,
    Reason::NotUtf8,
    Reason::BadCharacter,
    Reason::OpenQuote,
    Reason::OpenComment,
    Reason::BadEscape,
    Reason::IntegerTooWide,
    Reason::FloatOut,
    Reason::StringOut,
    Reason::Syntax,
    Reason::TooDeep,
    Reason::ArityOver255,
    Reason::BadHead,
    Reason::Redefines,
    Reason::BadGoal,
    Reason::Unknown,
    Reason::NotARange,
    Reason::TooWide,
    Reason::NotMonotone,
    Reason::NotNatural,
    Reason::BadDivisor,
];

impl Reason {
    /// How it is told, without the name and the number of arguments that stand behind some.
    fn words(self) -> &'static str
        ensures { result.now ≡ reason_words self }
    {
        match self {
            Reason::TooLarge => "too large",
            Reason::NotUtf8 => "not UTF-8",
            Reason::BadCharacter => "bad character",
            Reason::OpenQuote => "open quote",
            Reason::OpenComment => "open comment",
            Reason::BadEscape => "bad escape",
            Reason::IntegerTooWide => "integer too wide",
            Reason::FloatOut => "float",
            Reason::StringOut => "string",
            Reason::Syntax => "syntax",
            Reason::TooDeep => "too deep",
            Reason::ArityOver255 => "arity over 255",
            Reason::BadHead => "bad head",
            Reason::Redefines => "redefines ",
            Reason::BadGoal => "bad goal",
            Reason::Unknown => "unknown ",
            Reason::NotARange => "not a range",
            Reason::TooWide => "too wide",
            Reason::NotMonotone => "not monotone",
            Reason::NotNatural => "not natural",
            Reason::BadDivisor => "bad divisor",
        }
    }

    /// Whether the words are those of this reason and behind them a name with a number of arguments.
    fn names_functor(self, words: &[u8]) -> bool
        ensures { result ≡ names_functor words.now self }
    {
        match behind(self.words().as_bytes(), words) {
            Some(functor) => is_functor(functor),
            None => false,
        }
    }

    /// Whether these words tell it.
    fn is_told_by(self, words: &[u8]) -> bool
        ensures { result ≡ is_told_by words.now self }
    {
        match self {
            Reason::Redefines | Reason::Unknown => self.names_functor(words),
            _ => words == self.words().as_bytes(),
        }
    }
}

/// The reason that these words tell.
pub(crate) fn reason_of(words: &[u8]) -> Option<Reason>
    ensures { result ≡ reason_of words.now }
{
    REASONS
        .iter()
        .copied()
        .find(|reason| reason.is_told_by(words))
}
