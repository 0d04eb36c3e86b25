//! Names of predicates of other systems, and what serves in their place.

ghost use Rattle.std.specs.Prelude.{◌≡◌};
ghost use Rattle.clpwhere.specs.ForeignNames.{foreign_name, name_sentence, name_spelling};

/// The name of a predicate that another system has built in.
#[derive(Clone, Copy, Debug, PartialEq, Eq)]
pub(crate) enum ForeignName {
    FdDomain,
    Label,
    Labeling,
    AllDifferent,
    AllDistinct,
    Sum,
    TuplesIn,
    Findall,
    Length,
    Append,
    Member,
    Between,
    Nth1,
    Maplist,
    Format,
}

/// All of them.
const FOREIGN_NAMES: [ForeignName; 15] = [
    ForeignName::FdDomain,
    ForeignName::Label,
    ForeignName::Labeling,
    ForeignName::AllDifferent,
    ForeignName::AllDistinct,
    ForeignName::Sum,
    ForeignName::TuplesIn,
    ForeignName::Findall,
    ForeignName::Length,
    ForeignName::Append,
    ForeignName::Member,
    ForeignName::Between,
    ForeignName::Nth1,
    ForeignName::Maplist,
    ForeignName::Format,
];

impl ForeignName {
    /// How it is spelled.
    fn spelling(self) -> &'static str
        ensures { result.now ≡ name_spelling self }
    {
        match self {
            ForeignName::FdDomain => "fd_domain",
            ForeignName::Label => "label",
            ForeignName::Labeling => "labeling",
            ForeignName::AllDifferent => "all_different",
            ForeignName::AllDistinct => "all_distinct",
            ForeignName::Sum => "sum",
            ForeignName::TuplesIn => "tuples_in",
            ForeignName::Findall => "findall",
            ForeignName::Length => "length",
            ForeignName::Append => "append",
            ForeignName::Member => "member",
            ForeignName::Between => "between",
            ForeignName::Nth1 => "nth1",
            ForeignName::Maplist => "maplist",
            ForeignName::Format => "format",
        }
    }

    /// The sentence that says what serves in its place.
    pub fn sentence(self) -> &'static str
        ensures { result.now ≡ name_sentence self }
    {
        match self {
            ForeignName::FdDomain =>
                "Here it is written X in 0..9, and for a list a clause says it of each member.",
            ForeignName::Label => "Here it is written fd_labeling(L).",
            ForeignName::Labeling =>
                "Here it is written fd_labeling(L), fd_labelingff(L) for [ff], and fd_minimize(fd_labeling(L), C) for the least cost.",
            ForeignName::AllDifferent => "Here it is written fd_all_different(L).",
            ForeignName::AllDistinct =>
                "Nothing here is as strong: fd_all_different(L) takes a number from the others once one member has it.",
            ForeignName::Sum =>
                "It isn't built in: library/sums.pl, put in front of the text, has it as fdl_sum(L, S).",
            ForeignName::TuplesIn =>
                "Nothing here does this for a table: fd_element(I, L, X) takes a list of integers.",
            ForeignName::Findall =>
                "There is no findall: each query writes all its answers, and what reads them makes the list.",
            ForeignName::Length
            | ForeignName::Append
            | ForeignName::Member
            | ForeignName::Between =>
                "It isn't built in: library/lists.pl, put in front of the text, has it under a name that begins with fdl_.",
            ForeignName::Nth1 =>
                "It isn't built in: library/lists.pl has fdl_nth(I, L, X), and fd_element(I, L, X) is a constraint.",
            ForeignName::Maplist =>
                "There are no goals in variables: write a clause that goes over the list.",
            ForeignName::Format => "There is no format: write(T) and nl write terms and newlines.",
        }
    }
}

/// The one that is spelled so.
pub(crate) fn foreign_name(text: &[u8]) -> Option<ForeignName>
    ensures { result ≡ foreign_name text.now }
{
    FOREIGN_NAMES
        .iter()
        .copied()
        .find(|name| text == name.spelling().as_bytes())
}
