//! Tables of texts, each with all that a run writes for it, and of words, with what they ask for.
#![tactic(auto)]

#[cfg(test)]
mod assertions;
#[cfg(test)]
mod runs;
#[cfg(test)]
mod words;
