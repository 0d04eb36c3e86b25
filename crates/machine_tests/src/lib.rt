//! Tests of the machine over texts, by public calls alone.
#![tactic(auto)]

#[cfg(test)]
mod assertions;
#[cfg(test)]
mod runs;
