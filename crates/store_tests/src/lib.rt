//! Tests of the store and of what it stands on, by public calls alone.
#![tactic(auto)]

#[cfg(test)]
mod assertions;
#[cfg(test)]
mod codes;
#[cfg(test)]
mod range_codes;
#[cfg(test)]
mod searches;
#[cfg(test)]
mod stores;
#[cfg(test)]
mod trails;
