//! The code of small texts against listings made by hand.
#![tactic(auto)]

#[cfg(test)]
mod listings;
