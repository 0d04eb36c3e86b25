//! Tests of the libraries of sets, ranges and ports, as tables of cases. What a case wants comes from the rules of the language, not from the program's output.
//!
//! A test stands here when it calls only what is public: so a library is proved once, without its tests.
#![tactic(auto)]

#[cfg(test)]
mod assertions;
#[cfg(test)]
mod domains;
#[cfg(test)]
mod ports;
#[cfg(test)]
mod ranges;
#[cfg(test)]
mod verdicts;
