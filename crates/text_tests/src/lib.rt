//! Tests of the libraries from texts to terms and back, as tables of cases. What a case wants comes from the rules of the language, not from the program's output.
//!
//! A test stands here when it calls only what is public: so a library is proved once, without its tests.
#![tactic(auto)]

#[cfg(test)]
mod assertions;
#[cfg(test)]
mod pools;
#[cfg(test)]
mod sentences;
#[cfg(test)]
mod term_texts;
#[cfg(test)]
mod tokens;
