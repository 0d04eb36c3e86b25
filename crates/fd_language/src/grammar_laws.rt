//! The laws of the grammar of terms.

ghost use Rattle.fd_language.specs.GrammarLaws.{OneReading, OneVerdictOfReading};

/// A list of tokens is at most one list of terms.
pub fn one_reading()
    ensures { OneReading }
{}

/// A text is one thing: sentences, or a first fault of one cause at one place.
pub fn one_verdict()
    ensures { OneVerdictOfReading }
{}
