//! Laws of what is written.

ghost use Rattle.term_writer.specs.QuoteRoundTrip.{QuotedIsRead};
ghost use Rattle.term_writer.specs.SpelledTerms.{SpelledIsRead};
ghost use Rattle.term_writer.specs.TextReadings.{WrittenIsRead};

/// The tokens that spell a term derive it again, where each compound has an argument.
pub fn spelled_is_read()
    ensures { SpelledIsRead }
{}

/// A name in quotes is read as one token that spells the name.
pub fn quoted_is_read()
    ensures { QuotedIsRead }
{}

/// The tokens of what `write_term` writes in mode `Quoted` derive the term, and with ` .` behind it, it is one sentence of that term.
///
/// Places differ, and variables are numbered anew by their texts. Names must be UTF-8, integers without their sign at most 2^63 - 1,
/// variables' texts those of variables other than `_`; each compound has an argument, none is named `[]`, and `{}` has one.
pub fn written_is_read()
    ensures { WrittenIsRead }
{}
