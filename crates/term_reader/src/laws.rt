//! The laws of the reader.

ghost use Rattle.term_reader.specs.Laws.{EachIsRead};

/// Each text is sentences, or has a first fault.
pub fn each_is_read()
    ensures { EachIsRead }
{}
