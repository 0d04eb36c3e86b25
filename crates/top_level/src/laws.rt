//! The law of outputs.

ghost use Rattle.top_level.specs.OneOutput.{OneOutput};

/// For all words and each text there is exactly one output, with its status.
pub fn one_output()
    ensures { OneOutput }
{}
