//! The law of judgements.

ghost use Rattle.answer_check.specs.Laws.{OneJudgement};

/// There is at most one judgement of an input: which answers break which goal first, and whether they rise; or why it is refused.
pub fn one_judgement()
    ensures { OneJudgement }
{}
