//! What the rules of the books come to: worked figures, and that each call has one outcome.
#![tactic(auto)]

ghost use Rattle.cases.specs.Sure.{MovesHaveOneOutcome};
ghost use Rattle.cases.specs.Worked.{WorkedFigures};

/// A promise, which a caller may cite: the worked figures hold of the very definitions that the books' contracts cite.
pub fn worked_figures_hold()
    ensures figures { WorkedFigures }
{}

/// A promise, which a caller may cite: what a book means, the account and the sum leave one answer to a take or a put, and
/// one meaning after it.
pub fn moves_have_one_outcome()
    ensures outcome { MovesHaveOneOutcome }
{}
