//! The law of statements that ask one object by its key, for contracts to cite.
ghost use Rattle.jpa_questions.specs.by_key.Laws.{LawsOfKeys};

/// The law of statements that ask one object by its key; it does nothing. Over a set they give what
/// they give over that object alone, without its pairs, or over none: the same rows, or the same
/// Overflow.
pub fn key_laws()
    ensures { LawsOfKeys }
{}
