//! The laws of the grammar of answers.

ghost use Rattle.answer_grammar.specs.Breaks.{OneEnd, NoEndYet};

/// The grammar of answers has one reading: the same bytes and the same end of the connection come to one answer or to
/// one break.
pub fn one_end()
    ensures { OneEnd }
{}

/// Bytes that leave an answer open have no end as long as the talk goes on, so a reader has to take more of them.
pub fn no_end_yet()
    ensures { NoEndYet }
{}
