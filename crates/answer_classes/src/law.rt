//! An answer has one class.

ghost use Rattle.s3_model.specs.Classes.{HasOneClass, HasOneReading};
ghost use Rattle.answer_classes.specs.Documents.{ReadsError, ReadsReply};
ghost use Rattle.answer_classes.specs.Showing.{OneShown};

/// A document is one error at most, one reply to a request at most, and not both: their roots differ.
pub fn one_reading()
    ensures { HasOneReading ReadsError ReadsReply }
{}

/// So an answer has one class at most.
pub fn one_class()
    ensures { HasOneClass ReadsError ReadsReply }
{}

/// And a talk shows one class at most, with one body.
pub fn one_shown()
    ensures { OneShown }
{}
