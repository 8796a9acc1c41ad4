//! The law of times in answers, a function that does nothing.

ghost use Rattle.answer_dates.specs.Dates.{AnswersAreDated};

/// What an answer lists has times before the year 10000, since a time is written with a year of four digits.
pub fn answers_are_dated()
    ensures { AnswersAreDated }
{}
