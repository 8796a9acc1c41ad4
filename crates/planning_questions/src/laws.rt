//! The laws of questions, functions that do nothing.

ghost use Rattle.answer_classes.specs.Showing.{Shows};
ghost use Rattle.planning_questions.specs.Planned.{ListingsArePlanned, QuestionsArePlanned};
ghost use Rattle.planning_questions.specs.Traced.{ListingsAreTraced, QuestionsAreTraced};

/// Behind the trace of a run with nothing pending, what [`crate::ask`] and [`crate::list_all`] did makes a trace of a
/// run again, from which it may go on, unless a lane brought a stranger, which is then their answer.
pub fn questions_are_traced()
    ensures asked { QuestionsAreTraced }
    ensures listed { ListingsAreTraced }
{}

/// Where the dispatches of questions show a reply just where their jobs gained it, they are asked as the planning of a
/// run asks for its needs; nothing is asked behind a fault, and the page that was refused is named.
pub fn questions_are_planned()
    ensures asked { QuestionsArePlanned Shows }
    ensures listed { ListingsArePlanned Shows }
{}
