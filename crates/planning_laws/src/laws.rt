//! The laws, functions that do nothing.

ghost use Rattle.planning_laws.specs.Laws.{QuestionsAreCarried, QuestionsAreScheduled, QuestionsHaveCauses};
ghost use Rattle.planning_laws.specs.Laws.{QuestionsArePlannedFirst, QuestionsAreShown, QuestionsKeepPlanning};
ghost use Rattle.planning_laws.specs.Witness.{ListingIsMet, NoneAsksBehindRefused};

use s3_outside::Wire;

/// Where the questions of a planning ask for what a command needs, one after the other, behind the answers, and nothing
/// behind the first fault, their jobs keep to the schedule of a planning with those needs, by what the wires show.
/// They show a reply just where a question gained it.
/// A listing of two pages over two lanes, of which the first page's first attempt is lost, meets what this takes,
/// whatever talks bring the pages; questions that go on behind a refused page do not.
pub fn questions_keep_planning<W: Wire>()
    ensures planning { QuestionsKeepPlanning W.seen }
    ensures shown { QuestionsAreShown W.seen }
    ensures met { ListingIsMet }
    ensures refused { NoneAsksBehindRefused }
{}

/// The jobs of a run that only asked questions are carried as the promise of a run says it, and nothing stopped them or
/// gave them again; memory ran out where the setting says so. They keep to the whole schedule, whatever tasks there
/// are: no job of a task was given.
pub fn questions_are_carried<W: Wire>()
    ensures causes { QuestionsHaveCauses W.seen }
    ensures carried { QuestionsAreCarried W.seen }
    ensures scheduled { QuestionsAreScheduled W.seen }
    ensures first { QuestionsArePlannedFirst W.seen }
{}
