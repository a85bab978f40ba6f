//! Laws of the events of some hours: theorems about the definitions, the contracts of functions that do
//! nothing.

ghost use Rattle.laws_of_market.specs.HourLists.{BlockLinesStandAlone, HoursAnswerAlone, LinesStandAlone, OneHourAnswersAlone, SweepsStandAlone, TakingsStandAlone};

/// After a history, each event of which fits those before it, a command has the reply that it has after the events of the hours that
/// it touches alone.
pub fn hours_answer_alone()
    ensures { HoursAnswerAlone }
{}

/// So a command that touches one hour has the reply that it has after the events of that hour.
pub fn one_hour_answers_alone()
    ensures { OneHourAnswersAlone }
{}

/// The lines of an hour's contracts, and the rooms over their quarters, are those of its events alone.
pub fn lines_stand_alone()
    ensures { LinesStandAlone }
{}

/// The lines of the blocks that start in an hour are those of its events alone.
pub fn block_lines_stand_alone()
    ensures { BlockLinesStandAlone }
{}

/// The legs that an order of an hour takes are those that it takes after the hour's events alone.
pub fn takings_stand_alone()
    ensures { TakingsStandAlone }
{}

/// The legs of an hour's sweep are those after the hour's events alone.
pub fn sweeps_stand_alone()
    ensures { SweepsStandAlone }
{}
