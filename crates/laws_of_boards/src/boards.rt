//! What legs make of a board: theorems about the definitions, the contracts of functions that do nothing.

ghost use Rattle.laws_of_boards.specs.Boards.{BoardSweepsAreRuns, BoardTakingsAreRuns, LegsLeaveABoard, LegsLowerTheHour, NextLegsCanBeMade, SweepLegsCanBeMade, WalksGoOn};

/// A leg that can be made leaves a board.
pub fn legs_leave_a_board()
    ensures { LegsLeaveABoard }
{}

/// The next leg of an order of a part can be made.
pub fn next_legs_can_be_made()
    ensures { NextLegsCanBeMade }
{}

/// So can the leg of a part in a sweep.
pub fn sweep_legs_can_be_made()
    ensures { SweepLegsCanBeMade }
{}

/// Each leg lowers what is left in the hour.
pub fn legs_lower_the_hour()
    ensures { LegsLowerTheHour }
{}

/// A run of legs of an order of the hour is its taking.
pub fn board_takings_are_runs()
    ensures { BoardTakingsAreRuns }
{}

/// A run of legs of the hour is its sweep.
pub fn board_sweeps_are_runs()
    ensures { BoardSweepsAreRuns }
{}

/// No number stands twice in a line: behind an order of a line the next one is found.
pub fn walks_go_on()
    ensures { WalksGoOn }
{}
