//! Laws of contracts without a leg in a sweep: theorems about the definitions, the contracts of functions
//! that do nothing.

ghost use Rattle.laws_of_boards.specs.Quiet.{BlockEntriesStayQuiet, BlockLegsStayQuiet, EntriesStayQuiet, EventsRaiseTheirArcsAlone, EventsStayQuietWhereThereWasRoom, GatesStayQuiet, GrantsStayQuiet, HaltsStayQuiet, LegsStayQuiet, LegsStayQuietApart, OffersStayQuiet, OtherHoursStayQuiet, ReductionsStayQuiet, ResumptionsStayQuiet, TakersLeaveTheirContractQuiet, TakersOfAnHourLeaveTheirContractQuiet, UnopenedContractsStayQuiet, WithdrawalsStayQuiet, WithdrawnTakersLeaveTheirContractQuiet};

/// No event raises the room of an arc in a quarter but a leg and a grant that of the opposite arc, an
/// offer that of its own arc, and a resumption those of both arcs of its border, each in its quarters.
pub fn events_raise_their_arcs_alone()
    ensures { EventsRaiseTheirArcsAlone }
{}

/// A contract that had no leg has none after one more event that neither enters an order of it nor is a
/// leg of it, where no arc got its first room over the contract's quarters.
pub fn unopened_contracts_stay_quiet()
    ensures { UnopenedContractsStayQuiet }
{}

/// A contract that had no leg has none after one more event that neither enters an order of it nor is a
/// leg of it, where each arc had room already in those of its quarters in which the event can raise it.
pub fn events_stay_quiet_where_there_was_room()
    ensures { EventsStayQuietWhereThereWasRoom }
{}

/// A contract that had no leg has none after an event that does not touch its hour.
pub fn other_hours_stay_quiet()
    ensures { OtherHoursStayQuiet }
{}

/// A contract that had no leg has none after a withdrawal.
pub fn withdrawals_stay_quiet()
    ensures { WithdrawalsStayQuiet }
{}

/// A contract that had no leg has none after a reduction.
pub fn reductions_stay_quiet()
    ensures { ReductionsStayQuiet }
{}

/// A contract that had no leg has none after the entry of an order of another contract.
pub fn entries_stay_quiet()
    ensures { EntriesStayQuiet }
{}

/// A contract that had no leg has none after a leg of another contract, where the opposite arc of each
/// arc of its route had room over that other contract.
pub fn legs_stay_quiet()
    ensures { LegsStayQuiet }
{}

/// A contract that had no leg has none after a leg of another contract in none of whose quarters it
/// delivers.
pub fn legs_stay_quiet_apart()
    ensures { LegsStayQuietApart }
{}

/// A contract that had no leg has none after the entry of a block.
pub fn block_entries_stay_quiet()
    ensures { BlockEntriesStayQuiet }
{}

/// A contract that had no leg has none after a leg of blocks, where the opposite arc of each arc of its
/// route had room over the period.
pub fn block_legs_stay_quiet()
    ensures { BlockLegsStayQuiet }
{}

/// A contract that had no leg has none after an offer, where the arc had room in those of the contract's
/// quarters that the offer is for.
pub fn offers_stay_quiet()
    ensures { OffersStayQuiet }
{}

/// A contract that had no leg has none after a grant, where the opposite arc had room in those of the
/// contract's quarters that the grant is for.
pub fn grants_stay_quiet()
    ensures { GrantsStayQuiet }
{}

/// A contract that had no leg has none after a resumption, where both arcs of the border had room in the
/// contract's quarters, or the contract is of none of its hours.
pub fn resumptions_stay_quiet()
    ensures { ResumptionsStayQuiet }
{}

/// A contract that had no leg has none after a halt.
pub fn halts_stay_quiet()
    ensures { HaltsStayQuiet }
{}

/// A contract that had no leg has none after a gate.
pub fn gates_stay_quiet()
    ensures { GatesStayQuiet }
{}

/// A contract that had no leg has none after an order of it entered and took, leg by leg, until it had no
/// next one: whether something of the order is left or nothing.
pub fn takers_leave_their_contract_quiet()
    ensures { TakersLeaveTheirContractQuiet }
{}

/// Nor has it one after what is left of the order is withdrawn.
pub fn withdrawn_takers_leave_their_contract_quiet()
    ensures { WithdrawnTakersLeaveTheirContractQuiet }
{}

/// So it is by the events of an hour alone.
pub fn takers_of_an_hour_leave_their_contract_quiet()
    ensures { TakersOfAnHourLeaveTheirContractQuiet }
{}
