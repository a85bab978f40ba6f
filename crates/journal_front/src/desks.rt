//! The seats of desks are joined into the journal's, and come back from it.

ghost use Rattle.std.specs.Prelude.{◌≡◌, ℕ, ◌<◌, ◌≤◌, ◌^◌, ◌++◌, [], ◌∷◌, length, map, true, Some, slice_get, slice_set};
ghost use Rattle.zone_graph.specs.Route.{IsIn};
ghost use Rattle.journal_front.specs.declared.seats.DeskSeat.{DeskSeat};
ghost use Rattle.market_model.specs.declared.who.Who.TheVariants as who;
ghost use Rattle.market_model.specs.Concerned.{IsCurrent};
ghost use Rattle.journal_front.specs.Fronts.{IsDeskOf, desk_of};
ghost use Rattle.journal_front.specs.Seats.{IsDeskPlace, IsLead, desk_standing, desk_state, hours_of, standing_of_desk};
ghost use Rattle.journal_front.specs.Views.{lead_view, seat_view, with_standings};

use crate::hours::HourSeats;
use crate::places::{Word, deal, gather, learn};
use crate::seats::{DeskSeat, Place};
use crate::view::View;
use atomic_table::Badge;

// Takes the seat at a place out of it.
fn leave<H: HourSeats>(hours: &mut H, i: usize) -> Badge<View>
    requires { (seat : DeskSeat) × (slice_get (H.seats hours.old) i ≡ Some seat) × (seat.here ≡ true) }
    ensures badge { (seat : DeskSeat) → slice_get (H.seats hours.old) i ≡ Some seat → (result.table_id ≡ seat.front) × (result.views ≡ seat_view seat.setup (standing_of_desk seat) ∷ []) }
    ensures hours { hours_of (H.seats hours.new) ≡ hours_of (H.seats hours.old) }
    ensures others { (away : DeskSeat) × (H.seats hours.new ≡ slice_set (H.seats hours.old) i away) }
    ensures rest { H.rest hours.new ≡ H.rest hours.old }
{
    hours.seat_mut(i).leave()
}

// Puts a seat into its place.
fn come_back<H: HourSeats>(hours: &mut H, i: usize, badge: Badge<View>)
    requires { (seat : DeskSeat) × (slice_get (H.seats hours.old) i ≡ Some seat) × IsDeskPlace seat.hour badge.views }
    ensures seats { (seat : DeskSeat) → slice_get (H.seats hours.old) i ≡ Some seat → H.seats hours.new ≡ slice_set (H.seats hours.old) i (desk_state badge.table_id seat.hour badge.views) }
    ensures rest { H.rest hours.new ≡ H.rest hours.old }
{
    hours.seat_mut(i).come_back(badge);
}

// The seats are joined into the journal's place, each behind those before it.
pub(crate) fn gather_desks<H: HourSeats>(word: &Word, lead: &mut Place, hours: &mut H)
    requires word { word.now.table_id.words ≡ 1 }
    requires place { lead.old.table_id ≡ word.now.table_id }
    requires lead { IsLead lead.old.me }
    requires desks { (seat : DeskSeat) → IsIn seat (H.seats hours.old) → (seat.front ≡ word.now.table_id) × (seat.here ≡ true) }
    ensures place { lead.new.table_id ≡ lead.old.table_id }
    ensures lead { lead.new.me ≡ (with_standings lead.old.me.0 (lead.old.me.0.standings ++ map standing_of_desk (H.seats hours.old)), []) }
    ensures hours { hours_of (H.seats hours.new) ≡ hours_of (H.seats hours.old) }
    ensures rest { H.rest hours.new ≡ H.rest hours.old }
{
    for i in 0..hours.len() {
        let badge = leave(hours, i);
        gather(word, lead, badge);
    }
}

// The seats come back from the journal's place, each with the standing that is first there.
pub(crate) fn deal_desks<H: HourSeats>(word: &Word, lead: &mut Place, hours: &mut H)
    requires word { word.now.table_id.words ≡ 1 }
    requires place { lead.old.table_id ≡ word.now.table_id }
    requires lead { IsLead lead.old.me }
    requires standings { lead.old.me.0.standings ≡ map (λ hour. desk_standing hour lead.old.me.0.entries) (hours_of (H.seats hours.old)) }
    requires hours { (hour : ℕ) → IsIn hour (hours_of (H.seats hours.old)) → (1 ≤ hour) × (hour ≤ lead.old.me.0.setup.hours) }
    requires short { length lead.old.me.0.entries ≤ 2 ^ 31 }
    ensures place { lead.new.table_id ≡ lead.old.table_id }
    ensures lead { lead.new.me ≡ (with_standings lead.old.me.0 [], []) }
    ensures seats { H.seats hours.new ≡ map (desk_of (record { id = lead.old.table_id; setup = lead.old.me.0.setup }) lead.old.me.0.entries) (hours_of (H.seats hours.old)) }
    ensures rest { H.rest hours.new ≡ H.rest hours.old }
{
    for i in 0..hours.len() {
        let badge = deal(word, lead);
        come_back(hours, i, badge);
    }
}

// Learns how a seat stands to the journal: it is joined into the journal's place, and comes back from it.
fn compare_seat(word: &Word, lead: &mut Place, seat: &mut DeskSeat)
    requires word { word.now.table_id.words ≡ 1 }
    requires place { lead.old.table_id ≡ word.now.table_id }
    requires lead { lead.old.me ≡ (lead_view lead.old.me.0.setup lead.old.me.0.entries [], []) }
    requires front { seat.old.front ≡ word.now.table_id }
    requires setup { seat.old.setup ≡ lead.old.me.0.setup }
    requires here { seat.old.here ≡ true }
    ensures place { lead.new.table_id ≡ lead.old.table_id }
    ensures lead { lead.new.me ≡ lead.old.me }
    ensures current { IsCurrent lead.old.me.0.setup (who.Hour seat.old.hour) seat.old.entries lead.old.me.0.entries }
    ensures seat { seat.new ≡ seat.old }
{
    // It shows that the hour is one of the setup's, and that the list is not too long.
    let _ = seat.hour();
    gather(word, lead, seat.leave());
    learn(word, lead);
    let badge = deal(word, lead);
    seat.come_back(badge);
}

// The same for the seat at a place.
fn compare_at<H: HourSeats>(word: &Word, lead: &mut Place, hours: &mut H, i: usize)
    requires word { word.now.table_id.words ≡ 1 }
    requires place { lead.old.table_id ≡ word.now.table_id }
    requires lead { lead.old.me ≡ (lead_view lead.old.me.0.setup lead.old.me.0.entries [], []) }
    requires within { i < length (H.seats hours.old) }
    requires own { (seat : DeskSeat) → slice_get (H.seats hours.old) i ≡ Some seat → IsDeskOf (record { id = word.now.table_id; setup = lead.old.me.0.setup }) seat }
    ensures place { lead.new.table_id ≡ lead.old.table_id }
    ensures lead { lead.new.me ≡ lead.old.me }
    ensures current { (seat : DeskSeat) → slice_get (H.seats hours.old) i ≡ Some seat → IsCurrent lead.old.me.0.setup (who.Hour seat.hour) seat.entries lead.old.me.0.entries }
    ensures seats { H.seats hours.new ≡ H.seats hours.old }
    ensures rest { H.rest hours.new ≡ H.rest hours.old }
{
    compare_seat(word, lead, hours.seat_mut(i));
}

// The same for each seat.
pub(crate) fn compare_desks<H: HourSeats>(word: &Word, lead: &mut Place, hours: &mut H)
    requires word { word.now.table_id.words ≡ 1 }
    requires place { lead.old.table_id ≡ word.now.table_id }
    requires lead { lead.old.me ≡ (lead_view lead.old.me.0.setup lead.old.me.0.entries [], []) }
    requires own { (seat : DeskSeat) → IsIn seat (H.seats hours.old) → IsDeskOf (record { id = word.now.table_id; setup = lead.old.me.0.setup }) seat }
    ensures place { lead.new.table_id ≡ lead.old.table_id }
    ensures lead { lead.new.me ≡ lead.old.me }
    ensures current { (seat : DeskSeat) → IsIn seat (H.seats hours.old) → IsCurrent lead.old.me.0.setup (who.Hour seat.hour) seat.entries lead.old.me.0.entries }
    ensures seats { H.seats hours.new ≡ H.seats hours.old }
    ensures rest { H.rest hours.new ≡ H.rest hours.old }
{
    for i in 0..hours.len() {
        compare_at(word, lead, hours, i);
    }
}
