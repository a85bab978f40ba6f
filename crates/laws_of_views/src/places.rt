//! What a view takes of the orders of its line.

ghost use Rattle.laws_of_views.specs.Views.{EachPlaceGetsTheMost, EachPlaceInJournalsGetsTheMost, EachPlaceTakesAPlan, ViewsAddUpToTheirBound, ViewsHaveTheirTakersBound, ViewsInJournalsAddUp, ViewsTakeNoMoreThanIsOpen};

/// After a well-formed history a view takes at most 9990 lots for each order or block that is open by
/// its hour. So where no more than 4096 are open, as in every journal, it takes far less than the
/// 4294967295 lots that it asks for.
pub fn views_take_no_more_than_is_open()
    ensures { ViewsTakeNoMoreThanIsOpen }
{}

/// After a well-formed history the lots of a view's rows add up to the bound of the zones that are
/// still in reach when its taking ends: to what the orders of its line show inside them, and the
/// room of the arcs over which energy comes in from outside, or for a sell goes out. Or they are all
/// of the 4294967295 lots that a view asks for.
pub fn views_add_up_to_their_bound()
    ensures { ViewsAddUpToTheirBound }
{}

/// That is the bound that a certificate has for the view's taker, after what the icebergs of the line
/// hide was withdrawn: of an iceberg nothing crosses but what it shows.
pub fn views_have_their_takers_bound()
    ensures { ViewsHaveTheirTakersBound }
{}

/// After a well-formed history, for every number, no flow plan from so many first orders of the line
/// alone is worth more than what the view takes of these, unless it takes all of the 4294967295 lots
/// that it asks for. So nobody's lots are held back for one who stands behind.
pub fn each_place_gets_the_most()
    ensures { EachPlaceGetsTheMost }
{}

/// And what the view takes of these orders is the value of such a flow plan: what is taken of each, over
/// the routes that were chosen. So it is the most that any is worth.
pub fn each_place_takes_a_plan()
    ensures { EachPlaceTakesAPlan }
{}

/// After every journal the lots of a view's rows add up to the bound of the zones that are still in
/// reach when its taking ends.
pub fn views_in_journals_add_up()
    ensures { ViewsInJournalsAddUp }
{}

/// And no flow plan from so many first orders of the line alone is worth more than what the view takes
/// of these.
pub fn each_place_in_journals_gets_the_most()
    ensures { EachPlaceInJournalsGetsTheMost }
{}
