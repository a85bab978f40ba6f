//! The steps on the journal's word, place by place.

ghost use Rattle.std.specs.Prelude.{◌≡◌, ◌<◌, ◌≤◌, ◌^◌, ◌++◌, [], ◌∷◌, length};
ghost use Rattle.zone_graph.specs.Route.{IsIn};
ghost use Rattle.journal_front.specs.declared.view.Standing.{Standing};
ghost use Rattle.journal_front.specs.declared.view.View.{View};
ghost use Rattle.journal_front.specs.Ruled.{Holds};
ghost use Rattle.journal_front.specs.Seats.{IsLead, view_in};
ghost use Rattle.journal_front.specs.Steps.{Follows, HasConcerned};
ghost use Rattle.journal_front.specs.Views.{view_dealt, view_grown, view_joined, view_left, view_told};

use crate::rule::{Commit, Deal, Gather, JournalRule, Learn, Look, Written};
use crate::seats::Place;
use crate::view::View;
use atomic_table::{Badge, Shared};
use market_model::{Entry, Setup};

/// The journal's word.
pub(crate) type Word = Shared<u8, View, Setup, JournalRule>;

// The first standing in the journal's place goes to a place of its own.
pub(crate) fn deal(word: &Word, lead: &mut Place) -> Badge<View>
    requires word { word.now.table_id.words ≡ 1 }
    requires place { lead.old.table_id ≡ word.now.table_id }
    requires lead { IsLead lead.old.me }
    requires some { 0 < length lead.old.me.0.standings }
    ensures place { lead.new.table_id ≡ lead.old.table_id }
    ensures lead { lead.new.me ≡ (view_left lead.old.me.0, []) }
    ensures front { result.table_id ≡ lead.old.table_id }
    ensures dealt { result.views ≡ view_dealt lead.old.me.0 ∷ [] }
{
    word.split_seat::<Deal>(lead).into_badge()
}

// Another place is joined into the journal's.
pub(crate) fn gather(word: &Word, lead: &mut Place, badge: Badge<View>)
    requires word { word.now.table_id.words ≡ 1 }
    requires place { lead.old.table_id ≡ word.now.table_id }
    requires lead { IsLead lead.old.me }
    requires front { badge.table_id ≡ word.now.table_id }
    requires badge { (badge.views ≡ view_in badge.views ∷ []) × Follows (view_in badge.views) }
    ensures place { lead.new.table_id ≡ lead.old.table_id }
    ensures lead { lead.new.me ≡ (view_joined lead.old.me.0 (view_in badge.views), []) }
{
    word.join_seat::<Gather>(lead, badge.into_seat());
}

// What the journal's place has fits the journal. The number is the journal's length.
pub(crate) fn learn(word: &Word, lead: &mut Place) -> u64
    requires word { word.now.table_id.words ≡ 1 }
    requires place { lead.old.table_id ≡ word.now.table_id }
    requires lead { IsLead lead.old.me }
    ensures place { lead.new.table_id ≡ lead.old.table_id }
    ensures lead { lead.new.me ≡ lead.old.me }
    ensures length { result ≡ length lead.old.me.0.entries }
    ensures standings { (standing : Standing) → IsIn standing lead.old.me.0.standings → Holds lead.old.me.0.setup lead.old.me.0.entries standing }
{
    word.load::<Learn>(lead, 0)
}

// The entry goes to the end of the journal.
pub(crate) fn add<W: Written>(word: &Word, lead: &mut Place, entry: &Entry)
    requires written { entry.now ≡ W.entry }
    requires word { word.now.table_id.words ≡ 1 }
    requires place { lead.old.table_id ≡ word.now.table_id }
    requires lead { IsLead lead.old.me }
    requires concerned { HasConcerned word.now.key entry.now lead.old.me.0 }
    requires caller { entry.now.caller < length word.now.key.callers }
    requires room { length lead.old.me.0.entries < 2 ^ 31 }
    ensures place { lead.new.table_id ≡ lead.old.table_id }
    ensures lead { lead.new.me ≡ (view_grown entry.now lead.old.me.0, []) }
{
    let _ = entry;
    word.fetch_add::<Commit<W>>(lead, 0, 1);
}

// A number of entries that the journal has, which another place then knows.
pub(crate) fn look(word: &Word, place: &mut Place) -> u64
    requires word { word.now.table_id.words ≡ 1 }
    requires place { place.old.table_id ≡ word.now.table_id }
    requires follows { Follows place.old.me.0 × (place.old.me.1 ≡ []) }
    ensures place { place.new.table_id ≡ place.old.table_id }
    ensures told { place.new.me ≡ (view_told result place.old.me.0, []) }
    ensures least { (standing : Standing) → IsIn standing place.old.me.0.standings → (length standing.entries ≤ result) × (standing.known ≤ result) }
{
    word.load::<Look>(place, 0)
}
