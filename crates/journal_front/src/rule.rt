//! The rule of the journal's word, and its steps.

ghost use Rattle.journal_front.specs.Ruled.{IsRuled, committed, learned, looked};
ghost use Rattle.journal_front.specs.Steps.{CommittingKeeps, JoiningKeeps, LearningKeeps, LookingKeeps, MakingKeeps, SplittingKeeps};
ghost use Rattle.journal_front.specs.Views.{first_view, spent_view, view_dealt, view_joined, view_left};

use crate::view::View;
use atomic_table::{Join, Play, Split, TableRule};
use market_model::Setup;
use std::marker::{Brand, PhantomData};

/// The rule of the journal's word.
pub struct JournalRule;

impl TableRule<u8, View, Setup> for JournalRule {
    ghost holds = { IsRuled };

    ghost first = { first_view };
}

/// The first standing in the journal's seat goes to a seat of its own.
pub(crate) struct Deal;

impl Split<View> for Deal {
    ghost left = { view_left };

    ghost right = { view_dealt };
}

/// A seat is joined into the journal's.
pub(crate) struct Gather;

impl Join<View> for Gather {
    ghost both = { view_joined };

    ghost spent = { spent_view };
}

/// A load of the journal's seat.
pub(crate) struct Learn;

impl Play<u8, View> for Learn {
    ghost then = { learned };
}

/// The entry of a commit. Each commit picks it.
pub(crate) trait Written {
    ghost use Rattle.market_model.specs.declared.entry.Entry.{Entry};

    ghost entry: { Entry };
}

impl Written for Brand {
    ghost use Rattle.std.specs.Prelude.{[]};
    ghost use Rattle.market_model.specs.declared.command.Command.TheVariants as command;
    ghost use Rattle.market_model.specs.declared.reply.Reply.TheVariants as reply;

    ghost entry = { record { caller = 0; nth = 0; command = command.Blocks 0 0; reply = reply.Seen [] } };
}

/// An addition of 1 by the journal's seat.
pub(crate) struct Commit<W: Written> {
    written: PhantomData<W>,
}

impl<W: Written> Play<u8, View> for Commit<W> {
    ghost then = { committed W.entry };
}

/// A load of a pass's seat.
pub(crate) struct Look;

impl Play<u8, View> for Look {
    ghost then = { looked };
}

/// Each kind of step that is made on the journal's word keeps the rule, from every state that meets
/// it.
pub fn each_step_keeps_the_rule()
    ensures making { MakingKeeps }
    ensures splitting { SplittingKeeps }
    ensures joining { JoiningKeeps }
    ensures learning { LearningKeeps }
    ensures committing { CommittingKeeps }
    ensures looking { LookingKeeps }
{}
