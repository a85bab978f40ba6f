//! Commands that are still to be given.

ghost use Rattle.std.specs.Prelude.{◌≡◌, ◌<◌, ◌∷◌, [], IfOk, length, slice_set};
ghost use Rattle.market_text.specs.Commands.{commands_of};

use market_model::Command;
use market_text::PerCaller;
use std::alloc::Global;
use std::marker::Model;
use std::vec::IntoIter;
use zone_graph::NoMemory;

/// The commands that each caller has still to give, in its order. Contracts see a list of them for each caller.
#[derive(Drop)]
pub struct Waiting {
    callers: Vec<IntoIter<Command>>,
}

impl Model for Waiting {
    ghost use Rattle.std.specs.Prelude.{List, map};
    ghost use Rattle.std.specs.Vec.Iter.{into_iter_items};
    ghost use Rattle.market_model.specs.declared.command.Command.{Command as CommandValue};

    ghost Value = { List (List CommandValue) };

    ghost view = { λ waiting. map into_iter_items waiting.callers.items };
}

impl Waiting {
    /// All commands of each caller. None is copied.
    ///
    /// # Errors
    ///
    /// [`NoMemory`] where memory runs out.
    pub fn new(alloc: Global, commands: PerCaller) -> Result<Waiting, NoMemory>
        ensures { IfOk result (λ waiting. waiting ≡ commands) }
    {
        let mut callers = Vec::with_capacity(alloc, commands.len())?;
        for own in commands.into_vec() {
            callers.push(own.into_vec().into_iter())?;
        }
        Ok(Waiting { callers })
    }

    /// Takes the next command of a caller, which has one.
    pub fn next(&mut self, caller: usize) -> Command
        requires known { caller < length self.old }
        requires some { 0 < length (commands_of self.old caller) }
        ensures next { commands_of self.old caller ≡ result ∷ commands_of self.new caller }
        ensures others { self.new ≡ slice_set self.old caller (commands_of self.new caller) }
    {
        match self.callers[caller].next() {
            Some(command) => command,
            None => unreachable!(),
        }
    }
}
