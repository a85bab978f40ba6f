//! The commands that each caller gives.

ghost use Rattle.std.specs.Prelude.{◌≡◌, ◌<◌, ◌∷◌, ◌++◌, [], length, OnOk};
ghost use Rattle.market_text.specs.Commands.{with_commands, commands_of};

use market_model::{Command, Commands, NoMemory, Sequence};
use std::alloc::Global;
use std::marker::Model;

/// For each caller its commands, in order.
#[derive(Drop)]
pub struct CommandLists {
    lists: Vec<Commands>,
}

impl Model for CommandLists {
    ghost use Rattle.std.specs.Prelude.{List};
    ghost use Rattle.market_model.specs.declared.command.Command.{Command};

    ghost Value = { List (List Command) };

    ghost view = { λ lists. lists.lists.items };
}

impl CommandLists {
    /// No caller.
    pub fn new(alloc: Global) -> CommandLists
        ensures { result ≡ [] }
    {
        CommandLists {
            lists: Vec::new(alloc),
        }
    }

    /// Puts a caller at the end that has given no command yet.
    pub fn add_caller(&mut self, alloc: Global) -> Result<(), NoMemory>
        ensures { OnOk result (self.new ≡ self.old ++ [] ∷ []) }
    {
        self.lists.push(Commands::new(alloc))?;
        Ok(())
    }

    /// Puts a command at the end of those of a caller.
    pub fn give_one(&mut self, caller: usize, command: Command) -> Result<(), NoMemory>
        requires { caller < length self.old }
        ensures { OnOk result (self.new ≡ with_commands self.old caller (command ∷ [])) }
    {
        self.lists[caller].push(command)
    }

    /// Puts commands at the end of those of a caller.
    pub fn give(&mut self, caller: usize, commands: Commands) -> Result<(), NoMemory>
        requires { caller < length self.old }
        ensures { OnOk result (self.new ≡ with_commands self.old caller commands) }
    {
        append(&mut self.lists[caller], commands)
    }

    /// How many commands a caller has given.
    pub fn count(&self, caller: usize) -> usize
        requires { caller < length self.now }
        ensures { result ≡ length (commands_of self.now caller) }
    {
        self.lists[caller].len()
    }

    /// The lists as a sequence. It takes no memory.
    pub fn into_sequence(self) -> Sequence<Commands>
        ensures { result ≡ self }
    {
        Sequence::from(self.lists)
    }
}

// Puts commands at the end of a list.
fn append(list: &mut Commands, commands: Commands) -> Result<(), NoMemory>
    ensures { OnOk result (list.new ≡ list.old ++ commands) }
{
    for command in commands.into_vec() {
        list.push(command)?;
    }
    Ok(())
}
