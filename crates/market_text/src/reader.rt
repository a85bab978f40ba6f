//! What was read of a session text so far, and how commands are taken.

ghost use Rattle.std.specs.Prelude.{◌≡◌, ◌<◌, ◌∷◌, ◌++◌, [], length, map, replicate, OnOk, unwrap_or};
ghost use Rattle.market_text.specs.Reading.{IsReading};
ghost use Rattle.market_text.specs.Steps as steps;
ghost use Rattle.market_text.specs.Steps.{Takes};

use crate::callers::CommandLists;
use crate::session::Turns;
use command_lines::{
    ClockTable, LineFault, NameTable, command_of_words, first_word, list_gates, only_word,
};
use contract_calendar::Day;
use market_model::{Command, Commands, NoMemory, Pairs, Role, Sequence};
use market_spelling::{Verb, read_instant, read_verb};
use std::alloc::Global;

/// The most commands of a session.
pub const MOST_COMMANDS: usize = 262144;

/// What the lines so far stand for. The lines come in this order: the day, the zones, the borders,
/// the callers, `begin`, the commands; so which line may come next follows from what is there.
#[derive(Drop)]
pub struct Reader {
    /// The delivery day, once it is read.
    pub day: Option<Day>,
    /// The zones' names.
    pub zones: NameTable,
    /// The two zones of each border.
    pub borders: Pairs,
    /// The callers' names.
    pub callers: NameTable,
    /// What each caller may do.
    pub roles: Sequence<Role>,
    /// Whether `begin` was read.
    pub has_begun: bool,
    /// The commands of each caller.
    pub commands: CommandLists,
    /// The instant of each caller's last clock line.
    pub clocks: ClockTable,
    /// The caller of each command, in the order of the text.
    pub turns: Turns,
}

impl Reader {
    /// Nothing is read yet.
    pub fn new(alloc: Global) -> Reader
        ensures value { result ≡ steps.nothing_read }
        ensures kept { IsReading result }
    {
        Reader {
            day: None,
            zones: NameTable::new(alloc),
            borders: Pairs::new(alloc),
            callers: NameTable::new(alloc),
            roles: Sequence::new(alloc),
            has_begun: false,
            commands: CommandLists::new(alloc),
            clocks: ClockTable::new(alloc),
            turns: Turns::new(alloc),
        }
    }

    /// Reads a line that counts, by its words. After a fault nothing is known of what was read.
    pub fn read_words(&mut self, alloc: Global, words: &[&[u8]]) -> Result<(), LineFault>
        requires { IsReading self.old }
        ensures kept { OnOk result (IsReading self.new) }
        ensures exact { Takes (steps.words_step self.old (map (λ word. word.now) words.now)) self.new result }
    {
        if self.has_begun {
            self.read_command(alloc, words)
        } else {
            self.read_header(alloc, words)
        }
    }

    // Reads the line of a command: the name of a declared caller, a verb, and its words.
    #[tactic(auto, unfolding(crate::specs::Steps::command_step))]
    fn read_command(&mut self, alloc: Global, words: &[&[u8]]) -> Result<(), LineFault>
        requires { IsReading self.old }
        ensures kept { OnOk result (IsReading self.new) }
        ensures exact { Takes (steps.command_step self.old (map (λ word. word.now) words.now)) self.new result }
    {
        let Some((name, words)) = first_word(words) else {
            return Err(LineFault::Bad);
        };
        let Some((verb, words)) = first_word(words) else {
            return Err(LineFault::Bad);
        };
        let Some(caller) = self.callers.place(name) else {
            return Err(LineFault::Bad);
        };
        let Some(verb) = read_verb(verb) else {
            return Err(LineFault::Bad);
        };
        if is_clock(verb) {
            self.read_clock(alloc, caller, words)
        } else {
            self.read_entry(alloc, caller, verb, words)
        }
    }

    // Reads the words after a verb that stands for one command.
    #[tactic(auto, unfolding(crate::specs::Steps::entry_step))]
    fn read_entry(
        &mut self,
        alloc: Global,
        caller: usize,
        verb: Verb,
        words: &[&[u8]],
    ) -> Result<(), LineFault>
        requires reading { IsReading self.old }
        requires known { caller < length self.old.callers }
        ensures kept { OnOk result (IsReading self.new) }
        ensures exact { Takes (steps.entry_step verb caller self.old (map (λ word. word.now) words.now)) self.new result }
    {
        let command = match command_of_words(alloc, &self.zones, verb, words) {
            Ok(command) => command,
            Err(fault) => return Err(fault),
        };
        self.take_one(caller, command)
    }

    // Reads the instant of a clock line, which stands for gates.
    #[tactic(auto, unfolding(crate::specs::Steps::clock_step))]
    fn read_clock(&mut self, alloc: Global, caller: usize, words: &[&[u8]]) -> Result<(), LineFault>
        requires reading { IsReading self.old }
        requires known { caller < length self.old.callers }
        ensures kept { OnOk result (IsReading self.new) }
        ensures exact { Takes (steps.clock_step caller self.old (map (λ word. word.now) words.now)) self.new result }
    {
        let Some(word) = only_word(words) else {
            return Err(LineFault::Bad);
        };
        let Some(day) = self.day else {
            return Err(LineFault::Bad);
        };
        let Some(instant) = read_instant(word) else {
            return Err(LineFault::Bad);
        };
        let last = self.clocks.last(caller);
        let gates = list_gates(alloc, &day, &last, instant)?;
        self.clocks.set(caller, instant);
        self.take(caller, gates)
    }

    // Takes the one command of a line.
    #[tactic(auto, unfolding(crate::specs::Steps::take_commands))]
    fn take_one(&mut self, caller: usize, command: Command) -> Result<(), LineFault>
        requires reading { IsReading self.old }
        requires known { caller < length self.old.callers }
        ensures kept { OnOk result (IsReading self.new) }
        ensures exact { Takes (steps.take_commands self.old caller (command ∷ [])) self.new result }
    {
        if self.turns.len() >= MOST_COMMANDS {
            return Err(LineFault::Bad);
        }
        self.turns.push(caller as u32)?;
        self.commands.give_one(caller, command)?;
        Ok(())
    }

    // Takes the commands of a line.
    #[tactic(auto, unfolding(crate::specs::Steps::take_commands))]
    fn take(&mut self, caller: usize, commands: Commands) -> Result<(), LineFault>
        requires reading { IsReading self.old }
        requires known { caller < length self.old.callers }
        ensures kept { OnOk result (IsReading self.new) }
        ensures exact { Takes (steps.take_commands self.old caller commands) self.new result }
    {
        if commands.len() > MOST_COMMANDS - self.turns.len() {
            return Err(LineFault::Bad);
        }
        add_turns(&mut self.turns, caller as u32, commands.len())?;
        self.commands.give(caller, commands)?;
        Ok(())
    }
}

// Whether a verb is that of a clock line.
fn is_clock(verb: Verb) -> bool
    ensures { result ≡ steps.is_clock verb }
{
    matches!(verb, Verb::Clock)
}

// Puts so many turns of a caller at the end.
fn add_turns(turns: &mut Turns, caller: u32, count: usize) -> Result<(), NoMemory>
    ensures { OnOk result (turns.new ≡ turns.old ++ replicate count caller) }
{
    for turn in 0..count {
        turns.push(caller)?;
    }
    Ok(())
}
