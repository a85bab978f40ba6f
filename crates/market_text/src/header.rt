//! The lines before the commands, and the session at the end.

ghost use Rattle.std.specs.Prelude.{◌≡◌, ◌<◌, ◌≤◌, map, length, IsTrue, IfOk, IfSome, OnOk};
ghost use Rattle.std.specs.List.{list_any};
ghost use Rattle.command_lines.specs.Fault.{Answers};
ghost use Rattle.market_text.specs.Reading.{IsReading};
ghost use Rattle.market_text.specs.Session.{IsSession};
ghost use Rattle.market_text.specs.Steps as steps;
ghost use Rattle.market_text.specs.Steps.{Takes, joins_zones};

use crate::reader::Reader;
use crate::session::Session;
use command_lines::{LineFault, first_word, only_word};
use contract_calendar::Day;
use market_model::{Caller, Callers, NoMemory, Role, Setup, Word};
use market_spelling::{Heading, read_date, read_heading, spells_name};
use std::alloc::Global;
use zone_graph::{MOST_BORDERS, MOST_ZONES};

/// The most callers of a session.
pub const MOST_CALLERS: usize = 64;

impl Reader {
    /// Reads a line before the commands, by its heading.
    #[tactic(auto, unfolding(crate::specs::Steps::header_step))]
    pub fn read_header(&mut self, alloc: Global, words: &[&[u8]]) -> Result<(), LineFault>
        requires { IsReading self.old }
        ensures kept { OnOk result (IsReading self.new) }
        ensures exact { Takes (steps.header_step self.old (map (λ word. word.now) words.now)) self.new result }
    {
        let Some((word, words)) = first_word(words) else {
            return Err(LineFault::Bad);
        };
        let Some(heading) = read_heading(word) else {
            return Err(LineFault::Bad);
        };
        match heading {
            Heading::Day => self.read_day(words),
            Heading::Zone => self.read_zone(alloc, words),
            Heading::Border => self.read_border(words),
            Heading::Trader => self.read_caller(alloc, Role::Trader, words),
            Heading::Operator => self.read_caller(alloc, Role::Operator, words),
            Heading::Begin => self.read_begin(words),
        }
    }

    // `day` and a date, the first line that counts.
    #[tactic(auto, unfolding(crate::specs::Steps::take_day))]
    fn read_day(&mut self, words: &[&[u8]]) -> Result<(), LineFault>
        requires { IsReading self.old }
        ensures kept { OnOk result (IsReading self.new) }
        ensures exact { Takes (steps.take_day self.old (map (λ word. word.now) words.now)) self.new result }
    {
        let Some(word) = only_word(words) else {
            return Err(LineFault::Bad);
        };
        if self.day.is_some() {
            return Err(LineFault::Bad);
        }
        let Some(day) = find_day(word) else {
            return Err(LineFault::Bad);
        };
        self.day = Some(day);
        Ok(())
    }

    // `zone` and a name that no zone has, after the day and before any border or caller.
    #[tactic(auto, unfolding(crate::specs::Steps::take_zone))]
    fn read_zone(&mut self, alloc: Global, words: &[&[u8]]) -> Result<(), LineFault>
        requires { IsReading self.old }
        ensures kept { OnOk result (IsReading self.new) }
        ensures exact { Takes (steps.take_zone self.old (map (λ word. word.now) words.now)) self.new result }
    {
        let Some(name) = only_word(words) else {
            return Err(LineFault::Bad);
        };
        if !self.may_add_zone(name) {
            return Err(LineFault::Bad);
        }
        self.zones.declare(alloc, name)?;
        Ok(())
    }

    // Whether a zone of this name may be declared now.
    #[tactic(auto, unfolding(crate::specs::Steps::may_add_zone))]
    fn may_add_zone(&self, name: &[u8]) -> bool
        ensures { result ≡ steps.may_add_zone self.now name.now }
    {
        self.day.is_some()
            && self.borders.is_empty()
            && self.callers.len() == 0
            && self.zones.len() < MOST_ZONES
            && spells_name(name)
            && self.zones.place(name).is_none()
    }

    // `border` and two declared zones that no border joins yet, before any caller.
    #[tactic(auto, unfolding(crate::specs::Steps::take_border))]
    fn read_border(&mut self, words: &[&[u8]]) -> Result<(), LineFault>
        requires { IsReading self.old }
        ensures kept { OnOk result (IsReading self.new) }
        ensures exact { Takes (steps.take_border self.old (map (λ word. word.now) words.now)) self.new result }
    {
        let Some(ends) = self.new_ends(words) else {
            return Err(LineFault::Bad);
        };
        self.borders.push(ends)?;
        Ok(())
    }

    // The two zones of a border that may be declared now.
    #[tactic(auto, unfolding(crate::specs::Steps::new_ends))]
    fn new_ends(&self, words: &[&[u8]]) -> Option<(u32, u32)>
        requires { length self.now.zones ≤ 64 }
        ensures value { result ≡ steps.new_ends self.now (map (λ word. word.now) words.now) }
        ensures few { IfSome result (λ _. length self.now.borders < 128) }
        ensures one { IfSome result (λ ends. ends.0 < length self.now.zones) }
        ensures other { IfSome result (λ ends. ends.1 < length self.now.zones) }
    {
        let (one, words) = first_word(words)?;
        let other = only_word(words)?;
        let one = self.zones.place(one)?;
        let other = self.zones.place(other)?;
        if !self.may_join(one as u32, other as u32) {
            return None;
        }
        Some((one as u32, other as u32))
    }

    // Whether a border between two zones may be declared now.
    #[tactic(auto, unfolding(crate::specs::Steps::may_join))]
    fn may_join(&self, one: u32, other: u32) -> bool
        ensures value { result ≡ steps.may_join self.now one other }
        ensures few { IsTrue result → length self.now.borders < 128 }
    {
        self.callers.len() == 0
            && self.borders.len() < MOST_BORDERS
            && one != other
            && !joins(self.borders.as_slice(), one, other)
    }

    // `trader` or `operator` and a name that no caller has, after the zones.
    #[tactic(auto, unfolding(crate::specs::Steps::take_caller))]
    fn read_caller(&mut self, alloc: Global, role: Role, words: &[&[u8]]) -> Result<(), LineFault>
        requires { IsReading self.old }
        ensures kept { OnOk result (IsReading self.new) }
        ensures exact { Takes (steps.take_caller role self.old (map (λ word. word.now) words.now)) self.new result }
    {
        let Some(name) = only_word(words) else {
            return Err(LineFault::Bad);
        };
        if !self.may_add_caller(name) {
            return Err(LineFault::Bad);
        }
        self.callers.declare(alloc, name)?;
        self.roles.push(role)?;
        self.commands.add_caller(alloc)?;
        self.clocks.add_caller()?;
        Ok(())
    }

    // Whether a caller of this name may be declared now.
    #[tactic(auto, unfolding(crate::specs::Steps::may_add_caller))]
    fn may_add_caller(&self, name: &[u8]) -> bool
        ensures { result ≡ steps.may_add_caller self.now name.now }
    {
        self.zones.len() > 0
            && self.callers.len() < MOST_CALLERS
            && spells_name(name)
            && self.callers.place(name).is_none()
    }

    // `begin`, after the zones.
    #[tactic(auto, unfolding(crate::specs::Steps::take_begin))]
    fn read_begin(&mut self, words: &[&[u8]]) -> Result<(), LineFault>
        requires { IsReading self.old }
        ensures kept { OnOk result (IsReading self.new) }
        ensures exact { Takes (steps.take_begin self.old (map (λ word. word.now) words.now)) self.new result }
    {
        if !words.is_empty() || self.zones.len() == 0 {
            return Err(LineFault::Bad);
        }
        self.has_begun = true;
        Ok(())
    }

    /// The session, where the text ends after `begin`.
    #[tactic(auto, unfolding(crate::specs::Steps::session_of))]
    pub fn finish(self, alloc: Global) -> Result<Session, LineFault>
        requires { IsReading self }
        ensures shape { IfOk result IsSession }
        ensures exact { Answers (steps.session_of self) result }
    {
        let Some(day) = self.day else {
            return Err(LineFault::Bad);
        };
        if !self.has_begun {
            return Err(LineFault::Bad);
        }
        let zones = self.zones.words(alloc)?;
        let callers = self.list_callers(alloc)?;
        let hours = day.hours();
        let Reader {
            day: _,
            zones: _,
            borders,
            callers: _,
            roles: _,
            has_begun: _,
            commands,
            clocks: _,
            turns,
        } = self;
        Ok(Session {
            setup: Setup {
                hours,
                zones,
                borders,
                callers,
            },
            commands: commands.into_sequence(),
            turns,
        })
    }

    // The callers, each with as much room in the journal as it has commands.
    fn list_callers(&self, alloc: Global) -> Result<Callers, NoMemory>
        requires { IsReading self.now }
        ensures names { IfOk result (λ callers. map (λ caller. caller.name) callers ≡ self.now.callers) }
        ensures roles { IfOk result (λ callers. map (λ caller. caller.role) callers ≡ self.now.roles) }
        ensures rooms { IfOk result (λ callers. map (λ caller. caller.room) callers ≡ map length self.now.commands) }
    {
        let mut callers = Callers::new(alloc);
        let roles = self.roles.as_slice();
        for caller in 0..self.callers.len() {
            callers.push(Caller {
                name: Word::new(alloc, self.callers.name(caller))?,
                role: roles[caller],
                room: self.commands.count(caller) as u32,
            })?;
        }
        Ok(callers)
    }
}

// The delivery day of a date.
#[tactic(auto, unfolding(crate::specs::Steps::day_of_word))]
fn find_day(word: &[u8]) -> Option<Day>
    ensures { result ≡ steps.day_of_word word.now }
{
    let date = read_date(word)?;
    match Day::new(date) {
        Ok(day) => Some(day),
        Err(_) => None,
    }
}

// Whether one of these borders joins the two zones.
fn joins(borders: &[(u32, u32)], one: u32, other: u32) -> bool
    ensures { result ≡ list_any (joins_zones one other) borders.now }
{
    borders.iter().any(|ends| {
        (ends.0 == one && ends.1 == other) || (ends.0 == other && ends.1 == one)
    })
}
