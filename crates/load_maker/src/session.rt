//! The text of a generated session.

ghost use Rattle.std.specs.Prelude.{◌≡◌, ◌<◌, ◌≤◌, ◌++◌, length, codes, string_bytes, IfOk, OnOk};
ghost use Rattle.load_maker.specs.Lines.{line_of};
ghost use Rattle.load_maker.specs.Session as sessions;

use crate::commands::draw_command;
use crate::drawn_lines::Given;
use crate::draws::Draws;
use std::alloc::Global;
use std::fmt::Write;
use zone_graph::{NoMemory, Text};

// What stands before the commands: a day of 24 hours, twelve zones in a ring that eight more
// borders cross, six traders and one operator.
const HEADER: &str = "\
    day 2025-06-17\n\
    zone Z01\nzone Z02\nzone Z03\nzone Z04\nzone Z05\nzone Z06\n\
    zone Z07\nzone Z08\nzone Z09\nzone Z10\nzone Z11\nzone Z12\n\
    border Z01 Z02\nborder Z02 Z03\nborder Z03 Z04\nborder Z04 Z05\n\
    border Z05 Z06\nborder Z06 Z07\nborder Z07 Z08\nborder Z08 Z09\n\
    border Z09 Z10\nborder Z10 Z11\nborder Z11 Z12\nborder Z12 Z01\n\
    border Z01 Z05\nborder Z02 Z06\nborder Z03 Z07\nborder Z04 Z08\n\
    border Z05 Z09\nborder Z06 Z10\nborder Z07 Z11\nborder Z08 Z12\n\
    trader t1\ntrader t2\ntrader t3\ntrader t4\ntrader t5\ntrader t6\n\
    operator tso\nbegin\n\
";

/// The text of the session of so many commands, from 1 to 100000: of one day of 24 hours, with
/// twelve zones, six traders and one operator. Its first 40 commands offer capacity, all others
/// enter orders and blocks, which are drawn by a fixed generator of numbers. It is shorter than
/// 5000000 bytes.
///
/// # Errors
///
/// [`NoMemory`] where there is no memory for the text.
pub fn session_text(alloc: Global, n: u32) -> Result<Text, NoMemory>
    requires some { 1 ≤ n }
    requires few { n ≤ 100000 }
    ensures text { IfOk result (λ text. text ≡ sessions.session_text n) }
    ensures short { IfOk result (λ text. length text < 5000000) }
{
    let mut text = String::from_str(alloc, HEADER)?;
    let mut draws = Draws::new();
    for place in 0..n {
        let command = draw_command(&mut draws, place);
        write_line(&mut text, &command)?;
    }
    Ok(Text::from(text.into_bytes()))
}

// Puts the line of a command at the end of a text.
fn write_line(text: &mut String, command: &Given) -> Result<(), NoMemory>
    ensures { OnOk result (string_bytes text.new
        ≡ string_bytes text.old ++ (line_of command.now ++ codes "\n")) }
{
    writeln!(text, "{command}")?;
    Ok(())
}
