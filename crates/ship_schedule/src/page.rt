//! A text that grows line by line.

ghost use Rattle.std.specs.Prelude.{◌≡◌, [], ◌∷◌, ◌++◌, IfOk, OnOk, codes};
ghost use Rattle.order_kinds.specs.Contract.{quarter_text};
ghost use Rattle.ship_schedule.specs.Rows.{net, signed_text};
ghost use Rattle.ship_schedule.specs.ScheduleText.{amount_text};

use crate::{Amount, Balance};
use order_kinds::Quarter;
use std::alloc::Global;
use std::fmt::Write;
use std::marker::Model;
use zone_graph::{NoMemory, Text};

/// A text that grows at its end, with room to print what comes next. Contracts see its bytes.
#[derive(Drop)]
pub(crate) struct Page {
    bytes: Vec<u8>,
    next: String,
}

impl Model for Page {
    ghost use Rattle.std.specs.Prelude.{List, ℕ};

    ghost Value = { List ℕ };

    ghost view = { λ page. page.bytes.items };
}

impl Page {
    /// An empty page.
    pub(crate) fn new(alloc: Global) -> Page
        ensures { result ≡ [] }
    {
        Page {
            bytes: Vec::new(alloc),
            next: String::new(alloc),
        }
    }

    /// The text.
    pub(crate) fn into_text(self) -> Text
        ensures { result ≡ self }
    {
        Text::from(self.bytes)
    }

    /// Puts bytes at the end.
    pub(crate) fn push(&mut self, bytes: &[u8]) -> Result<(), NoMemory>
        ensures { OnOk result (self.new ≡ self.old ++ bytes.now) }
    {
        self.bytes.extend_from_slice(bytes)?;
        Ok(())
    }

    /// Puts the start of a line at the end: its kind and a quarter, each with a space behind it.
    pub(crate) fn start_line(&mut self, kind: &str, quarter: Quarter) -> Result<(), NoMemory>
        ensures { OnOk result (self.new ≡ self.old ++ (kind.now ++ (codes " " ++ (quarter_text quarter ++ codes " ")))) }
    {
        self.next.clear();
        write!(self.next, "{kind} {quarter} ")?;
        self.bytes.extend_from_slice(self.next.as_bytes())?;
        Ok(())
    }

    /// Ends the line of a border with what trades and grants carry over it.
    pub(crate) fn end_border(&mut self, traded: Balance, granted: Balance) -> Result<(), NoMemory>
        ensures { OnOk result (self.new ≡ self.old ++ (codes " " ++ (signed_text (net traded) ++ (codes " " ++ (signed_text (net granted) ++ codes "\n"))))) }
    {
        self.next.clear();
        writeln!(self.next, " {traded} {granted}")?;
        self.bytes.extend_from_slice(self.next.as_bytes())?;
        Ok(())
    }

    /// Ends the line of a zone with what it has sold and bought, and its net position.
    pub(crate) fn end_zone(&mut self, position: Balance) -> Result<(), NoMemory>
        ensures { OnOk result (self.new ≡ self.old ++ (codes " " ++ (amount_text position.plus ++ (codes " " ++ (amount_text position.minus ++ (codes " " ++ (signed_text (net position) ++ codes "\n"))))))) }
    {
        let sold = Amount(position.plus);
        let bought = Amount(position.minus);
        self.next.clear();
        writeln!(self.next, " {sold} {bought} {position}")?;
        self.bytes.extend_from_slice(self.next.as_bytes())?;
        Ok(())
    }
}
