//! What a desk answers.

ghost use Rattle.std.specs.Prelude.{◌≡◌, ◌≤◌, None};
ghost use Rattle.zone_graph.specs.Graph.{HasArc, HasZone, border_count, zone_count};

use block_book::RestingBlock;
use hour_desk::HourDesk;
use market_model::{Phase, Quarter, Refusal, Side, ViewRow};
use std::alloc::Global;
use zone_graph::{Arc, NoMemory};

// The most numbers under which blocks are looked for: more than any session here gives to an hour.
const MOST_NUMBERS: u32 = 500;

/// All that a desk answers with nothing planned.
#[derive(Drop)]
pub(crate) struct Answers {
    settled: usize,
    planned: usize,
    phase: Phase,
    open: u32,
    rows: Vec<ViewRow>,
    counts: Vec<usize>,
    blocks: Vec<RestingBlock>,
    refusals: Vec<Option<Refusal>>,
}

impl Answers {
    /// The answers of a desk over so many zones and borders.
    ///
    /// # Errors
    ///
    /// [`NoMemory`] where memory runs out.
    pub fn of(alloc: Global, desk: &HourDesk, zones: u32, borders: u32) -> Result<Answers, NoMemory>
        requires unplanned { desk.now.planned ≡ None }
        requires zones { zones ≤ zone_count desk.now.grid }
        requires borders { borders ≤ border_count desk.now.grid }
    {
        let mut answers = Answers {
            settled: desk.settled().len(),
            planned: desk.planned().len(),
            phase: desk.phase(),
            open: desk.open(),
            rows: Vec::new(alloc),
            counts: Vec::new(alloc),
            blocks: Vec::new(alloc),
            refusals: Vec::new(alloc),
        };
        for zone in 0..zones {
            answers.add_rows(desk, zone)?;
        }
        for border in 0..borders {
            answers.add_refusals(desk, Arc::over(border, true))?;
            answers.add_refusals(desk, Arc::over(border, false))?;
        }
        for number in 1..=MOST_NUMBERS {
            if let Some(block) = desk.blocks().get(number) {
                answers.blocks.push(block)?;
            }
        }
        Ok(answers)
    }

    // The rows that a taker in a zone sees of each part and side.
    fn add_rows(&mut self, desk: &HourDesk, zone: u32) -> Result<(), NoMemory>
        requires { HasZone desk.now.grid zone }
    {
        for part in 0..7 {
            for side in [Side::Buy, Side::Sell] {
                let rows = desk.rows(part, side, zone);
                self.counts.push(rows.len())?;
                self.rows.extend_from_slice(rows)?;
            }
        }
        Ok(())
    }

    // How much flows over an arc and how much room it has in each quarter of the hour, as the refusals of an
    // offer of nothing and of the greatest request tell it.
    fn add_refusals(&mut self, desk: &HourDesk, arc: Arc) -> Result<(), NoMemory>
        requires unplanned { desk.now.planned ≡ None }
        requires arc { HasArc desk.now.grid arc }
    {
        for number in 1..=4 {
            let quarter = Quarter {
                hour: desk.hour(),
                number,
            };
            self.refusals
                .push(desk.refuse_offer(arc, quarter, quarter, 0))?;
            self.refusals
                .push(desk.refuse_request(arc, quarter, quarter, u32::MAX))?;
        }
        Ok(())
    }

    /// Whether they are the same as others.
    pub fn are_same(&self, other: &Answers) -> bool {
        self.settled == other.settled
            && self.planned == other.planned
            && self.phase == other.phase
            && self.open == other.open
            && self.rows == other.rows
            && self.counts == other.counts
            && self.blocks == other.blocks
            && self.refusals == other.refusals
    }
}
