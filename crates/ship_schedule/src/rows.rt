//! Rows of sums.

ghost use Rattle.std.specs.Prelude.{◌≡◌, ℕ, ◌+◌, ◌<◌, ◌&&◌, ◌==◌, Bool, length, replicate, IfOk, OnOk};
ghost use Rattle.zone_graph.specs.Pour.{lots_if};
ghost use Rattle.ship_schedule.specs.Places.{period_has, quarter_at as quarter_of_place};
ghost use Rattle.ship_schedule.specs.Rows as sums;

use crate::balance::Balance;
use crate::period::{Period, quarter_at};
use std::alloc::Global;
use std::marker::Model;
use zone_graph::NoMemory;

// The balances of one quarter, by number.
#[derive(Debug, Drop)]
struct Row {
    balances: Vec<Balance>,
}

impl Model for Row {
    ghost use Rattle.std.specs.Prelude.{List};
    ghost use Rattle.ship_schedule.specs.declared.balance.Balance.{Balance as BalanceValue};

    ghost Value = { List BalanceValue };

    ghost view = { λ row. row.balances.items };
}

impl Row {
    // A row of so many numbers, each of them nothing.
    fn new(alloc: Global, width: usize) -> Result<Row, NoMemory>
        ensures { IfOk result (λ row. row ≡ replicate width sums.nothing) }
    {
        let mut balances = Vec::with_capacity(alloc, width)?;
        for number in 0..width {
            balances.push(Balance { plus: 0, minus: 0 })?;
        }
        Ok(Row { balances })
    }

    // The balance of a number; nothing where the row does not have it.
    fn balance(&self, number: usize) -> Balance
        ensures { result ≡ sums.in_row self.now number }
    {
        match self.balances.get(number) {
            Some(balance) => *balance,
            None => Balance { plus: 0, minus: 0 },
        }
    }

    // Counts lots for a number, or against it.
    fn count(&mut self, number: usize, way: bool, lots: u32) -> Result<(), NoMemory>
        ensures counted { OnOk result (sums.CountedIn self.old self.new (λ other its. sums.is_number number way other its) lots) }
        ensures size { OnOk result (length self.new ≡ length self.old) }
    {
        count_in(self.balances.as_mut_slice(), number, way, lots)
    }
}

// Counts lots for a number of a row, or against it.
fn count_in(balances: &mut [Balance], number: usize, way: bool, lots: u32) -> Result<(), NoMemory>
    ensures { OnOk result (sums.CountedIn balances.old balances.new (λ other its. sums.is_number number way other its) lots) }
{
    if number < balances.len() {
        balances[number] = balances[number].plus_lots(way, lots)?;
    }
    Ok(())
}

/// Rows of sums: one row for each quarter of the day, and in it two sums of lots for each number. A
/// number that the rows do not have counts nothing.
#[derive(Debug, Drop)]
pub struct Rows {
    rows: Vec<Row>,
}

impl Model for Rows {
    ghost use Rattle.std.specs.Prelude.{List};
    ghost use Rattle.ship_schedule.specs.declared.balance.Balance.{Balance as BalanceValue};

    ghost Value = { List (List BalanceValue) };

    ghost view = { λ rows. rows.rows.items };
}

impl Rows {
    /// So many rows of so many numbers, all of them nothing.
    ///
    /// # Errors
    ///
    /// [`NoMemory`] where memory runs out.
    pub fn new(alloc: Global, count: usize, width: usize) -> Result<Rows, NoMemory>
        ensures { IfOk result (λ rows. rows ≡ sums.empty_rows count width) }
    {
        let mut rows = Vec::with_capacity(alloc, count)?;
        for place in 0..count {
            rows.push(Row::new(alloc, width)?)?;
        }
        Ok(Rows { rows })
    }

    /// The balance of a number in the quarter at this place of the day; nothing where the rows do not
    /// have it.
    pub fn balance(&self, place: usize, number: usize) -> Balance
        ensures { result ≡ sums.balance_at self.now place number }
    {
        match self.rows.as_slice().get(place) {
            Some(row) => row.balance(number),
            None => Balance { plus: 0, minus: 0 },
        }
    }

    /// Counts lots for a number, or against it, in each quarter of a period.
    ///
    /// # Errors
    ///
    /// [`NoMemory`] where a sum would have more than 2^64 - 1 lots.
    pub fn count(
        &mut self,
        period: Period,
        number: usize,
        way: bool,
        lots: u32,
    ) -> Result<(), NoMemory>
        ensures counted { OnOk result (sums.Counted self.old self.new (λ place other its. period_has period (quarter_of_place place) && sums.is_number number way other its) lots) }
        ensures shape { OnOk result (sums.SameShape self.old self.new) }
    {
        count_over(self.rows.as_mut_slice(), period, number, way, lots)
    }
}

// Counts lots for a number, or against it, in each quarter of a period.
fn count_over(
    rows: &mut [Row],
    period: Period,
    number: usize,
    way: bool,
    lots: u32,
) -> Result<(), NoMemory>
    ensures counted { OnOk result (sums.Counted rows.old rows.new (λ place other its. period_has period (quarter_of_place place) && sums.is_number number way other its) lots) }
    ensures shape { OnOk result (sums.SameShape rows.old rows.new) }
{
    let (start, end) = period.places();
    for place in start..end {
        count_if(
            rows,
            period.has(quarter_at(place)),
            place,
            number,
            way,
            lots,
        )?;
    }
    Ok(())
}

// Counts lots for a number of the row at a place, or against it, if the place counts.
fn count_if(
    rows: &mut [Row],
    counts: bool,
    place: u64,
    number: usize,
    way: bool,
    lots: u32,
) -> Result<(), NoMemory>
    ensures counted { OnOk result (sums.Counted rows.old rows.new (λ other its its_way. counts && (place == other) && sums.is_number number way its its_way) lots) }
    ensures shape { OnOk result (sums.SameShape rows.old rows.new) }
{
    let place = place as usize;
    if counts && place < rows.len() {
        rows[place].count(number, way, lots)?;
    }
    Ok(())
}
