//! Two sums, and how they are printed.

ghost use Rattle.std.specs.Prelude.{◌≡◌, ◌==◌, ◌+◌, ◌^◌, ◌≤◌, ℕ, pos, Bool, Some, IfOk, OnErr};
ghost use Rattle.std.specs.Fmt.{DisplaysOnOk};
ghost use Rattle.order_kinds.specs.Price.{lots_text};
ghost use Rattle.zone_graph.specs.Pour.{lots_if, same_bool};
ghost use Rattle.ship_schedule.specs.Rows.{net, signed_text, sum_of};

use std::fmt;
use zone_graph::NoMemory;

/// Two sums of lots (tenths of a MW), of which one counts for a number and one against it.
///
/// It prints as what is for it less what is against it, in MW, as `3.0` or `-0.5`.
#[derive(Clone, Copy, Debug, PartialEq, Eq)]
pub struct Balance {
    /// What counts for it, in lots.
    pub plus: u64,

    /// What counts against it, in lots.
    pub minus: u64,
}

impl Balance {
    /// The sums with so many lots more: for it, or against it.
    ///
    /// # Errors
    ///
    /// [`NoMemory`] where a sum would have more than 2^64 - 1 lots: no journal that fits into memory
    /// trades as many.
    pub fn plus_lots(self, way: bool, lots: u32) -> Result<Balance, NoMemory>
        ensures counted { IfOk result (λ balance. (other : Bool) → sum_of balance other ≡ sum_of self other + lots_if (same_bool way other) lots) }
        ensures full { OnErr result (2 ^ 64 ≤ sum_of self way + lots) }
    {
        if way {
            Ok(Balance {
                plus: sum(self.plus, lots)?,
                minus: self.minus,
            })
        } else {
            Ok(Balance {
                plus: self.plus,
                minus: sum(self.minus, lots)?,
            })
        }
    }

    /// Whether what is for it is what is against it.
    pub fn is_even(self) -> bool
        ensures { result ≡ (self.plus == self.minus) }
    {
        self.plus == self.minus
    }
}

// So many lots more.
fn sum(lots: u64, more: u32) -> Result<u64, NoMemory>
    ensures sum { IfOk result (λ sum. sum ≡ lots + more) }
    ensures full { OnErr result (2 ^ 64 ≤ lots + more) }
{
    lots.checked_add(u64::from(more)).ok_or(NoMemory)
}

impl fmt::Display for Balance {
    ghost output = { λ balance. Some (signed_text (net balance)) };

    fn fmt<W: fmt::Write>(&self, f: &mut fmt::Formatter<W>) -> fmt::Result {
        if self.plus < self.minus {
            f.write_str("-")?;
            write_lots(self.minus - self.plus, f)
        } else {
            write_lots(self.plus - self.minus, f)
        }
    }
}

/// A sum of lots (tenths of a MW).
///
/// It prints in MW, as `3.0`.
#[derive(Clone, Copy, Debug, PartialEq, Eq)]
pub struct Amount(pub u64);

impl fmt::Display for Amount {
    ghost output = { λ amount. Some (lots_text (record { 0 = amount.0 })) };

    fn fmt<W: fmt::Write>(&self, f: &mut fmt::Formatter<W>) -> fmt::Result {
        write_lots(self.0, f)
    }
}

// Writes lots, with one digit after the point.
#[tactic(auto, using(std::proofs::lemmas::Fmt::decimal_digit))]
fn write_lots<W: fmt::Write>(lots: u64, f: &mut fmt::Formatter<W>) -> fmt::Result
    ensures { DisplaysOnOk W.write_str_gives f.old result (Some (lots_text (record { 0 = lots }))) f.new }
{
    write!(f, "{}.{}", lots / 10, lots % 10)
}
