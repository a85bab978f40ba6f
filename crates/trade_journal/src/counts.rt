//! How many entries each caller has.

ghost use Rattle.std.specs.Prelude.{◌≡◌, ◌+◌, ◌-◌, ◌^◌, ◌<◌, length, replicate, slice_index, slice_set, IfOk};

use std::alloc::Global;
use std::marker::Model;
use zone_graph::NoMemory;

/// A count for each caller. Contracts see the list of the counts.
#[derive(Drop)]
pub struct Counts {
    counts: Vec<u32>,
}

impl Model for Counts {
    ghost use Rattle.std.specs.Prelude.{List, ℕ};

    ghost Value = { List ℕ };

    ghost view = { λ counts. counts.counts.items };
}

impl Counts {
    /// Zero for each of so many callers.
    ///
    /// # Errors
    ///
    /// [`NoMemory`] where memory runs out.
    pub fn new(alloc: Global, callers: usize) -> Result<Counts, NoMemory>
        ensures { IfOk result (λ counts. counts ≡ replicate callers 0) }
    {
        Ok(Counts {
            counts: vec![in alloc; 0u32; callers]?,
        })
    }

    /// The count of a caller.
    pub fn of(&self, caller: usize) -> u32
        requires { caller < length self.now }
        ensures { result ≡ slice_index self.now caller }
    {
        self.counts[caller]
    }

    /// Counts one more for a caller, and answers the count before.
    pub fn count(&mut self, caller: usize) -> u32
        requires known { caller < length self.old }
        requires few { slice_index self.old caller < 2 ^ 32 - 1 }
        ensures before { result ≡ slice_index self.old caller }
        ensures after { self.new ≡ slice_set self.old caller (slice_index self.old caller + 1) }
    {
        count_in(self.counts.as_mut_slice(), caller)
    }
}

// The same over a slice.
fn count_in(counts: &mut [u32], caller: usize) -> u32
    requires known { caller < length counts.old }
    requires few { slice_index counts.old caller < 2 ^ 32 - 1 }
    ensures before { result ≡ slice_index counts.old caller }
    ensures after { counts.new ≡ slice_set counts.old caller (slice_index counts.old caller + 1) }
{
    let count = counts[caller];
    counts[caller] = count + 1;
    count
}
