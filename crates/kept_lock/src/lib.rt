//! A lock that says what it keeps.
//!
//! Of the value under a `Mutex` a proof knows what its type says, and nothing else. A [`KeptLock`]
//! has a key besides, a value that clauses alone read, and a type says what a value under a lock of
//! this key is to be: who takes the lock gets such a value, and gives such a value back.
//!
//! It is one word and one slot of an `atomic_table`: the word is 0 where the value is at home in the
//! slot, and 1 or 2 where it is with who took the lock: 2 where others may sleep until it is back.
#![tactic(auto)]

mod lock;
mod memory;
mod rule;

pub use lock::{Duty, KeptLock};
pub use memory::NoMemory;
pub use rule::{Kept, each_step_keeps_the_rule};
