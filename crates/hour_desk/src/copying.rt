//! Events and rows are copied into a reply.

ghost use Rattle.std.specs.Prelude.{◌≡◌, ◌≤◌, IfOk, drop, length};

use market_model::{Duplicate, Event, Events, NoMemory, Rows, ViewRow};
use std::alloc::Global;

/// The events from a place on, counted from 0.
///
/// # Errors
///
/// [`NoMemory`] where memory runs out.
pub fn events_from(alloc: Global, events: &[Event], place: usize) -> Result<Events, NoMemory>
    requires { place ≤ length events.now }
    ensures { IfOk result (λ made. made ≡ drop place events.now) }
{
    let mut made = Events::new(alloc);
    for event in &events[place..] {
        made.push(event.copy()?)?;
    }
    Ok(made)
}

/// The same rows.
///
/// # Errors
///
/// [`NoMemory`] where memory runs out.
pub(crate) fn rows_of(alloc: Global, rows: &[ViewRow]) -> Result<Rows, NoMemory>
    ensures { IfOk result (λ made. made ≡ rows.now) }
{
    let mut made = Rows::new(alloc);
    for row in rows {
        made.push(*row)?;
    }
    Ok(made)
}
