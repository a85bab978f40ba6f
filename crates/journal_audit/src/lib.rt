//! The auditor's check of a journal: whether a byte string is the complete journal of a session, by the plain market
//! alone. It keeps no order book, no flows and no rows of a view: each line is compared with the one that the market
//! makes of the next command of the caller that it names, after the events of the lines before it.
//!
//! Its input has two parts: the text of a session, then a line that is one agreed word, then the journal. The first
//! line that is exactly the word divides the input; the bytes after it are lent as they are.
#![tactic(auto)]

mod auditing;
mod course;
mod divided_lines;
mod dividing;
mod dividing_laws;
mod laws;
mod lines;
mod reading;

pub use auditing::{Verdict, audit};
pub use dividing::divide;
pub use dividing_laws::{
    bad_lines_are_by_grammar, divided_inputs_are_read, good_inputs_are_by_grammar,
    undivided_inputs_are_bad,
};
pub use laws::{
    complete_journals_are_in_order, first_fault_is_one, journals_are_complete, journals_are_one,
    lines_are_audited, lines_make_the_text, lines_name_the_turns, sessions_are_named_apart,
};
pub use lines::caller_named;
pub use reading::{Divided, read_divided};
pub use zone_graph::NoMemory;
