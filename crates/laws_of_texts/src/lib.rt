//! The grammar of session texts: which texts are those of a session, and which line is the first bad
//! one of the others; that reading a text gives exactly these; and that each text that is generated for
//! so many commands is a session of exactly so many commands.
#![tactic(auto)]

ghost use Rattle.laws_of_texts.specs.GeneratedLaws.{GeneratedTextsAreSessions};

mod laws;

pub use laws::{
    accepted_is_in_grammar, answers_are_by_grammar, first_bad_is_reported, grammar_is_accepted,
    reported_is_first_bad, sessions_make_grids, texts_are_sessions,
};

/// Of the text that is generated for n commands, a session of exactly n commands is read, for each n
/// up to 262144, the most commands that a session may have.
pub fn generated_texts_are_sessions()
    ensures { GeneratedTextsAreSessions }
{}
