//! What is read of an input of two parts, as laws.

ghost use Rattle.journal_audit.specs.DividingLaws.{BadLinesAreByGrammar, DividedInputsAreRead};
ghost use Rattle.journal_audit.specs.DividingLaws.{GoodInputsAreByGrammar, UndividedInputsAreBad};

/// Of whole lines, none of which is the word, then the word as a line, then any bytes, what is
/// answered is what the text before the word is, with the bytes after it.
pub fn divided_inputs_are_read()
    ensures { DividedInputsAreRead }
{}

/// An input in which no line is the word is never good: its first bad line is reported, and where it
/// has none the line after the last.
pub fn undivided_inputs_are_bad()
    ensures { UndividedInputsAreBad }
{}

/// A session and a rest are read of an input exactly where it is a text of that session by the
/// grammar, the dividing line and that rest.
pub fn good_inputs_are_by_grammar()
    ensures { GoodInputsAreByGrammar }
{}

/// A line is reported exactly where it is the bad line of the input, by the grammar.
pub fn bad_lines_are_by_grammar()
    ensures { BadLinesAreByGrammar }
{}
