//! The words of a line, one after another.

ghost use Rattle.std.specs.Prelude.{◌≡◌, None, Some, map, MatchOption};
ghost use Rattle.command_lines.specs.CommandLines as lines;

/// The first word and those after it: `None` exactly where there is no word.
#[tactic(auto, unfolding(crate::specs::CommandLines::first_word))]
pub fn first_word<'a, 'b>(words: &'b [&'a [u8]]) -> Option<(&'a [u8], &'b [&'a [u8]])>
    ensures { MatchOption result (lines.first_word (map (λ word. word.now) words.now) ≡ None) (λ parts. lines.first_word (map (λ word. word.now) words.now) ≡ Some (parts.0.now, map (λ word. word.now) parts.1.now)) }
{
    let (word, words) = words.split_first()?;
    Some((*word, words))
}

/// The word, where there is one alone.
#[tactic(auto, unfolding(crate::specs::CommandLines::only_word))]
pub fn only_word<'a>(words: &[&'a [u8]]) -> Option<&'a [u8]>
    ensures { MatchOption result (lines.only_word (map (λ word. word.now) words.now) ≡ None) (λ word. lines.only_word (map (λ word. word.now) words.now) ≡ Some word.now) }
{
    let [word] = words else {
        return None;
    };
    Some(*word)
}
