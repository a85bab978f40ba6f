//! Inputs of two parts, with what is to be read of each by their rules.

ghost use Rattle.std.specs.Prelude.{◌<◌, length};

use journal_audit::read_divided;
use market_text::TextFault;
use std::process::Abort;

// The hours of the session that an input is read to, and the rest, or the line that it is refused for.
fn answer<'a>(
    rt: &(impl Abort + AllocGlobal),
    word: &str,
    input: &'a str,
) -> Result<(u32, &'a [u8]), u32>
    requires { length input.now < 1000 }
{
    match read_divided(rt.alloc(), word.as_bytes(), input.as_bytes()) {
        Ok(divided) => Ok((divided.session.setup.hours, divided.rest)),
        Err(TextFault::BadSession { line }) => Err(line),
        Err(TextFault::NoMemory) => rt.panic("no memory"),
    }
}

// An input is read to a session of 24 hours and this rest, or refused for this line.
fn expect_answer(rt: &(impl Abort + AllocGlobal), word: &str, input: &str, want: Result<&str, u32>)
    requires { length input.now < 1000 }
{
    let wanted = want.map(|rest| (24, rest.as_bytes()));
    assert_eq!(rt; answer(rt, word, input), wanted, "{input}");
}

#[test]
fn first_line_that_is_the_word_divides(rt: HostRuntime) {
    for (input, want) in [
        // A session, the dividing line, and a rest.
        ("day 2025-06-17\nzone A\nbegin\njournal\nb\n", Ok("b\n")),
        // A rest that is empty, or that ends inside a line.
        ("day 2025-06-17\nzone A\nbegin\njournal\n", Ok("")),
        ("day 2025-06-17\nzone A\nbegin\njournal\n\nb", Ok("\nb")),
        // Of two such lines the first divides, and the second belongs to the rest.
        (
            "day 2025-06-17\nzone A\nbegin\njournal\njournal\n",
            Ok("journal\n"),
        ),
        // A comment with the word does not divide.
        ("#journal\nday 2025-06-17\nzone A\nbegin\njournal\n", Ok("")),
        // A bad line before the dividing line, and lines that end before `begin`.
        ("day 2025-06-17\nzone A\nzone A\nbegin\njournal\n", Err(3)),
        ("day 2025-06-17\nzone A\njournal\nbegin\n", Err(3)),
        ("journal\n", Err(1)),
        // No dividing line: a session of three lines, a bad line, no line, and too early an end.
        ("day 2025-06-17\nzone A\nbegin\n", Err(4)),
        ("day 2025-06-17\nzone A\nbegin\nb\n\n", Err(4)),
        ("", Err(1)),
        ("day 2025-06-17\nzone A\n", Err(3)),
        // A last line without its line feed, alone and after another bad line.
        ("day 2025-06-17\nzone A\nbegin\njournal", Err(4)),
        ("day 2025-06-17\nzone\nbegin\njournal", Err(2)),
        // Lines that are more than the word or less, and another word.
        ("day 2025-06-17\nzone A\nbegin\njournal \n", Err(4)),
        ("day 2025-06-17\nzone A\nbegin\njournal\r\n", Err(4)),
        ("day 2025-06-17\nzone A\nbegin\njourna\njournal\n", Err(4)),
        ("day 2025-06-17\nzone A\nbegin\nimage\njournal\n", Err(4)),
    ] {
        assert!(rt; input.len() < 1000);
        expect_answer(&rt, "journal", input, want);
    }
    let other = "day 2025-06-17\nzone A\nbegin\nimage\njournal\n";
    expect_answer(&rt, "image", other, Ok("journal\n"));
}
