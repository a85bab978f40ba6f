//! Sessions that are run, and the words for it.

ghost use Rattle.std.specs.Prelude.{◌≡◌, ◌≤◌, ◌⊎◌, Ok, Some, [], false, length, IfOk};
ghost use Rattle.command_words.specs.Words.{is_trade, task_of};
ghost use Rattle.command_words.specs.declared.words.Task.TheVariants as task;
ghost use Rattle.disk_model.specs.Contents.{settled};
ghost use Rattle.market_text.specs.Text.{session_of_text};
ghost use Rattle.market_text.specs.declared.session.Session.{Session};
ghost use Rattle.session_io.specs.Reading.{longest_session};
ghost use Rattle.session_io.specs.declared.status.Status.TheVariants as ended;

use command_words::is_trade;
use disk_model::RamDisk;
use outside::{BytesSink, BytesSource, NullSink, SteadySource};
use session_run::{Status, run_alone};
use std::alloc::Global;
use std::test::Fail;
use zone_graph::{NoMemory, Sequence, Word};

/// A sale and a purchase of one hour in one zone.
pub(crate) const SALE: &[u8] =
    b"day 2025-06-17\nzone DE\ntrader ann\ntrader bob\nbegin\nann sell h12 DE 10.0 50.00\nbob buy h12 DE 4.0 55.00\n";

/// Its journal.
pub(crate) const JOURNAL: &[u8] =
    b"{\"caller\":\"ann\",\"command\":1,\"done\":[[\"entered\",\"h12#1\",\"h12\"]],\"entry\":1}\n{\"caller\":\"bob\",\"command\":1,\"done\":[[\"entered\",\"h12#2\",\"h12\"],[\"leg\",\"h12#2\",\"h12#1\",\"4.0\",\"50.00\",[]]],\"entry\":2}\n";

/// A leg that opens the border the other way, and the sweep after it.
pub(crate) const SWEEP: &[u8] =
    b"day 2025-06-17\nzone DE\nzone FR\nborder DE FR\ntrader ann\ntrader bob\ntrader cat\noperator tso\nbegin\ntso offer DE>FR h12q1 h12q4 5.0\nann sell h12q1 FR 5.0 40.00\nbob buy h12q1 DE 5.0 45.00\ncat sell h12 DE 5.0 50.00\nann buy h12 FR 5.0 50.00\n";

/// Its journal.
pub(crate) const SWEEP_JOURNAL: &[u8] =
    b"{\"caller\":\"tso\",\"command\":1,\"done\":[[\"offered\",\"DE>FR\",\"h12q1\",\"h12q4\",\"5.0\"]],\"entry\":1}\n{\"caller\":\"ann\",\"command\":1,\"done\":[[\"entered\",\"h12#1\",\"h12q1\"]],\"entry\":2}\n{\"caller\":\"bob\",\"command\":1,\"done\":[[\"entered\",\"h12#2\",\"h12q1\"]],\"entry\":3}\n{\"caller\":\"cat\",\"command\":1,\"done\":[[\"entered\",\"h12#3\",\"h12\"]],\"entry\":4}\n{\"caller\":\"ann\",\"command\":2,\"done\":[[\"entered\",\"h12#4\",\"h12\"],[\"leg\",\"h12#4\",\"h12#3\",\"5.0\",\"50.00\",[\"DE>FR\"]],[\"leg\",\"h12#2\",\"h12#1\",\"5.0\",\"40.00\",[\"FR>DE\"]]],\"entry\":5}\n";

/// How much of it is written before each write of at most 16 bytes of what is left of a line.
pub(crate) const BEFORE_EACH_WRITE: [usize; 32] = [
    0, 16, 32, 48, 64, 80, 90, 106, 122, 138, 154, 166, 182, 198, 214, 230, 242, 258, 274, 290,
    306, 316, 332, 348, 364, 380, 396, 412, 428, 444, 460, 476,
];

/// The one word `replay`.
pub(crate) fn replay_word(alloc: Global) -> Result<Sequence<Word>, NoMemory>
    ensures alone { IfOk result (λ words. is_trade words ≡ false) }
    ensures task { IfOk result (λ words. task_of words ≡ Some task.Replay) }
{
    let mut words = Sequence::new(alloc);
    words.push(Word::new(alloc, b"replay")?)?;
    Ok(words)
}

/// These words.
pub(crate) fn words_of(alloc: Global, texts: &[&str]) -> Result<Sequence<Word>, NoMemory> {
    let mut words = Sequence::new(alloc);
    for text in texts {
        words.push(Word::new(alloc, text.as_bytes())?)?;
    }
    Ok(words)
}

/// How a run of these words, which are not `trade`, ends over an input that is given in at most four pieces, and what it has
/// written, at most 16 bytes at once. The reads and the writes of these numbers fail.
pub(crate) fn ran(
    alloc: Global,
    texts: &[&str],
    input: &[u8],
    fails: (&[u64], &[u64]),
    disk: &mut RamDisk,
) -> Result<(Status, BytesSink), Fail>
    requires { disk.old.now ≡ settled [] }
{
    let words = words_of(alloc, texts)?;
    let mut source = BytesSource::new(alloc, input, input.len() / 4 + 1, fails.0)?;
    let mut sink = BytesSink::new(alloc, 16, fails.1)?;
    if is_trade(words.as_slice()) {
        // `trade` does not run alone: a test of it by this fails.
        return Err(NoMemory.into());
    }
    let status = run_alone(alloc, words.as_slice(), &mut source, &mut sink, disk);
    Ok((status, sink))
}

/// Some of the bytes: none where there are not so many.
pub(crate) fn part(bytes: &[u8], from: usize, to: usize) -> &[u8] {
    bytes.get(from..to).unwrap_or_default()
}

/// From a source and to a sink that never fail, each session that is not too long is played, unless
/// memory is wanting.
pub(crate) fn replay_steadily(alloc: Global, words: &[Word], source: &mut SteadySource) -> Status
    requires alone { is_trade words.now ≡ false }
    requires task { task_of words.now ≡ Some task.Replay }
    ensures { (session : Session) → session_of_text source.old.left ≡ Ok session → length source.old.left ≤ longest_session → (result ≡ ended.Done) ⊎ (result ≡ ended.NoMemory) }
{
    run_alone(
        alloc,
        words,
        source,
        &mut NullSink::new(),
        &mut RamDisk::new(alloc),
    )
}
