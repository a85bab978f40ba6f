//! How a run ends.

ghost use Rattle.std.specs.Prelude.{◌≡◌, IfOk};
ghost use Rattle.session_io.specs.Status.{message_of, status_number};

use std::alloc::Global;
use zone_graph::{NoMemory, Text};

/// How a run ends.
#[derive(Clone, Copy, Debug, PartialEq, Eq)]
pub enum Status {
    /// Everything was done.
    Done,
    /// The words of the command line mean nothing.
    Usage,
    /// The input is no session.
    BadSession {
        /// The first bad line, counted from 1.
        line: u32,
    },
    /// The input could not be read.
    ReadFault,
    /// The output could not be written.
    WriteFault,
    /// There was no memory.
    NoMemory,
    /// The input is longer than it may be: 8388608 bytes for a session, 134217728 for a session with
    /// its journal or an image, and 67108864 for the image; or the stored lines of a journal would be
    /// longer than 67108864 bytes.
    TooLong,
    /// The journal of a session is not complete, or a stored line is not that of the market.
    Illegal {
        /// Its first fault, counted from 1.
        entry: u64,
    },
    /// A call of the disk failed.
    DiskFault,
    /// The image of the disk is damaged.
    BadImage {
        /// The place of the open gate behind which no line stands, counted from 0.
        place: u64,
    },
}

impl Status {
    /// The exit status of the process.
    pub fn number(&self) -> u8
        ensures { result ≡ status_number self.now }
    {
        match self {
            Status::Done => 0,
            Status::Usage => 2,
            Status::BadSession { .. } => 3,
            Status::ReadFault => 4,
            Status::WriteFault => 5,
            Status::NoMemory => 6,
            Status::TooLong => 7,
            Status::Illegal { .. } => 8,
            Status::DiskFault => 9,
            Status::BadImage { .. } => 10,
        }
    }
}

/// What is said of a run's end on standard error: one line, or nothing where all was done.
pub fn message(alloc: Global, status: &Status) -> Result<Text, NoMemory>
    ensures { IfOk result (λ text. text ≡ message_of status.now) }
{
    let line = match status {
        Status::Done => return Ok(Text::new(alloc, b"")?),
        Status::Usage => b"sidc: bad words\n".as_slice(),
        Status::BadSession { line } => {
            let line = format!(in alloc; "sidc: bad session, line {line}\n")?;
            return Text::new(alloc, line.as_bytes());
        }
        Status::ReadFault => b"sidc: read fault\n",
        Status::WriteFault => b"sidc: write fault\n",
        Status::NoMemory => b"sidc: no memory\n",
        Status::TooLong => b"sidc: session too long\n",
        Status::Illegal { entry } => {
            let line = format!(in alloc; "sidc: illegal entry {entry}\n")?;
            return Text::new(alloc, line.as_bytes());
        }
        Status::DiskFault => b"sidc: disk fault\n",
        Status::BadImage { place } => {
            let line = format!(in alloc; "sidc: bad image, place {place}\n")?;
            return Text::new(alloc, line.as_bytes());
        }
    };
    Text::new(alloc, line)
}
