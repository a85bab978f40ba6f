//! Why an image is not opened, and why a line is not appended.

ghost use Rattle.std.specs.Prelude.{Some};
ghost use Rattle.durable_journal.specs.Faults.{append_text, image_text};

use crate::at::At;
use std::alloc::AllocError;
use std::error::Error;
use std::fmt;

/// Why an image was not opened.
#[derive(Clone, Copy, Debug, PartialEq, Eq)]
pub enum ImageFault {
    /// A call of the disk failed.
    DiskFault,
    /// The image is damaged.
    BadImage {
        /// The place of the open gate behind which no line stands.
        place: u64,
    },
    /// There was no memory.
    NoMemory,
}

/// Why a line was not appended.
#[derive(Debug, Drop)]
pub enum AppendFault {
    /// A call of the disk failed. The line may have been appended or not: open the image again.
    DiskFault,
    /// The stored lines would have too many bytes. Nothing was written.
    TooLarge {
        /// The place where the lines end.
        at: At,
        /// How many bytes they would have, with the closed gate behind them.
        size: u64,
    },
    /// There was no memory. Nothing was written.
    NoMemory {
        /// The place where the lines end.
        at: At,
    },
}

impl fmt::Display for ImageFault {
    ghost output = { λ fault. Some (image_text fault) };

    fn fmt<W: fmt::Write>(&self, f: &mut fmt::Formatter<W>) -> fmt::Result {
        f.write_str(match self {
            ImageFault::DiskFault => "a call of the disk failed",
            ImageFault::BadImage { .. } => "the image is damaged",
            ImageFault::NoMemory => "no memory",
        })
    }
}

impl Error for ImageFault {}

impl fmt::Display for AppendFault {
    ghost output = { λ fault. Some (append_text fault) };

    fn fmt<W: fmt::Write>(&self, f: &mut fmt::Formatter<W>) -> fmt::Result {
        f.write_str(match self {
            AppendFault::DiskFault => "a call of the disk failed",
            AppendFault::TooLarge { .. } => "the stored lines would be too large",
            AppendFault::NoMemory { .. } => "no memory",
        })
    }
}

impl Error for AppendFault {}

impl From<disk_model::Failed> for ImageFault {
    ghost use Rattle.std.specs.Prelude.{◌≡◌};
    ghost use Rattle.durable_journal.specs.declared.faults.ImageFault.TheVariants.{DiskFault};

    ghost from_gives = { λ _ fault. fault ≡ DiskFault };

    fn from(_failed: disk_model::Failed) -> ImageFault {
        ImageFault::DiskFault
    }
}

impl From<disk_model::NoMemory> for ImageFault {
    ghost use Rattle.std.specs.Prelude.{◌≡◌};
    ghost use Rattle.durable_journal.specs.declared.faults.ImageFault.TheVariants.{NoMemory};

    ghost from_gives = { λ _ fault. fault ≡ NoMemory };

    fn from(_error: disk_model::NoMemory) -> ImageFault {
        ImageFault::NoMemory
    }
}

impl From<zone_graph::NoMemory> for ImageFault {
    ghost use Rattle.std.specs.Prelude.{◌≡◌};
    ghost use Rattle.durable_journal.specs.declared.faults.ImageFault.TheVariants.{NoMemory};

    ghost from_gives = { λ _ fault. fault ≡ NoMemory };

    fn from(_error: zone_graph::NoMemory) -> ImageFault {
        ImageFault::NoMemory
    }
}

impl From<AllocError> for ImageFault {
    ghost use Rattle.std.specs.Prelude.{◌≡◌};
    ghost use Rattle.durable_journal.specs.declared.faults.ImageFault.TheVariants.{NoMemory};

    ghost from_gives = { λ _ fault. fault ≡ NoMemory };

    fn from(_error: AllocError) -> ImageFault {
        ImageFault::NoMemory
    }
}
