//! A sink and a source that tell how they were called.

use outside::{Failed, Sink, Source};

/// A sink that takes at most 10 bytes of a piece, and notes how long each piece was.
#[derive(Drop)]
pub(crate) struct Noting {
    pub lengths: Vec<usize>,
}

impl Sink for Noting {
    ghost use Rattle.std.specs.Prelude.{◌^◌, ◌-◌, None};

    ghost written = { λ _. None };

    ghost faults = { λ _. 2 ^ 64 - 1 };

    fn write(&mut self, piece: &[u8]) -> Result<usize, Failed> {
        self.lengths.push(piece.len()).map_err(|_| Failed)?;
        Ok(piece.len().min(10))
    }
}

/// A source that gives as many bytes as it is asked for, up to a number, and counts its reads.
#[derive(Drop)]
pub(crate) struct Counting {
    pub left: usize,
    pub most: usize,
    pub reads: usize,
}

impl Source for Counting {
    ghost use Rattle.std.specs.Prelude.{None};

    ghost left = { λ _. None };

    ghost faults = { λ _. 0 };

    ghost reads = { λ source. source.reads };

    fn read(&mut self, into: &mut [u8]) -> Result<usize, Failed> {
        self.reads = self.reads.saturating_add(1);
        let count = into.len().min(self.left).min(self.most);
        self.left -= count;
        into[..count].fill(b'#');
        Ok(count)
    }
}
