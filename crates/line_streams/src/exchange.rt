//! Where lines come from, and where what they become goes to.
ghost use Rattle.std.specs.Prelude.{◌≡◌, ◌<◌, ◌≤◌, ℕ, List, Option, length, take, IfOk, OnOk};
ghost use Rattle.std.specs.Prelude.{OnErr};
ghost use Rattle.line_streams.specs.Prompt.{Grows, GrowsInPart, IsPrompt};

use crate::lines::LineJob;
use std::alloc::AllocError;
use std::io::{self, ErrorKind};

/// Why a run ended before all that the lines of its input become was written.
#[derive(Clone, Copy, Debug, PartialEq, Eq, Drop)]
pub enum FilterError {
    /// A read failed.
    Read,
    /// A write failed, or took no byte.
    Write,
    /// Nobody reads what is written.
    Closed,
    /// There was no memory.
    Memory,
    /// The job could not be prepared.
    Job,
}

impl FilterError {
    ghost use Rattle.std.specs.Prelude.{◌≢◌, ◌↔◌};
    ghost use Rattle.std.specs.IoError.{error_kind};
    ghost use Rattle.std.specs.declared.io.ErrorKind.TheVariants.{BrokenPipe};
    ghost use Rattle.line_streams.specs.declared.exchange.FilterError.TheVariants.{Closed, Write};

    /// Returns why a run ends whose write failed so.
    pub fn of_write(error: &io::Error) -> FilterError
        ensures closed { (result ≡ Closed) ↔ (error_kind error.now ≡ BrokenPipe) }
        ensures others { error_kind error.now ≢ BrokenPipe → result ≡ Write }
    {
        match error.kind() {
            ErrorKind::BrokenPipe => FilterError::Closed,
            _ => FilterError::Write,
        }
    }
}

impl From<AllocError> for FilterError {
    ghost use Rattle.line_streams.specs.declared.exchange.FilterError.TheVariants.{Memory};

    ghost from_gives = { λ _ error. error ≡ Memory };

    fn from(_error: AllocError) -> FilterError {
        FilterError::Memory
    }
}

/// A source and a sink, with all that was read from the one and written to the other, where that is
/// known.
pub trait Exchange {
    /// What was read.
    ghost got: { Self → Option (List ℕ) };

    /// What was written.
    ghost put: { Self → Option (List ℕ) };

    /// Whether the source is at its end.
    ghost has_ended: { Self → Type 0 };

    /// Reads some bytes of the source into the block: none at the end of the source, or where the
    /// block is empty. No line that was read to its end may wait for its text, and at most
    /// `longest` bytes of another line may wait.
    fn read<J: LineJob>(
        &mut self,
        job: &J,
        longest: usize,
        block: &mut [u8],
    ) -> Result<usize, FilterError>
        requires prompt { IsPrompt longest (J.becomes job.now) (got self.old) (put self.old) }
        ensures bound { IfOk result (λ n. n ≤ length block.new) }
        ensures got { IfOk result (λ n. Grows (got self.old) (got self.new) (take n block.new)) }
        ensures ended { IfOk result (λ n. n ≡ 0 → 0 < length block.new → has_ended self.new) }
        ensures failed { OnErr result (got self.new ≡ got self.old) }
        ensures put { put self.new ≡ put self.old };

    /// Writes all the bytes. After a write that failed a beginning of them is written.
    fn write_all(&mut self, bytes: &[u8]) -> Result<(), FilterError>
        ensures got { got self.new ≡ got self.old }
        ensures ended { has_ended self.old → has_ended self.new }
        ensures put { OnOk result (Grows (put self.old) (put self.new) bytes.now) }
        ensures cut { OnErr result (GrowsInPart (put self.old) (put self.new) bytes.now) };
}
