//! The standard streams.
ghost use Rattle.std.specs.Prelude.{None};

use crate::exchange::{Exchange, FilterError};
use crate::lines::LineJob;
use std::io::{Read, Stdin, Stdout, Write};

/// Standard input and standard output. Nothing is known of what they give and take.
#[derive(Drop)]
pub struct StandardStreams {
    pub input: Stdin,
    pub output: Stdout,
}

impl Exchange for StandardStreams {
    ghost got = { λ _. None };

    ghost put = { λ _. None };

    ghost has_ended = { λ _. Unit {0} };

    fn read<J: LineJob>(
        &mut self,
        _job: &J,
        _longest: usize,
        block: &mut [u8],
    ) -> Result<usize, FilterError> {
        match self.input.read(block) {
            Ok(count) => Ok(count),
            Err(_) => Err(FilterError::Read),
        }
    }

    fn write_all(&mut self, bytes: &[u8]) -> Result<(), FilterError> {
        match Write::write_all(&mut self.output, bytes) {
            Ok(()) => Ok(()),
            Err(error) => Err(FilterError::of_write(&error)),
        }
    }
}
