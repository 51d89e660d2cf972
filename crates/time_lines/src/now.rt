//! The moment before each line at which it was read.
ghost use Rattle.std.specs.Prelude.{◌≡◌, OnOk};
ghost use Rattle.time_lines.specs.Now.{IsStamp, NowBecomes, spaced};
ghost use Rattle.time_lines.specs.Shown.{SameShown};

use crate::passed::Passed;
use crate::shown::Shows;
use line_streams::{FilterError, LineJob};
use std::alloc::AllocError;
use std::time::Clock;
use time_below::Timestamp;

/// Puts before each line what is shown of the moment at which it was read, and a space unless that
/// is empty or ends with one. The clock is asked once for all lines that one read has ended.
#[derive(Drop)]
pub struct NowJob<'a, C: Clock, S: Shows + Drop> {
    pub clock: &'a C,
    pub shown: S,
    /// What stands before a line.
    pub stamp: Vec<u8>,
    pub passed: Passed,
}

/// Appends a space, unless the text is empty or ends with one.
fn add_space(text: &mut Vec<u8>) -> Result<(), AllocError>
    ensures { OnOk result (text.new.items ≡ spaced text.old.items) }
{
    let length = text.len();
    if length == 0 || text[length - 1] == b' ' {
        return Ok(());
    }
    text.push(b' ')?;
    Ok(())
}

/// How many decimals of a second are shown, unless the description has its own.
const DECIMALS: usize = 3;

/// Makes the stamp of a moment.
fn put_stamp<S: Shows>(
    shown: &mut S,
    stamp: &mut Vec<u8>,
    moment: &Timestamp,
) -> Result<(), AllocError>
    ensures same { SameShown (S.shows shown.old) (S.shows shown.new) }
    ensures stamp { OnOk result (IsStamp (S.shows shown.old) stamp.new.items) }
{
    stamp.clear();
    if shown.append(stamp, moment, DECIMALS)? {
        add_space(stamp)?;
    }
    Ok(())
}

impl<C: Clock, S: Shows + Drop> LineJob for NowJob<'_, C, S> {
    ghost becomes = { λ job. NowBecomes (S.shows job.shown) };

    ghost is_ready = { λ job. IsStamp (S.shows job.shown) job.stamp.items };

    fn prepare(&mut self) -> Result<(), FilterError> {
        let Ok(moment) = Timestamp::now(self.clock) else {
            return Err(FilterError::Job);
        };
        put_stamp(&mut self.shown, &mut self.stamp, &moment)?;
        Ok(())
    }

    fn append(&mut self, output: &mut Vec<u8>, line: &[u8]) -> Result<(), AllocError> {
        self.passed.begin_line();
        output.extend_from_slice(self.stamp.as_slice())?;
        output.extend_from_slice(line)?;
        Ok(())
    }

    fn pass_long(&mut self, longest: usize) {
        self.passed.pass_long(longest);
    }
}
