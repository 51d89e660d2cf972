//! Texts of RFC 2822, and those of mail and feeds, read back as moments.
ghost use Rattle.movaliren_c.specs.Reading.{IsByParts, IsInUtc, IsRead, MailReads, Rfc2822Reads};

use crate::read::keep;
use crate::read::place::ReadError;
use crate::values::moment::{Moment, UtcMoment};
use time_below::OffsetDateTime;
use time_read::{NotRead, rfc2822};

/// The value that a text of RFC 2822 spells.
fn strictly(text: &[u8]) -> Result<OffsetDateTime, NotRead>
    ensures { Rfc2822Reads text.now result }
{
    rfc2822::read(text)
}

/// The value that a text of mail means.
fn leniently(text: &[u8]) -> Result<OffsetDateTime, NotRead>
    ensures { MailReads text.now result }
{
    rfc2822::read_lenient(text)
}

/// Reads a text of RFC 2822 as a moment by its parts.
#[unsafe(no_mangle)]
pub extern "C" fn movaliren_read_rfc2822(
    text: &[u8],
    moment: &mut Moment,
    error: &mut ReadError,
) -> isize
    ensures { IsRead Rfc2822Reads IsByParts text.now result
        moment.old moment.new error.old error.new }
{
    keep(strictly(text), moment, error)
}

/// Reads a text of RFC 2822 as a moment in UTC.
#[unsafe(no_mangle)]
pub extern "C" fn movaliren_read_rfc2822_utc(
    text: &[u8],
    moment: &mut UtcMoment,
    error: &mut ReadError,
) -> isize
    ensures { IsRead Rfc2822Reads IsInUtc text.now result
        moment.old moment.new error.old error.new }
{
    keep(strictly(text), moment, error)
}

/// Reads a text of mail or of a feed as a moment by its parts.
#[unsafe(no_mangle)]
pub extern "C" fn movaliren_read_rfc2822_lenient(
    text: &[u8],
    moment: &mut Moment,
    error: &mut ReadError,
) -> isize
    ensures { IsRead MailReads IsByParts text.now result
        moment.old moment.new error.old error.new }
{
    keep(leniently(text), moment, error)
}

/// Reads a text of mail or of a feed as a moment in UTC.
#[unsafe(no_mangle)]
pub extern "C" fn movaliren_read_rfc2822_lenient_utc(
    text: &[u8],
    moment: &mut UtcMoment,
    error: &mut ReadError,
) -> isize
    ensures { IsRead MailReads IsInUtc text.now result
        moment.old moment.new error.old error.new }
{
    keep(leniently(text), moment, error)
}
