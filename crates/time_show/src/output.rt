//! Answers on their way out.
ghost use Rattle.std.specs.Prelude.{◌≡◌, OnOk, OnErr};
ghost use Rattle.time_digits.specs.Digits.{joined};
ghost use Rattle.time_show.specs.Reply.{reply_text};
ghost use Rattle.time_show.specs.Run.{Writes};

use crate::ShowError;
use crate::reply::Reply;
use std::io::Write;
use time_digits::u64_pad_none;

/// Writes all the bytes. A write that takes no byte fails.
fn write_bytes<W: Write>(output: &mut W, bytes: &[u8]) -> Result<(), ShowError>
    ensures { Writes result (W.contents output.old) (W.contents output.new) bytes.now }
{
    let mut done = 0;
    while done < bytes.len() {
        match output.write(&bytes[done..]) {
            Ok(0) => return Err(ShowError::Write),
            Ok(count) => done += count,
            Err(_) => return Err(ShowError::Write),
        }
    }
    Ok(())
}

/// Writes the parts, one after another.
fn append_all<W: Write>(output: &mut W, parts: &[&[u8]]) -> Result<(), ShowError>
    ensures { Writes result (W.contents output.old) (W.contents output.new) (joined parts.now) }
{
    for part in parts {
        write_bytes(output, part)?;
    }
    Ok(())
}

/// Writes the text of the reply.
pub fn append_reply<W: Write>(output: &mut W, reply: Reply<'_>) -> Result<(), ShowError>
    ensures { Writes result (W.contents output.old) (W.contents output.new)
        (reply_text reply.entry) }
{
    match reply {
        Reply::Formatted { count, width, text } => {
            let count = u64_pad_none(count as u64);
            let width = u64_pad_none(width as u64);
            append_all(
                output,
                &[
                    b"ok ",
                    count.as_str().as_bytes(),
                    b" ",
                    width.as_str().as_bytes(),
                    b" ",
                    text,
                    b"\n",
                ],
            )
        }
        Reply::Refused { written, name } => {
            let written = u64_pad_none(written as u64);
            append_all(
                output,
                &[
                    b"refused ",
                    written.as_str().as_bytes(),
                    b" ",
                    name.as_bytes(),
                    b"\n",
                ],
            )
        }
        Reply::BadLine => append_all(output, &[b"bad line\n"]),
    }
}
