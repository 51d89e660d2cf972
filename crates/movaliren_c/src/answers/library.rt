//! What a program asks of the library itself: its version, and the words of reasons.
ghost use Rattle.std.specs.Prelude.{◌≡◌, Ok};
ghost use Rattle.movaliren_c.specs.Answer.{IsAnswer};
ghost use Rattle.movaliren_c.specs.Words.{error_words, words_numbered};
ghost use Rattle.time_fmt.specs.Outcome.{done};

use crate::answers::reason::answer_number;
use crate::answers::room::copy_text;

/// The version of the library: 10,000 for its first part, 100 for the second, and the third.
#[unsafe(no_mangle)]
pub extern "C" fn movaliren_version() -> u32
    ensures { result ≡ 100 }
{
    100
}

/// The words of a reason that a call returned.
#[unsafe(no_mangle)]
pub extern "C" fn movaliren_strerror_r(error: isize, buffer: &mut [u8]) -> isize
    ensures { IsAnswer (Ok (done (error_words error))) result buffer.old buffer.new }
{
    answer_number(copy_text(error_words(error), buffer))
}

fn error_words(number: isize) -> &'static [u8]
    ensures { result.now ≡ error_words number }
{
    if number < 0 {
        words_numbered(number.unsigned_abs())
    } else {
        b"no error"
    }
}

#[tactic(auto, unfolding(crate::specs::Words::words_numbered))]
fn words_numbered(number: usize) -> &'static [u8]
    ensures { result.now ≡ words_numbered number }
{
    match number {
        1 => b"the year is outside -999999 to 999999".as_slice(),
        2 => b"the month is outside 1 to 12".as_slice(),
        3 => b"the month has no such day".as_slice(),
        4 => b"the hour is outside 0 to 23".as_slice(),
        5 => b"the minute is outside 0 to 59".as_slice(),
        6 => b"the second is outside 0 to 59".as_slice(),
        7 => b"the nanosecond is outside 0 to 999999999".as_slice(),
        8 => b"the hours of the offset are outside -25 to 25".as_slice(),
        9 =>
            b"the minutes of the offset are outside -59 to 59, or of another sign than its hours".as_slice(),
        10 =>
            b"the seconds of the offset are outside -59 to 59, or of another sign than its hours or minutes".as_slice(),
        11 => b"the seconds are outside the years -999999 to 999999".as_slice(),
        12 => b"the format cannot represent the year".as_slice(),
        13 => b"the format cannot represent the hours of the offset".as_slice(),
        14 => b"the format cannot represent the minutes of the offset".as_slice(),
        15 => b"the format cannot represent the seconds of the offset".as_slice(),
        16 => b"the value lacks a component of the format".as_slice(),
        17 => b"a component is outside the range of its item".as_slice(),
        18 => b"invalid configuration value".as_slice(),
        19 => b"invalid item".as_slice(),
        20 => b"the text does not fit the buffer".as_slice(),
        21 | 22 => b"unknown error".as_slice(),
        23 => b"the text is not one of the format".as_slice(),
        24 => b"the text is not a description".as_slice(),
        25 => b"the description has more items than there is room for".as_slice(),
        26 => b"the texts do not determine a moment".as_slice(),
        _ => b"unknown error".as_slice(),
    }
}
