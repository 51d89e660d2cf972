//! Numbers with bounds, and the texts of numbers: worked rows, and tables against the kernels.
ghost use Rattle.time_fmt.specs.Room.{HasRoom};

use crate::asserted::{assert_same, assert_that};
use std::alloc::Global;
use std::process::Abort;
use time_below::modifier::{Subsecond, SubsecondDigits};
use time_digits::{
    DIV_100_FACTOR, DIV_100_SHIFT, DigitCount, SINGLE_DIGITS, SPACE_PADDED_PAIRS, StackStr,
    StackTrailingStr, ZERO_PADDED_PAIRS, div_100, five_digits_zero_padded,
    four_digits_space_padded, four_to_six_digits, one_to_four_digits_no_padding, ri8, ri16, ri32,
    ru8, ru16, ru32, single_digit, three_digits_space_padded, truncated_subsecond_from_nanos,
    two_digits_space_padded, two_digits_zero_padded, u64_pad_none, zeros_to_drop,
};
use time_fmt::{Nanoseconds, fmt_subsecond, format_int_padded};

fn byte<const MIN: u8, const MAX: u8>(rt: &impl Abort, n: u8) -> ru8<MIN, MAX> {
    ru8::new(n).expect(rt, "in range")
}

fn pair<const MIN: u16, const MAX: u16>(rt: &impl Abort, n: u16) -> ru16<MIN, MAX> {
    ru16::new(n).expect(rt, "in range")
}

fn word<const MIN: u32, const MAX: u32>(rt: &impl Abort, n: u32) -> ru32<MIN, MAX> {
    ru32::new(n).expect(rt, "in range")
}

/// Compares the numbers that calls give.
macro_rules! given {
    ($rt:ident; $($made:expr => $wanted:expr,)+) => {
        $(assert_same(&$rt, $made.expect(&$rt, "in range").get(), $wanted);)+
    };
}

/// The calls give no number.
macro_rules! refused {
    ($rt:ident; $($made:expr,)+) => {
        $(assert_that(&$rt, $made.is_none());)+
    };
}

#[test]
fn a_number_is_made_in_its_range_alone(rt: HostRuntime) {
    given! { rt;
        ru8::<0, 9>::new(9) => 9,
        ru16::<1, 366>::new(366) => 366,
        ru32::<0, 999_999_999>::new(999_999_999) => 999_999_999,
        ri8::<25>::new(-25) => -25,
        ri16::<9_999>::new(9_999) => 9_999,
        ri32::<999_999>::new(-999_999) => -999_999,
    }
    refused! { rt;
        ru8::<0, 9>::new(10),
        ru8::<1, 31>::new(0),
        ru16::<1, 366>::new(367),
        ru32::<0, 999_999_999>::new(1_000_000_000),
        ri8::<25>::new(26),
        ri16::<9_999>::new(-10_000),
        ri32::<999_999>::new(i32::MIN),
    }
}

#[test]
fn a_number_keeps_its_value_in_other_bounds_and_has_its_magnitude(rt: HostRuntime) {
    let (day, hour) = (ru8::<1, 31>::within(31), ri8::<25>::within(-25));
    assert_same(&rt, day.expand::<0, 99>().get(), 31);
    assert_same(&rt, hour.expand::<59>().get(), -25);
    assert_same(&rt, (hour.is_negative(), hour.abs().get()), (true, 25));
    assert_same(&rt, ri8::<255>::within(-128).abs().get(), 128);
    given! { rt; day.narrow::<31, 31>() => 31, hour.narrow::<25>() => -25, }
    refused! { rt; day.narrow::<1, 30>(), hour.narrow::<24>(), }
}

/// Counts through the trait's bound, as generic callers do.
fn assert_digits<N: DigitCount>(rt: &impl Abort, n: N, wanted: u8) {
    assert_same(rt, n.num_digits(), wanted);
}

#[test]
fn digits_are_counted(rt: HostRuntime) {
    assert_digits(&rt, 0u8, 1);
    assert_digits(&rt, 255u8, 3);
    assert_digits(&rt, 9_999u16, 4);
    assert_digits(&rt, u32::MAX, 10);
}

#[test]
fn quotients_of_all_numbers_are_right_and_the_first_wrong_one_is_out_of_range(rt: HostRuntime) {
    for n in 0..10_000u16 {
        let [high, low] = div_100(pair(&rt, n));
        assert_same(&rt, u16::from(high.get()), n / 100);
        assert_same(&rt, u16::from(low.get()), n % 100);
    }
    let product = 43_699 * DIV_100_FACTOR;
    assert_same(&rt, product, 229_113_857);
    assert_same(&rt, product >> DIV_100_SHIFT, 437);
}

#[test]
fn each_text_of_two_digits_stands_in_its_table(rt: HostRuntime) {
    assert_same(&rt, SINGLE_DIGITS.len(), 10);
    assert_same(&rt, ZERO_PADDED_PAIRS.len(), 200);
    assert_same(&rt, SPACE_PADDED_PAIRS.len(), 200);
    for n in 0..100u8 {
        let place = 2 * n as usize;
        let zeros = &ZERO_PADDED_PAIRS.as_bytes()[place..place + 2];
        let spaces = &SPACE_PADDED_PAIRS.as_bytes()[place..place + 2];
        assert_same(&rt, two_digits_zero_padded(byte(&rt, n)).as_bytes(), zeros);
        assert_same(
            &rt,
            two_digits_space_padded(byte(&rt, n)).as_bytes(),
            spaces,
        );
    }
    assert_same(&rt, single_digit(ru8::within(7)), "7");
}

const FOUR_TO_SIX: &[(u32, [&str; 3])] = &[
    (7, ["", "00", "07"]),
    (10_000, ["1", "00", "00"]),
    (123_456, ["12", "34", "56"]),
];

const FOUR: &[(u16, [&str; 2], [&str; 2])] = &[
    (0, ["  ", " 0"], ["", "0"]),
    (5, ["  ", " 5"], ["", "5"]),
    (45, ["  ", "45"], ["", "45"]),
    (100, [" 1", "00"], ["1", "00"]),
    (105, [" 1", "05"], ["1", "05"]),
    (9_999, ["99", "99"], ["99", "99"]),
];

#[test]
fn numbers_come_in_pieces(rt: HostRuntime) {
    for &(n, pieces) in FOUR_TO_SIX {
        assert_same(&rt, four_to_six_digits(word(&rt, n)), pieces);
    }
    for &(n, spaces, plain) in FOUR {
        assert_same(&rt, four_digits_space_padded(pair(&rt, n)), spaces);
        assert_same(&rt, one_to_four_digits_no_padding(pair(&rt, n)), plain);
    }
    assert_same(&rt, three_digits_space_padded(ru16::within(7)), [" ", " 7"]);
    assert_same(
        &rt,
        five_digits_zero_padded(ru32::within(7)),
        ["0", "00", "07"],
    );
}

const WHOLE: &[(u64, &str)] = &[
    (0, "0"),
    (9, "9"),
    (10, "10"),
    (999, "999"),
    (1_000, "1000"),
    (9_999, "9999"),
    (10_000, "10000"),
    (100_000_007, "100000007"),
    (10_000_000_000_000_000, "10000000000000000"),
    (u64::MAX, "18446744073709551615"),
];

#[test]
fn whole_numbers_have_no_more_than_their_digits(rt: HostRuntime) {
    for &(n, text) in WHOLE {
        assert_same(&rt, u64_pad_none(n).as_str(), text);
    }
}

const WORDS: &[([u8; 8], u32)] = &[
    (*b"00000000", 8),
    (*b"00000001", 0),
    (*b"10000000", 7),
    (*b"20000000", 7),
    (*b"12345678", 0),
];

#[test]
fn the_last_zeros_of_a_word_are_counted(rt: HostRuntime) {
    for &(digits, zeros) in WORDS {
        assert_same(&rt, zeros_to_drop(u64::from_le_bytes(digits)), zeros);
    }
}

/// An empty vector with room for each text of these tests.
fn empty(rt: &impl Abort, alloc: Global) -> Vec<u8>
    ensures { HasRoom result 20 }
{
    let Ok(output) = Vec::with_capacity(alloc, 20) else {
        panic!(rt; "no memory");
    };
    output
}

/// Compares a number's decimals without zeros at their end, as a text and as they are written.
#[tactic(auto, using(time_fmt::proofs::TrimLemmas::subsecond_lengths))]
fn assert_trimmed(rt: &impl Abort, alloc: Global, nanosecond: Nanoseconds, text: &str) {
    let mut output = empty(rt, alloc);
    let digits = SubsecondDigits::OneOrMore;
    let count = fmt_subsecond(&mut output, nanosecond, Subsecond { digits });
    assert_same(rt, output.as_slice(), text.as_bytes());
    assert_same(rt, count, text.len());
    assert_same(
        rt,
        truncated_subsecond_from_nanos(nanosecond).as_str(),
        text,
    );
}

const TRIMMED: &[(u32, &str)] = &[
    (0, "0"),
    (1, "000000001"),
    (10, "00000001"),
    (120_000_000, "12"),
    (100_000_000, "1"),
    (999_999_999, "999999999"),
];

#[test]
fn both_trimmed_forms_end_at_the_last_digit(rt: HostRuntime) {
    for &(nanosecond, text) in TRIMMED {
        assert_trimmed(&rt, rt.alloc(), word(&rt, nanosecond), text);
    }
}

#[test]
#[tactic(auto, using(time_fmt::proofs::NumberLemmas::number_lengths))]
fn a_number_is_filled_with_zeros_to_a_width(rt: HostRuntime) {
    let mut output = empty(&rt, rt.alloc());
    assert_same(&rt, format_int_padded(&mut output, 42, 4), 4);
    assert_same(&rt, output.as_slice(), b"0042".as_slice());
}

#[test]
fn texts_in_arrays_are_their_first_or_last_bytes(rt: HostRuntime) {
    let first = StackStr::new(*b"12000", 2);
    assert_same(&rt, (first.as_str(), first.len()), ("12", 2));
    let last = StackTrailingStr::new(*b"00042", 3);
    assert_same(&rt, (last.as_str(), last.len()), ("42", 2));
}
