//! Descriptions from a text: what is wrong with a text, where, and in words; and texts that are long
//! or deep.
mod hostile;

use crate::asserted::{assert_displays, assert_same, assert_text, wednesday};
use std::alloc::Global;
use std::default::Default;
use std::process::Abort;
use std::test::Fail;
use time_below::OwnedFormatItem;
use time_describe::{
    BracketReason, InvalidDescription, InvalidStrftime, StrftimeReason, parse_owned,
    parse_strftime_owned,
};
use time_fmt::{DateState, Formattable};

/// Compares what a description formats of the Wednesday with a text.
fn assert_formats(rt: &impl Abort, alloc: Global, item: &OwnedFormatItem, wanted: &str) {
    match item.format(alloc, &wednesday(rt), &mut DateState::default()) {
        Ok(text) => assert_text(rt, text, wanted),
        Err(refusal) => panic!(rt; "{wanted}: {refusal}"),
    }
}

#[test]
fn a_text_of_either_syntax_is_a_description(rt: HostRuntime) -> Result<(), Fail> {
    let alloc = rt.alloc();
    let brackets = parse_owned(
        alloc,
        br"[first [[year]\[[optional [[month]]]]] [day padding:none]",
    )?;
    assert_formats(&rt, alloc, &brackets, "1997[11 12");
    let percents = parse_strftime_owned(alloc, b"%d/%b/%Y:%H:%M:%S %z %%")?;
    assert_formats(&rt, alloc, &percents, "12/Nov/1997:09:55:06 -0630 %");
    Ok(())
}

/// Rows of a text in brackets, its first fault with the index of the byte, and the words that
/// display it beside the text.
macro_rules! bracket_faults {
    ($($text:literal $reason:ident $index:literal $words:literal,)+) => {
        &[$(($text, BracketReason::$reason, $index, $words)),+]
    };
}

const BRACKET_FAULTS: &[(&str, BracketReason, usize, &str)] = bracket_faults! {
    "[year" UnclosedBracket 0 "unclosed bracket at byte 0",
    "[day [" UnclosedBracket 0 "unclosed bracket at byte 0",
    "[first [a" UnclosedBracket 7 "unclosed bracket at byte 7",
    "[first [a]" UnclosedBracket 0 "unclosed bracket at byte 0",
    r"x\y" InvalidEscape 1 r"invalid escape sequence `\y` at byte 1",
    r"x\" InvalidEscape 1 r"invalid escape sequence `\` at byte 1",
    "a[]" MissingName 2 "missing component name at byte 2",
    "[yaer]" UnknownName 1 "unknown component `yaer` at byte 1",
    "[day pad:none]" UnknownModifier 5 "unknown modifier `pad:none` at byte 5",
    "[day none]" UnknownModifier 5 "unknown modifier `none` at byte 5",
    "[day padding:no]" InvalidValue 5 "invalid modifier value `padding:no` at byte 5",
    "[ignore count:0]" InvalidValue 8 "invalid modifier value `count:0` at byte 8",
    "[ignore count:65536]" InvalidValue 8 "invalid modifier value `count:65536` at byte 8",
    "[ignore]" MissingModifier 7 "missing modifier `count` at byte 7",
    "a[optional ]" MissingItems 11 "missing list of items at byte 11",
    "[optional [a] [b]]" UnexpectedByte 14 "unexpected text `[` at byte 14",
    "[first [a] x]" UnexpectedByte 11 "unexpected text `x` at byte 11",
};

/// What is wrong with a text in brackets, and the index of its byte.
fn fault_in_brackets(alloc: Global, text: &[u8]) -> Option<(BracketReason, usize)> {
    match parse_owned(alloc, text) {
        Err(InvalidDescription::Invalid { reason, index }) => Some((reason, index)),
        _ => None,
    }
}

#[test]
fn a_text_in_brackets_has_its_first_fault(rt: HostRuntime) {
    for &(text, reason, index, words) in BRACKET_FAULTS {
        let fault = fault_in_brackets(rt.alloc(), text.as_bytes());
        assert!(rt; fault == Some((reason, index)), "{text}");
        let error = InvalidDescription::Invalid { reason, index };
        assert_displays(&rt, rt.alloc(), &error.in_text(text.as_bytes()), words);
    }
}

/// Texts in the syntax of strftime, and what is said of them.
const PERCENT_FAULTS: &[(&str, &str)] = &[
    ("%H:%", "unfinished conversion `%` at byte 3"),
    ("%_", "unfinished conversion `%` at byte 0"),
    ("at %Q", "unknown conversion `%Q` at byte 4"),
    ("%::z", "unknown conversion `%:` at byte 1"),
    ("%é", "unknown conversion `%\\xc3` at byte 1"),
    ("%T %Z", "unsupported conversion `%Z` at byte 4"),
    ("%Ey", "unsupported modifier `%E` at byte 1"),
    ("%Od", "unsupported modifier `%O` at byte 1"),
    ("%5Y", "unsupported field width `%5` at byte 1"),
    ("%^a", "unsupported flag `%^` at byte 1"),
    ("%#Z", "unsupported flag `%#` at byte 1"),
    ("%+", "unsupported flag `%+` at byte 1"),
    ("%-0d", "second flag `0` at byte 2"),
    ("%-F", "no flag is allowed before `F` at byte 2"),
    ("%0N", "no flag is allowed before `N` at byte 2"),
];

/// What is wrong with a text in the syntax of strftime, and the index of its byte.
fn fault_in_percents(alloc: Global, text: &[u8]) -> Option<(StrftimeReason, usize)> {
    match parse_strftime_owned(alloc, text) {
        Err(InvalidStrftime::Invalid { reason, index }) => Some((reason, index)),
        _ => None,
    }
}

#[test]
fn a_text_of_conversions_has_its_first_fault(rt: HostRuntime) {
    for &(text, words) in PERCENT_FAULTS {
        let Some((reason, index)) = fault_in_percents(rt.alloc(), text.as_bytes()) else {
            panic!(rt; "{text}");
        };
        let error = InvalidStrftime::Invalid { reason, index };
        assert_displays(&rt, rt.alloc(), &error, words);
    }
}

/// The words of limits, of memory, and of a word of 64 bytes and of none.
macro_rules! displayed {
    ($rt:ident; $($shown:expr => $words:literal,)+) => {
        $(assert_displays(&$rt, $rt.alloc(), &$shown, $words);)+
    };
}

#[test]
fn limits_and_words_of_up_to_64_bytes_are_displayed(rt: HostRuntime) {
    let deep = InvalidDescription::Invalid {
        reason: BracketReason::TooDeep,
        index: 263,
    };
    let many = InvalidStrftime::Invalid {
        reason: StrftimeReason::TooManyItems,
        index: 131_072,
    };
    let unknown = InvalidDescription::Invalid {
        reason: BracketReason::UnknownName,
        index: 1,
    };
    let without_memory: InvalidDescription = InvalidDescription::OutOfMemory;
    let longest = b"[abcdefghijklmnopqrstuvwxyz012345abcdefghijklmnopqrstuvwxyz012345]";
    displayed! { rt;
        deep => "more than 32 lists in one another at byte 263",
        deep.in_text(b"[day]") => "more than 32 lists in one another at byte 263",
        many => "more than 65536 items at byte 131072",
        without_memory.in_text(b"[day]") => "memory could not be reserved",
        InvalidStrftime::OutOfMemory => "memory could not be reserved",
        unknown.in_text(longest) => "unknown component `abcdefghijklmnopqrstuvwxyz012345abcdefghijklmnopqrstuvwxyz012345` at byte 1",
        unknown.in_text(&[b'a'; 66]) => "unknown component at byte 1",
        unknown.in_text(b"[\xff]") => "unknown component at byte 1",
        unknown => "unknown component at byte 1",
    }
    assert_same(&rt, longest.len(), 66);
}
