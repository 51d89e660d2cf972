//! Descriptions that are known at compile time, by their parts in order. One import has all that it
//! takes:
//!
//! ```text
//! use time::parts::*;
//!
//! moment.format_into(&mut line, &text!(YEAR, b"-", MONTH, b"-", DAY))?;
//! ```
//!
//! The constants are components by the choices that `time` takes where none are named: zeros before
//! a number, a sign only where it is needed, letters as they are. Other choices are written out, as
//! `Day { padding: Padding::None }` of [`modifier`](crate::format_description::modifier).

pub use crate::format_description::Literal;
pub use crate::format_value::FormatValue;
pub use crate::text;
pub use time_fmt::parts::{
    DAY, HOUR, HOUR_12, ISO_YEAR, ISO_YEAR_CENTURY, ISO_YEAR_CENTURY_STANDARD, ISO_YEAR_LAST_TWO,
    ISO_YEAR_STANDARD, MINUTE, MONTH, MONTH_LONG, MONTH_SHORT, NINE_DECIMALS, OFFSET_HOUR,
    OFFSET_MINUTE, OFFSET_SECOND, ORDINAL, PERIOD, SECOND, SIGNED_OFFSET_HOUR, SIX_DECIMALS,
    SUBSECOND, THREE_DECIMALS, UNIX_TIMESTAMP, UNIX_TIMESTAMP_MILLISECOND, WEEK_NUMBER,
    WEEK_NUMBER_MONDAY, WEEK_NUMBER_SUNDAY, WEEKDAY, WEEKDAY_MONDAY, WEEKDAY_SHORT, WEEKDAY_SUNDAY,
    YEAR, YEAR_CENTURY, YEAR_CENTURY_STANDARD, YEAR_LAST_TWO, YEAR_STANDARD,
};

/// Makes a description of its parts in order.
///
/// A text in bytes, such as `b"-"`, is a [`Literal`]. Any other part is a description: the choices
/// of a component, a well-known format, a tree, or another `text!`. At a call there may be 32
/// parts: write a longer text by two calls.
///
/// # Examples
///
/// ```text
/// moment.format_into(&mut line, &text!(YEAR, b"-", MONTH, b"-", DAY))?;
/// ```
#[macro_export]
macro_rules! text {
    (@[] [$a:expr]) => { $a };
    (@[] [$a:expr, $b:expr]) => { ($a, $b) };
    (@[] [$a:expr, $b:expr, $c:expr]) => { (($a, $b), $c) };
    (@[] [$a:expr, $b:expr, $c:expr, $d:expr]) => { (($a, $b), ($c, $d)) };
    (@[$($group:expr),+] [$($part:expr),+]) => {
        $crate::text!(@[] [] $($group,)+ $crate::text!(@[] [$($part),+]))
    };
    (@[$($group:expr),*] [$a:expr, $b:expr, $c:expr, $d:expr] $($rest:tt)+) => {
        $crate::text!(@[$($group,)* (($a, $b), ($c, $d))] [] $($rest)+)
    };
    (@[$($group:expr),*] [$($part:expr),*] $text:literal $(, $($rest:tt)*)?) => {
        $crate::text!(
            @[$($group),*] [$($part,)* $crate::format_description::Literal(*$text)] $($($rest)*)?
        )
    };
    (@[$($group:expr),*] [$($part:expr),*] $next:expr $(, $($rest:tt)*)?) => {
        $crate::text!(@[$($group),*] [$($part,)* $next] $($($rest)*)?)
    };
    ($($parts:tt)+) => { $crate::text!(@[] [] $($parts)+) };
}
