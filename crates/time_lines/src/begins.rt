//! How texts of a plan begin, by which most places of a line are passed over.
use crate::described::FormRow;
use time_below::format_description::Component;
use time_below::format_description::modifier::Padding;
use time_plan::{Literal, Run, Shown, Step};

/// A byte that stands at a place of each text that begins without a sign.
#[derive(Clone, Copy, PartialEq, Eq)]
struct Mark {
    at: usize,
    byte: u8,
}

/// Which bytes texts of a plan may begin with, and a byte that they have behind what they show
/// first.
#[derive(Drop)]
pub(crate) struct Begins {
    first: [bool; 256],
    mark: Option<Mark>,
}

/// The bytes that a text may begin with.
#[derive(Clone, Copy)]
enum First {
    Digits,
    /// Digits, or spaces before them.
    SpacedDigits,
    /// Digits, or a sign or spaces before them.
    Signed,
    Letters,
    Only(u8),
    Any,
}

impl First {
    fn has(self, byte: u8) -> bool {
        match self {
            First::Digits => byte.is_ascii_digit(),
            First::SpacedDigits => byte.is_ascii_digit() || byte == b' ',
            First::Signed => byte.is_ascii_digit() || is_sign(byte) || byte == b' ',
            First::Letters => byte.is_ascii_alphabetic(),
            First::Only(only) => byte == only,
            First::Any => true,
        }
    }
}

fn is_sign(byte: u8) -> bool {
    byte == b'+' || byte == b'-'
}

/// What a text begins with that shows a number by this padding.
fn digits_by(padding: Padding) -> First {
    match padding {
        Padding::Space => First::SpacedDigits,
        _ => First::Digits,
    }
}

/// How many bytes a number of so many digits has by this padding, if that is certain.
fn width_by(padding: Padding, digits: usize) -> Option<usize> {
    match padding {
        Padding::None => None,
        _ => Some(digits),
    }
}

/// What a text begins with that shows this component first, and how many bytes that has where it
/// has no sign, if this is certain.
fn begin_of(component: Component) -> (First, Option<usize>) {
    let (padding, digits) = match component {
        Component::MonthShort(_) | Component::WeekdayShort(_) => return (First::Letters, Some(3)),
        Component::MonthLong(_) | Component::WeekdayLong(_) | Component::Period(_) => {
            return (First::Letters, None);
        }
        Component::CalendarYearFullExtendedRange(year) => {
            return (First::Signed, width_by(year.padding, 4));
        }
        Component::CalendarYearFullStandardRange(year) => {
            return (First::Signed, width_by(year.padding, 4));
        }
        Component::CalendarYearLastTwo(year) => (year.padding, 2),
        Component::MonthNumerical(month) => (month.padding, 2),
        Component::Day(day) => (day.padding, 2),
        Component::Hour24(hour) => (hour.padding, 2),
        Component::Hour12(hour) => (hour.padding, 2),
        Component::Minute(minute) => (minute.padding, 2),
        Component::UnixTimestampSecond(_) | Component::UnixTimestampMillisecond(_) => {
            return (First::Signed, None);
        }
        _ => return (First::Any, None),
    };
    (digits_by(padding), width_by(padding, digits))
}

/// The first byte of a literal, if it has one.
fn first_byte(literal: &Literal) -> Option<u8> {
    match literal {
        Literal::Byte(byte) => Some(*byte),
        Literal::Bytes(bytes) => bytes.first().copied(),
    }
}

/// How texts begin that show this first, with this byte of a literal behind it.
fn begin_of_step(shown: &Shown, behind: Option<u8>) -> (First, Option<Mark>) {
    let (first, width) = match shown {
        Shown::Component(component) => begin_of(component.current()),
        Shown::Run(Run::Date(between)) => {
            let (at, byte) = (4, between.first);
            return (First::Signed, Some(Mark { at, byte }));
        }
        Shown::Run(Run::Time(between)) => {
            let (at, byte) = (2, between.first);
            return (First::Digits, Some(Mark { at, byte }));
        }
        Shown::Nothing => match behind {
            Some(byte) => return (First::Only(byte), None),
            None => (First::Any, None),
        },
    };
    match (width, behind) {
        (Some(at), Some(byte)) => (first, Some(Mark { at, byte })),
        _ => (first, None),
    }
}

/// For each byte whether it is among the first ones.
fn table_of(first: First) -> [bool; 256] {
    let mut table = [false; 256];
    for byte in 0..=255u8 {
        table[byte as usize] = first.has(byte);
    }
    table
}

impl Begins {
    /// How texts of these steps begin.
    pub(crate) fn of(steps: &[Step]) -> Begins {
        let (first, mark) = match steps {
            [step, ..] => begin_of_step(&step.shown, first_byte(&step.literal)),
            [] => (First::Any, None),
        };
        Begins {
            first: table_of(first),
            mark,
        }
    }

    /// How texts begin that begin by one or by the other.
    pub(crate) fn or(&self, other: &Begins) -> Begins {
        let mut first = self.first;
        for byte in 0..=255u8 {
            let at = byte as usize;
            first[at] = first[at] || other.first[at];
        }
        let mark = if self.mark == other.mark {
            self.mark
        } else {
            None
        };
        Begins { first, mark }
    }

    /// How texts begin that begin by one of these.
    pub(crate) fn of_each(rows: &[FormRow<'_>]) -> Begins {
        let mut begins: Option<Begins> = None;
        for row in rows {
            begins = Some(match &begins {
                Some(others) => others.or(&row.begins),
                None => row.begins.or(&row.begins),
            });
        }
        begins.unwrap_or_else(|| Begins::of(&[]))
    }

    /// Whether a text may begin so.
    ///
    /// It needs no contract. A text that begins so is read, and its reader decides. Any other is
    /// left as it is, which a reader may do with each text.
    pub(crate) fn may_begin(&self, text: &[u8]) -> bool {
        let Some(first) = text.first() else {
            return false;
        };
        if !self.first[*first as usize] {
            return false;
        }
        match self.mark {
            None => true,
            Some(mark) => is_sign(*first) || text.get(mark.at) == Some(&mark.byte),
        }
    }
}
