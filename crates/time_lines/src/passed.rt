//! The lines of a run that passed as they were.
ghost use Rattle.std.specs.Prelude.{◌≡◌, ◌↔◌, None, true, IfNone, IfSome, if◌then◌else◌};
ghost use Rattle.time_lines.specs.Passed.{begun, first_kept, up};
ghost use Rattle.time_lines.specs.declared.passed.Why.TheVariants.{NoText, TooLong};

/// Why a line passed as it was.
#[derive(Clone, Copy, Debug, PartialEq, Eq)]
pub enum Why {
    /// The text after which a time is looked for is not in it.
    NoPlace,
    /// It has no time.
    NoTime,
    /// It has numbers, of which the first has so many digits, and they are those of no unit.
    NoUnit(usize),
    /// Its numbers are of no year that is asked for.
    OtherYears,
    /// Its time is no moment of the years -999,999 to 999,999: its year is outside, it has more
    /// than 19 digits, or it is a value of JSON with an exponent.
    NoMoment,
    /// No clock shows its time in the years -9999 to 9999: the text has no offset, and its year is
    /// outside.
    NoLocalMoment,
    /// The year of its time does not have the day.
    NoDay,
    /// Decimals follow its time, which the description does not read.
    Decimals,
    /// An offset follows its time, which the description does not read.
    Offset,
    /// The description has no text for its moment.
    NoText,
    /// It has more than so many bytes, its line feed among them.
    TooLong(usize),
}

/// A line that passed as it was.
#[derive(Clone, Copy, Debug, PartialEq, Eq)]
pub struct FirstPassed {
    /// Its number, where the first line is 1.
    pub line: u64,
    pub why: Why,
}

/// The lines of a run, and those that passed as they were.
#[derive(Clone, Copy, Debug)]
pub struct Passed {
    /// How many lines there were, modulo 2^64.
    pub lines: u64,
    /// How many of them passed as they were, modulo 2^64.
    pub count: u64,
    /// The first of these, if there is one.
    pub first: Option<FirstPassed>,
}

impl Passed {
    /// No line.
    pub fn new() -> Passed
        ensures { result ≡ record { lines = 0; count = 0; first = None } }
    {
        Passed {
            lines: 0,
            count: 0,
            first: None,
        }
    }

    /// Counts a line.
    pub(crate) fn begin_line(&mut self)
        ensures { self.new ≡ begun self.old }
    {
        self.lines = self.lines.wrapping_add(1);
    }

    /// Counts a line that passed as it was, which is among the lines already.
    pub(crate) fn pass(&mut self, why: Why)
        ensures lines { self.new.lines ≡ self.old.lines }
        ensures count { self.new.count ≡ up self.old.count }
        ensures first { self.new.first
            ≡ first_kept self.old.first (record { line = self.old.lines; why = why }) }
    {
        self.count = self.count.wrapping_add(1);
        if self.first.is_none() {
            self.first = Some(FirstPassed {
                line: self.lines,
                why,
            });
        }
    }

    /// Counts a line that passed as it was, if there is a reason.
    pub(crate) fn pass_if(&mut self, stays: Option<Why>)
        ensures none { IfNone stays (self.new ≡ self.old) }
        ensures lines { self.new.lines ≡ self.old.lines }
        ensures count { IfSome stays (λ _. self.new.count ≡ up self.old.count) }
        ensures first { IfSome stays (λ why. self.new.first
            ≡ first_kept self.old.first (record { line = self.old.lines; why = why })) }
    {
        if let Some(why) = stays {
            self.pass(why);
        }
    }

    /// Counts a line that passed as it was, since it has more than so many bytes.
    pub(crate) fn pass_long(&mut self, longest: usize)
        ensures lines { self.new.lines ≡ up self.old.lines }
        ensures count { self.new.count ≡ up self.old.count }
        ensures first { self.new.first ≡ first_kept self.old.first
            (record { line = up self.old.lines; why = TooLong longest }) }
    {
        self.begin_line();
        self.pass(Why::TooLong(longest));
    }
}

/// Why a number or a text stays in its place, if nothing took that: nothing is shown of its moment,
/// or it has none for this reason.
pub(crate) fn why_stays(is_shown: bool, has_moment: bool, momentless: Why) -> Option<Why>
    ensures shown { (result ≡ None) ↔ (is_shown ≡ true) }
    ensures why { IfSome result (λ why. why ≡ (if has_moment then NoText else momentless)) }
{
    if is_shown {
        None
    } else if has_moment {
        Some(Why::NoText)
    } else {
        Some(momentless)
    }
}
