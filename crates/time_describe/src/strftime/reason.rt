//! What can be wrong in a text in the syntax of strftime.
use crate::literal::MOST_ITEMS;
use thiserror::Error;

/// What is wrong at a position of a text in the syntax of strftime.
#[derive(Clone, Copy, Debug, PartialEq, Eq, Error)]
pub enum StrftimeReason {
    /// A `%`, or a flag after one, ends the text.
    #[error("unfinished conversion `%`")]
    Unfinished,
    /// No conversion has this letter, or a colon stands elsewhere than in `%:z`.
    #[error("unknown conversion `%{}`", .0.escape_ascii())]
    UnknownConversion(u8),
    /// `%Z`, the name of a time zone: values have an offset and no name of it.
    #[error("unsupported conversion `%Z`")]
    ZoneName,
    /// `E` or `O`, which ask for a locale's own eras and digits.
    #[error("unsupported modifier `%{}`", .0.escape_ascii())]
    LocaleModifier(u8),
    /// A field width, elsewhere than in `%3N`, `%6N` and `%9N`: its first digit.
    #[error("unsupported field width `%{}`", .0.escape_ascii())]
    FieldWidth(u8),
    /// `^` or `#`, which change the case of letters.
    #[error("unsupported flag `%{}`", .0.escape_ascii())]
    CaseFlag(u8),
    /// `+`, a flag of POSIX.1-2008 and a conversion of other systems.
    #[error("unsupported flag `%+`")]
    PlusFlag,
    /// A flag after another one.
    #[error("second flag `{}`", .0.escape_ascii())]
    SecondFlag(u8),
    /// A flag before this letter, whose conversion takes none.
    #[error("no flag is allowed before `{}`", .0.escape_ascii())]
    FlagWithoutNumber(u8),
    /// The part that begins here has the 65,537th item.
    #[error("more than {MOST_ITEMS} items")]
    TooManyItems,
}
