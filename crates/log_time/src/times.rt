//! The texts of moments that stand in the lines of one log.
ghost use Rattle.std.specs.Prelude.{◌↔◌, ℕ, List, Option, option_map};
ghost use Rattle.time_below.specs.Moment.{Moment};
ghost use Rattle.time_digits.specs.Shown.{shown};
ghost use Rattle.log_time.specs.Times.{IsTimeAt};

use crate::log_time::LogTime;
use time_below::Timestamp;
use time_digits::StackStr;

/// The times of the lines of one log. A moment may have no text.
pub trait Times {
    /// What may be the text of a moment, which may have none.
    ghost shows: { Self → Moment → Option (List ℕ) → Type 0 };

    /// Returns the text of a moment, if it has one.
    fn time_text(&mut self, moment: Timestamp) -> Option<StackStr<35>>
        ensures same { (m : Moment) (text : Option (List ℕ))
            → shows self.old m text ↔ shows self.new m text }
        ensures shown { shows self.old moment (option_map shown result) };
}

impl Times for LogTime {
    ghost shows = { λ times. IsTimeAt times.decimals times.offset };

    fn time_text(&mut self, moment: Timestamp) -> Option<StackStr<35>> {
        match self.text(moment) {
            Ok(text) => Some(text),
            Err(_) => None,
        }
    }
}
