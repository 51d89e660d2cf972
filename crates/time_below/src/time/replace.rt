//! A time with another hour, minute, second or part of the second.
ghost use Rattle.std.specs.Prelude.{◌≡◌, ◌↔◌, ◌*◌, ◌<◌, IsOk, IfOk, IfErr, codes};
ghost use Rattle.time_below.specs.ComponentRange.{range_refusal, unconditional_range};

use crate::component_range::ComponentRange;
use crate::time::Time;

impl Time {
    /// Returns the time with the hour replaced by another, 0 to 23.
    ///
    /// # Errors
    ///
    /// Any other number is refused as `hour`.
    pub fn replace_hour(self, hour: u8) -> Result<Time, ComponentRange>
        ensures accepted { IsOk result ↔ (hour < 24) }
        ensures value { IfOk result (λ t. t ≡ record self { hour = hour }) }
        ensures refusal { IfErr result (λ e. range_refusal e ≡ unconditional_range (codes "hour")) }
    {
        if hour > 23 {
            return Err(ComponentRange::unconditional("hour"));
        }
        Ok(Time { hour, ..self })
    }

    /// Returns the time with the minute replaced by another, 0 to 59.
    ///
    /// # Errors
    ///
    /// Any other number is refused as `minute`.
    pub fn replace_minute(self, minute: u8) -> Result<Time, ComponentRange>
        ensures accepted { IsOk result ↔ (minute < 60) }
        ensures value { IfOk result (λ t. t ≡ record self { minute = minute }) }
        ensures refusal { IfErr result
            (λ e. range_refusal e ≡ unconditional_range (codes "minute")) }
    {
        if minute > 59 {
            return Err(ComponentRange::unconditional("minute"));
        }
        Ok(Time { minute, ..self })
    }

    /// Returns the time with the second replaced by another, 0 to 59.
    ///
    /// # Errors
    ///
    /// Any other number is refused as `second`.
    pub fn replace_second(self, second: u8) -> Result<Time, ComponentRange>
        ensures accepted { IsOk result ↔ (second < 60) }
        ensures value { IfOk result (λ t. t ≡ record self { second = second }) }
        ensures refusal { IfErr result
            (λ e. range_refusal e ≡ unconditional_range (codes "second")) }
    {
        if second > 59 {
            return Err(ComponentRange::unconditional("second"));
        }
        Ok(Time { second, ..self })
    }

    /// Returns the time with the nanosecond replaced by that of a millisecond, 0 to 999.
    ///
    /// # Errors
    ///
    /// Any other number is refused as `millisecond`.
    pub fn replace_millisecond(self, millisecond: u16) -> Result<Time, ComponentRange>
        ensures accepted { IsOk result ↔ (millisecond < 1_000) }
        ensures value { IfOk result
            (λ t. t ≡ record self { nanosecond = millisecond * 1_000_000 }) }
        ensures refusal { IfErr result (λ e. range_refusal e
            ≡ unconditional_range (codes "millisecond")) }
    {
        if millisecond > 999 {
            return Err(ComponentRange::unconditional("millisecond"));
        }
        Ok(Time {
            nanosecond: millisecond as u32 * 1_000_000,
            ..self
        })
    }

    /// Returns the time with the nanosecond replaced by that of a microsecond, 0 to 999,999.
    ///
    /// # Errors
    ///
    /// Any other number is refused as `microsecond`.
    pub fn replace_microsecond(self, microsecond: u32) -> Result<Time, ComponentRange>
        ensures accepted { IsOk result ↔ (microsecond < 1_000_000) }
        ensures value { IfOk result (λ t. t ≡ record self { nanosecond = microsecond * 1_000 }) }
        ensures refusal { IfErr result (λ e. range_refusal e
            ≡ unconditional_range (codes "microsecond")) }
    {
        if microsecond > 999_999 {
            return Err(ComponentRange::unconditional("microsecond"));
        }
        Ok(Time {
            nanosecond: microsecond * 1_000,
            ..self
        })
    }

    /// Returns the time with the nanosecond replaced by another, 0 to 999,999,999.
    ///
    /// # Errors
    ///
    /// Any other number is refused as `nanosecond`.
    pub fn replace_nanosecond(self, nanosecond: u32) -> Result<Time, ComponentRange>
        ensures accepted { IsOk result ↔ (nanosecond < 1_000_000_000) }
        ensures value { IfOk result (λ t. t ≡ record self { nanosecond = nanosecond }) }
        ensures refusal { IfErr result (λ e. range_refusal e
            ≡ unconditional_range (codes "nanosecond")) }
    {
        if nanosecond > 999_999_999 {
            return Err(ComponentRange::unconditional("nanosecond"));
        }
        Ok(Time { nanosecond, ..self })
    }
}
