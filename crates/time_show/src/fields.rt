//! The fields of a line, and the numbers that they spell.
ghost use Rattle.std.specs.Prelude.{◌≡◌, ℕ, ℤ, List, [], ◌∷◌, ◌<◌, ◌≢◌, ◌^◌, IfSome, length};
ghost use Rattle.std.specs.Prelude.{MatchOption, Some, position};
ghost use Rattle.time_show.specs.Fields.{is_space, fields_of, numbers_of, onto_numbers};
ghost use Rattle.time_show.specs.Fields.{natural_of};

use std::marker::Model;

/// The most digits of a number.
const DIGITS_LIMIT: usize = 9;

/// The fields that are left of a line. Exactly one space stands between two fields.
#[derive(Drop)]
pub struct LineFields<'a> {
    rest: Option<&'a [u8]>,
}

impl<'a> Model for LineFields<'a> {
    ghost use Rattle.std.specs.Prelude.{List, ℕ};

    ghost Value = { List (List ℕ) };

    ghost use Rattle.time_show.specs.Fields.{fields_left};

    ghost view = { λ f. fields_left f.rest };
}

impl<'a> LineFields<'a> {
    /// The fields of the line.
    pub fn new(line: &'a [u8]) -> Self
        ensures { result ≡ fields_of line.now }
    {
        LineFields { rest: Some(line) }
    }

    /// Takes the first field, if one is left.
    pub fn next_field(&mut self) -> Option<&'a [u8]>
        ensures { MatchOption result (self.old ≡ []) (λ field. self.old ≡ field.now ∷ self.new) }
    {
        let line = self.rest?;
        match place_of_space(line) {
            Some(end) => {
                self.rest = Some(&line[end + 1..]);
                Some(&line[..end])
            }
            None => {
                self.rest = None;
                Some(line)
            }
        }
    }

    /// Takes the first field, if it spells a number: perhaps a minus sign, and one to nine decimal
    /// digits.
    fn next_number(&mut self) -> Option<i32>
        ensures { MatchOption result
            ((others : List ℤ) → numbers_of self.old ≡ Some others → others ≡ [])
            (λ n. numbers_of self.old ≡ onto_numbers (Some n) (numbers_of self.new)) }
    {
        match self.next_field()? {
            [b'-', digits @ ..] => Some(-(natural_of(digits)? as i32)),
            digits => Some(natural_of(digits)? as i32),
        }
    }

    /// The numbers that all fields spell, if these are `N` and each of them spells one.
    pub fn numbers<const N: usize>(self) -> Option<[i32; N]>
        ensures { MatchOption result
            ((all : List ℤ) → numbers_of self.entry ≡ Some all → length all ≢ N)
            (λ all. numbers_of self.entry ≡ Some all) }
    {
        let mut fields = self;
        let mut numbers = [0; N];
        for i in 0..N {
            numbers[i] = fields.next_number()?;
        }
        match fields.next_field() {
            None => Some(numbers),
            Some(_) => None,
        }
    }
}

/// The first position of a space.
fn place_of_space(line: &[u8]) -> Option<usize>
    ensures { result ≡ position is_space line.now }
{
    line.iter().position(|byte| *byte == b' ')
}

/// The number that one to nine decimal digits spell.
fn natural_of(digits: &[u8]) -> Option<u32>
    ensures value { result ≡ natural_of digits.now }
    ensures small { IfSome result (λ n. n < 10 ^ DIGITS_LIMIT) }
{
    if digits.is_empty() || digits.len() > DIGITS_LIMIT {
        return None;
    }
    let mut value = 0;
    for digit in digits {
        if !digit.is_ascii_digit() {
            return None;
        }
        value = value * 10 + u32::from(digit - b'0');
    }
    Some(value)
}
