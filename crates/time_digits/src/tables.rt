//! The constant texts that the texts of all numbers of one and two digits are borrowed from.
ghost use Rattle.std.specs.Prelude.{◌≡◌, ◌+◌, ◌≤◌, length, take, drop, IsTrue};
ghost use Rattle.time_digits.specs.Digits.{is_ascii};

/// The digits 0 to 9, in 10 bytes; the digit `n` is at the index `n`.
pub const SINGLE_DIGITS: &str = "0123456789";

/// The numbers 0 to 99 in two places each, with a zero in front of those below 10, in 200 bytes;
/// the number `n` is at the index `2 * n`.
pub const ZERO_PADDED_PAIRS: &str = "\
0001020304050607080910111213141516171819\
2021222324252627282930313233343536373839\
4041424344454647484950515253545556575859\
6061626364656667686970717273747576777879\
8081828384858687888990919293949596979899";

/// The numbers 0 to 99 in two places each, with a space in front of those below 10, in 200 bytes;
/// the number `n` is at the index `2 * n`.
pub const SPACE_PADDED_PAIRS: &str = " 0 1 2 3 4 5 6 7 8 9\
10111213141516171819\
2021222324252627282930313233343536373839\
4041424344454647484950515253545556575859\
6061626364656667686970717273747576777879\
8081828384858687888990919293949596979899";

/// The magnitudes of the numbers -59 to 59 in two places each, with a zero in front of those below
/// 10, in 238 bytes; that of the number `n` is at the index `2 * (n + 59)`.
pub const MAGNITUDE_PAIRS: &str = "\
5958575655545352515049484746454443424140\
3938373635343332313029282726252423222120\
1918171615141312111009080706050403020100\
0102030405060708091011121314151617181920\
2122232425262728293031323334353637383940\
41424344454647484950515253545556575859";

/// Returns the `len` bytes of an ASCII table from `start` on.
#[tactic(auto, using(crate::proofs::TableLemmas::ascii_boundary))]
pub fn piece_of(table: &'static str, start: usize, len: usize) -> &'static str
    requires ascii { IsTrue (is_ascii table.now) }
    requires within { start + len ≤ length table.now }
    ensures piece { result.now ≡ take len (drop start table.now) }
    ensures length { length result.now ≡ len }
{
    &table[start..start + len]
}
