//! The bytes at which items begin, of which a text may have 65,536.
ghost use Rattle.std.specs.Prelude.{◌≡◌, ◌||◌, ◌==◌};
ghost use Rattle.time_describe.specs.Limit.{most_items};
ghost use Rattle.time_describe.specs.Marks.{past};

use crate::literal::MOST_ITEMS;

/// Whether the byte is one of two.
fn is_either(one: u8, other: u8, byte: u8) -> bool
    ensures { result ≡ (byte == one || byte == other) }
{
    byte == one || byte == other
}

/// Returns the distance from the end of the byte that begins item 65,537, if there is one.
///
/// Items begin with one of two bytes.
pub fn first_item_over_limit(one: u8, other: u8, text: &[u8]) -> Option<usize>
    ensures { result ≡ past (λ b. b == one || b == other) most_items text.now }
{
    let mut room = MOST_ITEMS;
    for (index, byte) in text.iter().enumerate() {
        if is_either(one, other, *byte) {
            if room == 0 {
                return Some(text.len() - index);
            }
            room -= 1;
        }
    }
    None
}
