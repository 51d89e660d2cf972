//! Names of the days of the week and of the months, letter by letter.
ghost use Rattle.std.specs.Prelude.{◌≡◌, ℕ, [], ◌∷◌, ◌<◌, IfSome, length, slice_index_or};
ghost use Rattle.time_known.specs.Rfc2822Grammar.{day_names, month_names};
ghost use Rattle.time_read.specs.Names.{list_of};

// Which names are meant, of three letters each.
#[derive(Clone, Copy)]
pub(crate) enum Names {
    Weekday,
    Month,
}

// How many names there are.
pub(crate) fn count(names: Names) -> u8
    ensures { result ≡ length (list_of names) }
{
    match names {
        Names::Weekday => 7,
        Names::Month => 12,
    }
}

// The letters of a weekday, by its days from Monday.
fn weekday_letters(place: u8) -> (u8, u8, u8)
    requires { place < 7 }
    ensures { slice_index_or day_names place [] ≡ result.0 ∷ result.1 ∷ result.2 ∷ [] }
{
    match place {
        0 => (b'M', b'o', b'n'),
        1 => (b'T', b'u', b'e'),
        2 => (b'W', b'e', b'd'),
        3 => (b'T', b'h', b'u'),
        4 => (b'F', b'r', b'i'),
        5 => (b'S', b'a', b't'),
        6 => (b'S', b'u', b'n'),
        _ => unreachable!(),
    }
}

// The letters of a month, by its index from 0.
fn month_letters(place: u8) -> (u8, u8, u8)
    requires { place < 12 }
    ensures { slice_index_or month_names place [] ≡ result.0 ∷ result.1 ∷ result.2 ∷ [] }
{
    match place {
        0 => (b'J', b'a', b'n'),
        1 => (b'F', b'e', b'b'),
        2 => (b'M', b'a', b'r'),
        3 => (b'A', b'p', b'r'),
        4 => (b'M', b'a', b'y'),
        5 => (b'J', b'u', b'n'),
        6 => (b'J', b'u', b'l'),
        7 => (b'A', b'u', b'g'),
        8 => (b'S', b'e', b'p'),
        9 => (b'O', b'c', b't'),
        10 => (b'N', b'o', b'v'),
        11 => (b'D', b'e', b'c'),
        _ => unreachable!(),
    }
}

// The letters of the name at an index.
pub(crate) fn letters(names: Names, place: u8) -> (u8, u8, u8)
    requires { place < length (list_of names) }
    ensures { slice_index_or (list_of names) place [] ≡ result.0 ∷ result.1 ∷ result.2 ∷ [] }
{
    match names {
        Names::Weekday => weekday_letters(place),
        Names::Month => month_letters(place),
    }
}

// The index at which the name with these letters is, if there is one.
pub(crate) fn place_of(names: Names, first: u8, second: u8, third: u8) -> Option<u8>
    ensures right { (place : ℕ) → place < length (list_of names)
        → slice_index_or (list_of names) place [] ≡ first ∷ second ∷ third ∷ []
        → result ≡ Some place }
    ensures range { IfSome result (λ place. place < length (list_of names)) }
{
    let mut place = 0;
    while place < count(names) {
        let (one, two, three) = letters(names, place);
        if one == first && two == second && three == third {
            return Some(place);
        }
        place += 1;
    }
    None
}
