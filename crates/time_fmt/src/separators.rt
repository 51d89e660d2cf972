//! The bytes between the components of a run.
ghost use Rattle.std.specs.Prelude.{◌≡◌, ◌∷◌, [], true};
ghost use Rattle.std.specs.Str.{is_utf8};

/// The bytes between three components, of which each is a text.
#[derive(Clone, Copy)]
pub struct Separators {
    /// The byte before the second component.
    pub first: u8,
    /// The byte before the third component.
    pub second: u8,
    ghost first_is_text: { is_utf8 (first ∷ []) ≡ true },
    ghost second_is_text: { is_utf8 (second ∷ []) ≡ true },
}
