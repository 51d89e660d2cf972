//! Short ASCII texts that are in arrays of their own.
ghost use Rattle.std.specs.Prelude.{◌≡◌, ◌≤◌, ◌-◌, length, take, drop, IsAscii};

/// An ASCII text of at most `N` bytes, at the start of its array.
#[derive(Clone, Copy)]
pub struct StackStr<const N: usize> {
    bytes: [u8; N],
    len: usize,
    ghost within: { len ≤ N },
    ghost ascii: { IsAscii (take len bytes) },
}

impl<const N: usize> StackStr<N> {
    ghost use Rattle.time_digits.specs.Shown.{shown};

    /// Returns the text of the first `len` bytes, which are ASCII, as the caller knows. Nothing is
    /// tested.
    pub fn new(bytes: [u8; N], len: usize) -> Self
        requires within { len ≤ N }
        requires ascii { IsAscii (take len bytes) }
        ensures { shown result ≡ take len bytes.entry }
    {
        StackStr { bytes, len }
    }

    /// Returns the number of bytes of the text, at most `N`.
    pub fn len(&self) -> usize
        ensures value { result ≡ length (shown self.now) }
        ensures within { result ≤ N }
    {
        self.len
    }

    /// Returns the text.
    pub fn as_str(&self) -> &str
        ensures { result.now ≡ shown self.now }
    {
        text_of(&self.bytes[..self.len])
    }
}

/// An ASCII text of at most `N` bytes, at the end of its array.
#[derive(Clone, Copy)]
pub struct StackTrailingStr<const N: usize> {
    bytes: [u8; N],
    start: usize,
    ghost within: { start ≤ N },
    ghost ascii: { IsAscii (drop start bytes) },
}

impl<const N: usize> StackTrailingStr<N> {
    ghost use Rattle.time_digits.specs.Shown.{shown_end};

    /// Returns the text of the bytes from `start` on, which are ASCII, as the caller knows. Nothing
    /// is tested.
    pub fn new(bytes: [u8; N], start: usize) -> Self
        requires within { start ≤ N }
        requires ascii { IsAscii (drop start bytes) }
        ensures { shown_end result ≡ drop start bytes.entry }
    {
        StackTrailingStr { bytes, start }
    }

    /// Returns the number of bytes of the text, at most `N`.
    pub fn len(&self) -> usize
        ensures value { result ≡ length (shown_end self.now) }
        ensures within { result ≤ N }
    {
        N - self.start
    }

    /// Returns the text.
    pub fn as_str(&self) -> &str
        ensures { result.now ≡ shown_end self.now }
    {
        let bytes = &self.bytes[..];
        text_of(&bytes[self.start..])
    }
}

// The bytes as a text, since ASCII is UTF-8.
fn text_of(bytes: &[u8]) -> &str
    requires { IsAscii bytes.now }
    ensures { result.now ≡ bytes.now }
{
    unsafe { std::str::from_utf8_unchecked(bytes) }
}
