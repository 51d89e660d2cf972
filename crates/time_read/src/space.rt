//! White space and comments between the parts of a text of mail.
ghost use Rattle.std.specs.Prelude.{◌≡◌, ◌<◌, ◌≤◌, ◌+◌, IfSome, IfOk, IfErr};
ghost use Rattle.std.specs.Prelude.{IsTrue, length};
ghost use Rattle.time_read.specs.Front.{Front};
ghost use Rattle.time_read.specs.Space.{IsGap, IsSpace, Mark, after_byte, is_white, outside};

use crate::digits::after;
use crate::fault::{Expected, MailPart, Unexpected};

// How deep in comments a byte stands, and whether a backslash is before it.
#[derive(Clone, Copy)]
pub(crate) struct Depth {
    pub(crate) depth: usize,
    pub(crate) is_escaped: bool,
}

// Whether a byte is a blank, a tab, or of a line end.
fn is_white(byte: u8) -> bool
    ensures { result ≡ is_white byte }
{
    byte == b' ' || byte == b'\t' || byte == b'\n' || byte == b'\r'
}

// Whether a depth is outside of comments.
fn is_outside(depth: Depth) -> bool
    ensures { IsTrue result → (depth ≡ outside) }
{
    depth.depth == 0 && !depth.is_escaped
}

// The depth after a byte, or nothing where the byte is neither white space nor of a comment.
fn after_byte(depth: Depth, byte: u8) -> Option<Depth>
    requires { depth.depth < usize.MAX }
    ensures value { result ≡ after_byte depth byte }
    ensures shallow { IfSome result (λ next. next.depth ≤ depth.depth + 1) }
{
    let Depth { depth, is_escaped } = depth;
    if is_escaped {
        return Some(Depth {
            depth,
            is_escaped: false,
        });
    }
    if byte == b'(' {
        return Some(Depth {
            depth: depth + 1,
            is_escaped,
        });
    }
    if depth == 0 {
        return if is_white(byte) {
            Some(Depth { depth, is_escaped })
        } else {
            None
        };
    }
    if byte == b')' {
        return Some(Depth {
            depth: depth - 1,
            is_escaped,
        });
    }
    Some(Depth {
        depth,
        is_escaped: byte == b'\\',
    })
}

// What follows the white space and the comments that begin a text. A comment may hold others. A
// text is refused only where a comment is open at its end.
pub(crate) fn space(text: &[u8]) -> Result<&[u8], Unexpected>
    ensures read { IfOk result (λ rest. Front IsSpace text.now rest.now) }
    ensures shorter { IfOk result (λ rest. length rest.now ≤ length text.now) }
    ensures left { IfErr result (λ e. e.left ≤ length text.now) }
{
    let mut depth = Depth {
        depth: 0,
        is_escaped: false,
    };
    let mut at = 0;
    while at < text.len() {
        match after_byte(depth, text[at]) {
            Some(next) => depth = next,
            None => return Ok(&text[at..]),
        }
        at += 1;
    }
    if is_outside(depth) {
        return Ok(&text[at..]);
    }
    Err(Unexpected {
        left: 0,
        expected: Expected::Mail(MailPart::CommentEnd),
    })
}

// The same, where there is some.
pub(crate) fn gap(text: &[u8]) -> Result<&[u8], Unexpected>
    ensures read { IfOk result (λ rest. Front IsGap text.now rest.now) }
    ensures shorter { IfOk result (λ rest. length rest.now ≤ length text.now) }
    ensures left { IfErr result (λ e. e.left ≤ length text.now) }
{
    let rest = ok!(space(text));
    if rest.len() == text.len() {
        return Err(Unexpected {
            left: text.len(),
            expected: Expected::Mail(MailPart::Space),
        });
    }
    Ok(rest)
}

// What follows a byte that may stand between white space and comments.
pub(crate) fn mark(text: &[u8], wanted: u8) -> Result<&[u8], Unexpected>
    ensures read { IfOk result (λ rest. Front (Mark wanted) text.now rest.now) }
    ensures shorter { IfOk result (λ rest. length rest.now ≤ length text.now) }
    ensures left { IfErr result (λ e. e.left ≤ length text.now) }
{
    let rest = ok!(space(text));
    let Some(rest) = after(rest, wanted) else {
        return Err(Unexpected {
            left: rest.len(),
            expected: Expected::Byte(wanted),
        });
    };
    let rest = ok!(space(rest));
    Ok(rest)
}
