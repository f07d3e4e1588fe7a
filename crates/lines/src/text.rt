//! A text by its lines, one after another.
ghost use Rattle.std.specs.Prelude.{◌≡◌, ◌<◌, length};
ghost use Rattle.lines.specs.Text.{IsFirstLine, says_nothing};

use memchr::memchr;

/// The first line, without its end, and what follows it.
#[tactic(auto, using(crate::proofs::FirstLines::ends_at, crate::proofs::FirstLines::never_ends))]
pub fn first_line(text: &[u8]) -> (&[u8], &[u8])
    requires { 0 < length text.now }
    ensures shorter { length result.1.now < length text.now }
    ensures first { IsFirstLine text.now result.0.now result.1.now }
{
    match memchr(b'\n', text) {
        Some(at) => (&text[..at], &text[at + 1..]),
        None => (text, &text[text.len()..]),
    }
}

/// Whether a line without blanks at its ends is empty or a comment.
#[tactic(auto, unfolding(crate::specs::Text::says_nothing))]
pub fn is_silent(line: &[u8]) -> bool
    ensures { result ≡ says_nothing line.now }
{
    line.is_empty() || line.starts_with(b"#")
}
