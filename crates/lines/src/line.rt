//! A line that is being written.
ghost use Rattle.std.specs.Prelude.{◌≡◌, ◌++◌, ◌<◌, [], ◌∷◌, if◌then◌else◌, IfOk, OnOk};
ghost use Rattle.std.specs.Char.{digit_char};
ghost use Rattle.std.specs.Fmt.{decimal};
ghost use Rattle.std.specs.List.{flat_map};
ghost use Rattle.lines.specs.Atoms.{in_hex, printed_byte, quoted, hexed};

use plain::Text;
use std::alloc::{AllocError, Global};
use std::marker::Model;

/// How many bytes become hex digits at a time.
const HEX_PIECE: usize = 512;

/// A line that is being written: a word, and fields after it. Contracts see its bytes.
#[derive(Debug, Drop)]
pub struct Line {
    text: String,
    /// Nothing stands yet on the line, or within the innermost brackets.
    fresh: bool,
}

impl Model for Line {
    ghost use Rattle.std.specs.Prelude.{List, ℕ, string_bytes};

    ghost Value = { List ℕ };

    ghost view = { λ line. string_bytes line.text };
}

/// The hex digit of a number.
fn hex_digit(number: u8) -> u8
    requires { number < 16 }
    ensures { result ≡ digit_char number }
{
    if number < 10 {
        b'0' + number
    } else {
        b'a' + (number - 10)
    }
}

impl Line {
    pub fn new(alloc: Global) -> Line
        ensures { result ≡ [] }
    {
        Line {
            text: String::new(alloc),
            fresh: true,
        }
    }

    /// An empty line with room for `bytes` bytes.
    pub fn with_capacity(alloc: Global, bytes: usize) -> Result<Line, AllocError>
        ensures { IfOk result (λ line. line ≡ []) }
    {
        Ok(Line {
            text: String::with_capacity(alloc, bytes)?,
            fresh: true,
        })
    }

    /// Drops what was written, and keeps its memory.
    pub fn clear(&mut self)
        ensures { self.new ≡ [] }
    {
        self.text.clear();
        self.fresh = true;
    }

    pub fn as_str(&self) -> &str
        ensures { result.now ≡ self.now }
    {
        self.text.as_str()
    }

    /// What was written, as a text.
    pub fn into_text(self) -> Text
        ensures { result ≡ self }
    {
        Text::from_string(self.text)
    }

    /// Writes a word as it is.
    pub fn word(&mut self, word: &str) -> Result<(), AllocError>
        ensures { OnOk result (self.new ≡ self.old ++ word.now) }
    {
        self.fresh = false;
        self.text.push_str(word)?;
        Ok(())
    }

    /// Writes a bracket after which a first field takes no blank.
    pub fn open(&mut self, bracket: &str) -> Result<(), AllocError>
        ensures { OnOk result (self.new ≡ self.old ++ bracket.now) }
    {
        self.text.push_str(bracket)?;
        self.fresh = true;
        Ok(())
    }

    pub fn number(&mut self, number: u64) -> Result<(), AllocError>
        ensures { OnOk result (self.new ≡ self.old ++ decimal number) }
    {
        self.fresh = false;
        write!(self.text, "{number}")?;
        Ok(())
    }

    /// Writes one ASCII character.
    fn ascii(&mut self, byte: u8) -> Result<(), AllocError>
        requires { byte < 128 }
        ensures { OnOk result (self.new ≡ self.old ++ byte ∷ []) }
    {
        self.text.push(char::from(byte))?;
        Ok(())
    }

    /// Writes a byte as two hex digits.
    fn two_digits(&mut self, byte: u8) -> Result<(), AllocError>
        ensures { OnOk result (self.new ≡ self.old ++ in_hex byte) }
    {
        self.ascii(hex_digit(byte / 16))?;
        self.ascii(hex_digit(byte % 16))
    }

    /// Writes a byte as it stands between quotes.
    #[tactic(auto, unfolding(crate::specs::Atoms::printed_byte))]
    fn shown(&mut self, byte: u8) -> Result<(), AllocError>
        ensures { OnOk result (self.new ≡ self.old ++ printed_byte byte) }
    {
        if byte > 31 && byte < 127 && byte != b'"' && byte != b'\\' {
            return self.ascii(byte);
        }
        self.ascii(b'\\')?;
        self.ascii(b'x')?;
        self.two_digits(byte)
    }

    /// Writes bytes in quotes. What is no printable ASCII shows as its bytes.
    pub fn quoted(&mut self, bytes: &[u8]) -> Result<(), AllocError>
        ensures { OnOk result (self.new ≡ self.old ++ quoted bytes.now) }
    {
        self.word("\"")?;
        self.text.reserve(bytes.len())?;
        for &byte in bytes {
            self.shown(byte)?;
        }
        self.ascii(b'"')
    }

    /// Writes the hex digits of bytes.
    fn digits(&mut self, bytes: &[u8]) -> Result<(), AllocError>
        ensures { OnOk result (self.new ≡ self.old ++ flat_map in_hex bytes.now) }
    {
        let digits = hex::encode(*self.text.allocator(), bytes)?;
        self.text.push_str(digits.as_str())?;
        Ok(())
    }

    /// Writes bytes as hex digits.
    pub fn hex(&mut self, bytes: &[u8]) -> Result<(), AllocError>
        ensures { OnOk result (self.new ≡ self.old ++ hexed bytes.now) }
    {
        self.word("0x")?;
        let mut rest = bytes;
        while !rest.is_empty() {
            let (piece, behind) = rest.split_at(rest.len().min(HEX_PIECE));
            self.digits(piece)?;
            rest = behind;
        }
        Ok(())
    }

    /// Writes the name of a field whose value comes next.
    pub fn name(&mut self, name: &str) -> Result<(), AllocError> {
        if !self.fresh {
            self.ascii(b' ')?;
        }
        self.word(name)?;
        self.ascii(b'=')
    }
}
