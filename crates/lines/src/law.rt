//! What is printed is read back, and a text is cut in one way.
ghost use Rattle.std.specs.Fmt.{decimal};
ghost use Rattle.std.specs.Str.Parse.{digits_value};
ghost use Rattle.std.specs.Prelude.{◌≡◌, ℕ, List};
ghost use Rattle.std.specs.Borrow.{Bor};
ghost use Rattle.lines.specs.Atoms.{IsAtom, IsNumber, hexed, quoted};
ghost use Rattle.lines.specs.Pieces.{ArePieces, AreWords, piece_texts};

/// A law, which does nothing: a byte string, as it is printed in either way, is an atom of just its bytes.
pub fn is_read_back(_bytes: &[u8])
    ensures in_quotes { IsAtom (quoted _bytes.now) _bytes.now }
    ensures as_digits { IsAtom (hexed _bytes.now) _bytes.now }
{}

/// A law, which does nothing: a number, as it is printed, is read as itself.
pub fn is_number_read_back(_number: u64)
    ensures reads { IsNumber (decimal _number) }
    ensures value { digits_value 10 (decimal _number) ≡ _number }
{}

/// A law, which does nothing: a text determines its pieces at a separator, and its words.
pub fn is_cut_one_way(_text: &[u8], _separator: u8)
    ensures pieces { (some others : List (Bor (List ℕ))) → ArePieces _separator _text.now some
        → ArePieces _separator _text.now others → piece_texts some ≡ piece_texts others }
    ensures words { (some others : List (Bor (List ℕ))) → AreWords _text.now some
        → AreWords _text.now others → piece_texts some ≡ piece_texts others }
{}
