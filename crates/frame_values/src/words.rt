//! The first word of what stands in a future's brackets.
ghost use Rattle.std.specs.Prelude.{◌≡◌, ◌++◌};
ghost use Rattle.frame_values.specs.FutureWords.{after_word, ends_word, first_word, within_after};
ghost use Rattle.frame_values.specs.declared.words.Within.TheVariants.{Nothing};

/// What a place of a word stands in.
#[derive(Clone, Copy)]
enum Within {
    Nothing,
    List,
    /// Quotes in a list.
    Quotes,
    /// These, after a backslash.
    Escaped,
}

impl Within {
    /// What the place after a byte stands in.
    fn after(self, byte: u8) -> Within
        ensures { result ≡ within_after self byte }
    {
        match (self, byte) {
            (Within::Nothing, b'[') => Within::List,
            (Within::List, b']') => Within::Nothing,
            (Within::List, b'"') => Within::Quotes,
            (Within::Quotes, b'"') => Within::List,
            (Within::Quotes, b'\\') => Within::Escaped,
            (Within::Escaped, _) => Within::Quotes,
            (within, _) => within,
        }
    }

    /// Whether a word ends before this byte.
    fn ends(self, byte: u8) -> bool
        ensures { result ≡ ends_word self byte }
    {
        match self {
            Within::Nothing => byte == b' ' || byte == b')',
            _ => false,
        }
    }
}

/// The text up to the first blank or closing bracket that stands in no list, and the rest from there.
pub fn first_word(text: &[u8]) -> (&[u8], &[u8])
    ensures word { result.0.now ≡ first_word Nothing text.now }
    ensures rest { result.1.now ≡ after_word Nothing text.now }
    ensures whole { text.now ≡ result.0.now ++ result.1.now }
{
    let mut within = Within::Nothing;
    for i in 0..text.len() {
        if within.ends(text[i]) {
            return text.split_at(i);
        }
        within = within.after(text[i]);
    }
    text.split_at(text.len())
}
