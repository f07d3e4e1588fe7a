//! The words of a line that stand in any order: a name, `=` and a text. A name is written with its `=`.
ghost use Rattle.std.specs.Prelude.{◌≡◌, ◌<◌, [], ◌∷◌, length, IfOk, IfErr, MatchOption, Some, None};
ghost use Rattle.std.specs.List.{list_all, list_any};
ghost use Rattle.lines.specs.Fields.{is_named, text_behind, texts_named};

use plain::Fault;

/// The text after the name that a word begins with.
#[tactic(auto, unfolding(crate::specs::Fields::text_behind))]
pub fn text_behind<'a>(word: &'a [u8], name: &str) -> Option<&'a [u8]>
    ensures { MatchOption result (text_behind name.now word.now
        ≡ None) (λ text. text_behind name.now word.now ≡ Some text.now) }
{
    word.strip_prefix(name.as_bytes())
}

/// The text after this name, if a word begins with it; `Malformed` if more than one does.
pub fn field_of<'a>(words: &[&'a [u8]], name: &str) -> Result<Option<&'a [u8]>, Fault>
    ensures found { IfOk result
        (λ found. MatchOption found (texts_named name.now words.now
        ≡ []) (λ text. texts_named name.now words.now ≡ text.now ∷ [])) }
    ensures twice { IfErr result (λ _. 1 < length (texts_named name.now words.now)) }
{
    let mut found = None;
    for word in words {
        if let Some(text) = text_behind(*word, name) {
            if found.is_some() {
                return Err(Fault::Malformed);
            }
            found = Some(text);
        }
    }
    Ok(found)
}

/// Whether a word begins with one of these names.
fn is_named(word: &[u8], names: &[&str]) -> bool
    ensures { result ≡ list_any (λ name. is_named name.now word.now) names.now }
{
    for name in names {
        if word.starts_with(name.as_bytes()) {
            return true;
        }
    }
    false
}

/// Whether each word begins with one of these names.
pub fn are_named(words: &[&[u8]], names: &[&str]) -> bool
    ensures { result ≡ list_all (λ word. list_any (λ name. is_named name.now word.now) names.now)
        words.now }
{
    for word in words {
        if !is_named(*word, names) {
            return false;
        }
    }
    true
}
