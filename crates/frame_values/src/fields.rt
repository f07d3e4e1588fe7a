//! Fields: printing them in their order, and reading them in any.
ghost use Rattle.std.specs.Prelude.{◌≡◌, ℕ, List, true, IfErr, IfOk};
ghost use Rattle.lines.specs.Readings.{Blames};
ghost use Rattle.std.specs.Borrow.{Bor};
ghost use Rattle.std.specs.List.{list_all, list_any};
ghost use Rattle.lines.specs.Fields.{is_named, texts_named as behind_name};
ghost use Rattle.lines.specs.Pieces.{piece_texts};
ghost use Rattle.frame_values.specs.Notation.{SayField, SayPair, put, unless_left_out};

use crate::value::Value;
use lines::fields::{are_named, field_of};
use lines::line::Line;
use plain::Fault;
use std::alloc::{AllocError, Global};

/// Writes a field, if it isn't left out. A blank stands before each field but the first. Returns whether the next field is the first.
#[tactic(auto, unfolding(crate::specs::Notation::put))]
pub fn print_field<T: Value>(
    line: &mut Line,
    is_first: bool,
    name: &str,
    value: &T,
) -> Result<bool, AllocError>
    ensures { IfOk result (λ then. put (line.old, is_first)
        (name.now, unless_left_out T.notation value.now) ≡ (line.new, then)) }
{
    if value.is_left_out() {
        return Ok(is_first);
    }
    if !is_first {
        line.word(" ")?;
    }
    line.word(name)?;
    line.word("=")?;
    value.print(line)?;
    Ok(false)
}

/// The values of fields, one after another: a pair of the first and the others.
pub trait Parts: Drop {
    /// What the words say of the fields of these names.
    ghost Said: { List (List ℕ) → List (Bor (List ℕ)) → Self → Type 0 };

    /// Whether only words are refused that say nothing of them.
    ghost AreExact: { Type 0 };

    /// Reads the fields of these names, each written with its `=`.
    fn take(alloc: Global, names: &[&str], words: &[&[u8]]) -> Result<Self, Fault>
        ensures value { IfOk result (Said (piece_texts names.now) words.now) }
        ensures none { IfErr result (λ fault. AreExact
            → Blames (Said (piece_texts names.now) words.now) fault) };
}

impl Parts for () {
    ghost Said = { λ _ _ _. Unit {0} };

    ghost AreExact = { Unit {0} };

    fn take(_alloc: Global, _names: &[&str], _words: &[&[u8]]) -> Result<(), Fault> {
        Ok(())
    }
}

/// Reads the field of this name, written with its `=`.
#[tactic(auto, using(crate::proofs::Saying::field_said, crate::proofs::Saying::field_left_out, crate::proofs::Refusing::twice_blamed, crate::proofs::Refusing::field_blamed, crate::proofs::Refusing::none_blamed))]
fn take_field<T: Value>(alloc: Global, name: &str, words: &[&[u8]]) -> Result<T, Fault>
    ensures value { IfOk result (SayField T.notation (behind_name name.now words.now)) }
    ensures none { IfErr result (λ fault. T.notation.IsExact
        → Blames (SayField T.notation (behind_name name.now words.now)) fault) }
{
    match field_of(words, name)? {
        Some(text) => T::parse(alloc, text),
        None => T::missing(alloc).ok_or(Fault::Malformed),
    }
}

impl<A: Value, B: Parts> Parts for (A, B) {
    ghost Said = { SayPair A.notation B.Said };

    ghost AreExact = { A.notation.IsExact × B.AreExact };

    fn take(alloc: Global, names: &[&str], words: &[&[u8]]) -> Result<(A, B), Fault> {
        let [name, others @ ..] = names else {
            return Err(Fault::Malformed);
        };
        let first = take_field(alloc, *name, words)?;
        match B::take(alloc, others, words) {
            Ok(others) => Ok((first, others)),
            Err(fault) => {
                drop(first);
                Err(fault)
            }
        }
    }
}

/// The values of the fields of these names, each written with its `=`, which are all that there are.
pub fn values_of<T: Parts>(alloc: Global, words: &[&[u8]], names: &[&str]) -> Result<T, Fault>
    ensures only { IfOk result
        (λ _. list_all (λ word. list_any (λ name. is_named name.now word.now) names.now) words.now
        ≡ true) }
    ensures said { IfOk result (T.Said (piece_texts names.now) words.now) }
    ensures none { IfErr result (λ fault. T.AreExact → Blames (λ it.
        (list_all (λ word. list_any (λ name. is_named name.now word.now) names.now) words.now
        ≡ true) × T.Said (piece_texts names.now) words.now it) fault) }
{
    if !are_named(words, names) {
        return Err(Fault::Malformed);
    }
    T::take(alloc, names, words)
}
