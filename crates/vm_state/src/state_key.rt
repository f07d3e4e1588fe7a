//! `StateKey`: a key of the state, with a number that tells most keys apart at once.
ghost use Rattle.std.specs.Prelude.{◌≡◌, Some, refl};
ghost use Rattle.std.specs.Cmp.{partial_equiv_from_equiv};
ghost use Rattle.std.specs.Cmp.Lexicographic.{nat_list_cmp_total, nat_list_eq_equiv, pointwise, slice_cmp, texts_po, texts_ties};
ghost use Rattle.std.specs.Ordering.{nat_cmp};
ghost use Rattle.std.specs.Prelude.{nat_eq};
ghost use Rattle.vm_state.specs.StateKeys.{IsKeyNumber};

use plain::Text;
use std::cmp::Ordering;
use std::marker::Model;

/// A key of the state, which contracts see as its bytes. Its first eight bytes stand beside it as a number, so that one
/// comparison mostly decides which of two keys is less.
#[derive(Drop)]
pub struct StateKey {
    front: u64,
    text: Text,
}

impl Model for StateKey {
    ghost use Rattle.std.specs.Prelude.{List, ℕ};
    ghost use Rattle.vm_state.specs.StateKeys.{IsKeyNumber};

    ghost Value = { List ℕ };

    ghost view = { λ key. key.text };

    ghost invariant = { λ key. IsKeyNumber key.front key.text };
}

/// The first eight bytes as a number, the most significant first; a shorter text is filled with zeros.
fn front_of(bytes: &[u8]) -> u64
    ensures { IsKeyNumber result bytes.now }
{
    let mut number = 0u64;
    for i in 0..8 {
        let byte = bytes.get(i).copied().unwrap_or(0);
        number = number * 256 + u64::from(byte);
    }
    number
}

impl StateKey {
    pub fn new(text: Text) -> StateKey
        ensures { result ≡ text }
    {
        let front = front_of(text.as_str().as_bytes());
        StateKey { front, text }
    }

    pub fn as_text(&self) -> &Text
        ensures { result.now ≡ self.now }
    {
        &self.text
    }
}

impl PartialEq for StateKey {
    ghost eq = { pointwise nat_eq };

    ghost laws = { partial_equiv_from_equiv nat_list_eq_equiv };

    fn eq(&self, other: &StateKey) -> bool {
        self.text == other.text
    }
}

impl Eq for StateKey {
    ghost laws = { nat_list_eq_equiv };
}

impl PartialOrd for StateKey {
    ghost partial_cmp = { λ x y. Some (slice_cmp nat_cmp x y) };

    ghost laws = { texts_po };

    fn partial_cmp(&self, other: &StateKey) -> Option<Ordering> {
        Some(self.cmp(other))
    }
}

impl Ord for StateKey {
    ghost cmp = { slice_cmp nat_cmp };

    ghost total = { nat_list_cmp_total };

    ghost matches_partial_cmp = { λ x y. refl };

    ghost matches_eq = { texts_ties };

    fn cmp(&self, other: &StateKey) -> Ordering {
        if self.front < other.front {
            return Ordering::Less;
        }
        if self.front > other.front {
            return Ordering::Greater;
        }
        self.text.cmp(&other.text)
    }
}
