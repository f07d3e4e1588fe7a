//! The messages' fields: printing them in their order, and reading them in any.
ghost use Rattle.std.specs.Prelude.{◌≡◌, IfErr, IfOk};
ghost use Rattle.lines.specs.Readings.{Blames};
ghost use Rattle.frame_values.specs.Notation.{AreFields, Fields, put_all};

pub mod calls;
pub mod control;
pub mod notifications;
pub mod state;

use lines::line::Line;
use plain::Fault;
use std::alloc::{AllocError, Global};

/// A message whose fields stand on its line. A trait of this crate, since its types are another's: `Bracketed` is the same of what stands
/// in brackets.
pub trait Form: Drop {
    /// The fields.
    ghost fields: { Fields Self };

    /// Writes the fields in their order, as `print_field` does each.
    fn print(&self, line: &mut Line, is_first: bool) -> Result<bool, AllocError>
        ensures { IfOk result (λ then. put_all (line.old, is_first) (fields.printed self.now)
            ≡ (line.new, then)) };

    /// What these words are the fields of.
    fn read(alloc: Global, words: &[&[u8]]) -> Result<Self, Fault>
        ensures value { IfOk result (AreFields fields words.now) }
        ensures none { IfErr result (λ fault. fields.IsExact
            → Blames (AreFields fields words.now) fault) };
}
