//! `Shown`: what has one text, and lists of such.
ghost use Rattle.std.specs.Prelude.{◌≡◌, ◌++◌, OnOk};
ghost use Rattle.call_lines.specs.Texts.{between, listed, spaced};

use lines::line::Line;
use std::alloc::AllocError;

/// What is printed as one text.
pub trait Shown {
    ghost use Rattle.std.specs.Prelude.{◌≡◌, ◌++◌, List, ℕ, OnOk};

    /// The text.
    ghost text: { Self → List ℕ };

    /// Writes the text on a line, if there is memory for it.
    fn show(&self, line: &mut Line) -> Result<(), AllocError>
        ensures { OnOk result (line.new ≡ line.old ++ text self.now) };
}

/// Writes a value after a word.
pub fn labelled<T: Shown>(label: &str, value: &T, line: &mut Line) -> Result<(), AllocError>
    ensures { OnOk result (line.new ≡ line.old ++ (label.now ++ T.text value.now)) }
{
    line.word(label)?;
    value.show(line)?;
    Ok(())
}

/// Writes a blank and an item, for each item.
pub fn spaced<T: Shown>(items: &[T], line: &mut Line) -> Result<(), AllocError>
    ensures { OnOk result (line.new ≡ line.old ++ spaced T.text items.now) }
{
    for item in items {
        line.word(" ")?;
        item.show(line)?;
    }
    Ok(())
}

/// Writes items with a blank between them.
fn between<T: Shown>(items: &[T], line: &mut Line) -> Result<(), AllocError>
    ensures { OnOk result (line.new ≡ line.old ++ between T.text items.now) }
{
    match items {
        [] => Ok(()),
        [first, others @ ..] => {
            first.show(line)?;
            spaced(others, line)
        }
    }
}

/// Writes items with a blank between them, in square brackets.
pub fn listed<T: Shown>(items: &[T], line: &mut Line) -> Result<(), AllocError>
    ensures { OnOk result (line.new ≡ line.old ++ listed T.text items.now) }
{
    line.word("[")?;
    between(items, line)?;
    line.word("]")
}
