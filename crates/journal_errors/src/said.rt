ghost use Rattle.std.specs.Prelude.{◌≡◌, [], string_bytes};

use std::alloc::AllocError;
use std::marker::Model;

/// What an error says: a text of the program's, or one of its own. Contracts see its bytes.
#[derive(Debug)]
pub struct Said {
    text: Source,
}

/// Written out, as for an error.
impl Drop for Said {
    fn drop(self) {
        let Self { text } = self;
        drop(text);
    }
}

#[derive(Debug, Drop)]
enum Source {
    Fixed(&'static str),
    Own(String),
}

impl Model for Said {
    ghost use Rattle.std.specs.Prelude.{List, ℕ};

    ghost Value = { List ℕ };

    ghost use Rattle.journal_errors.specs.Said.{said};

    ghost view = { said };
}

impl Said {
    /// It takes no memory.
    pub fn fixed(text: &'static str) -> Said
        ensures { result ≡ text.now }
    {
        Said {
            text: Source::Fixed(text),
        }
    }

    pub fn own(text: String) -> Said
        ensures { result ≡ string_bytes text }
    {
        Said {
            text: Source::Own(text),
        }
    }

    pub fn as_str(&self) -> &str
        ensures { result.now ≡ self.now }
    {
        match &self.text {
            Source::Fixed(text) => text,
            Source::Own(text) => text.as_str(),
        }
    }
}

impl Clone for Said {
    ghost is_clone = { λ a b. b ≡ a };

    fn clone(&self) -> Result<Said, AllocError> {
        match &self.text {
            Source::Fixed(text) => Ok(Said::fixed(text)),
            Source::Own(text) => Ok(Said::own(text.clone()?)),
        }
    }
}
