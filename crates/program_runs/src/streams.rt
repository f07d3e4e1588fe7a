//! What a run reads from and writes to.
//! Std's traits don't name their errors; these do, so that a contract can say by which error a run failed.
ghost use Rattle.std.specs.Prelude.{◌≡◌, ◌≤◌, ◌++◌, List, length, take, ℕ, ⊤, IfSome, IfOk, IfErr, OnOk, OnErr};
ghost use Rattle.std.specs.declared.option.Option.{Option};
ghost use Rattle.std.specs.Io.KnownBytes.{Appends, IsAtEnd, Keeps};
ghost use Rattle.std.specs.declared.io.Error.{Error as IoError};
ghost use Rattle.program_runs.specs.Streams.{AppendsSome};

use std::io::{self, Read, Write};

/// A reader whose errors a contract names.
pub trait Source {
    /// The bytes that are left to be read, if they are known.
    ghost remaining: { Self → Option (List ℕ) };

    /// What is so if reading to the end gives this error.
    ghost fails: { Self → IoError → Type 0 };

    /// Reads to the end.
    fn read_whole(&mut self, input: &mut Vec<u8>) -> io::Result<()>
        ensures bytes { OnOk result
            (IfSome (remaining self.old) (λ xs. input.new.items ≡ input.old.items ++ xs)) }
        ensures end { OnOk result (IsAtEnd (remaining self.new)) }
        ensures err { IfErr result (λ e. fails self.old e) };
}

/// A writer whose errors a contract names.
pub trait Sink {
    /// The bytes that the writer holds, if they are known.
    ghost contents: { Self → Option (List ℕ) };

    /// What is so if writing gives this error, now or after what is written first.
    ghost fails: { Self → IoError → Type 0 };

    /// Writes all these bytes and flushes, or after an error a beginning of them.
    fn write_whole(&mut self, bytes: &[u8]) -> io::Result<()>
        ensures ok { OnOk result (Appends (contents self.old) (contents self.new) bytes.now) }
        ensures part { OnErr result
            (AppendsSome (contents self.old) (contents self.new) bytes.now) }
        ensures err { IfErr result (λ e. fails self.old e) }
        ensures later { OnOk result ((e : IoError) → fails self.new e → fails self.old e) };
}

/// A reader or a writer of whose errors nothing is known.
#[derive(Debug, Drop)]
pub struct Plain<T>(pub T);

impl<R: Read> Source for Plain<R> {
    ghost remaining = { λ s. R.remaining s.0 };

    ghost fails = { λ _ _. ⊤ };

    fn read_whole(&mut self, input: &mut Vec<u8>) -> io::Result<()> {
        self.0.read_to_end(input)?;
        Ok(())
    }
}

/// Writes once. Returns how many bytes were taken: none if a signal interrupts the write.
#[tactic(auto, using(crate::proofs::Writing::kept_none, crate::proofs::Writing::none_kept))]
fn write_some<W: Write>(writer: &mut W, bytes: &[u8]) -> io::Result<usize>
    ensures bound { IfOk result (λ n. n ≤ length bytes.now) }
    ensures ok { IfOk result
        (λ n. Appends (W.contents writer.old) (W.contents writer.new) (take n bytes.now)) }
    ensures err { OnErr result (Keeps (W.contents writer.old) (W.contents writer.new)) }
{
    match writer.write(bytes) {
        Ok(0) => Err(io::Error::from(io::ErrorKind::WriteZero)),
        Ok(n) => Ok(n),
        Err(error) => {
            if error.kind() == io::ErrorKind::Interrupted {
                return Ok(0);
            }
            Err(error)
        }
    }
}

/// Writes all these bytes, or after an error a beginning of them.
#[tactic(auto, using(crate::proofs::Writing::none_taken, crate::proofs::Writing::all_taken, crate::proofs::Writing::part_taken))]
fn write_all<W: Write>(writer: &mut W, bytes: &[u8]) -> io::Result<()>
    ensures ok { OnOk result (Appends (W.contents writer.old) (W.contents writer.new) bytes.now) }
    ensures part { OnErr result
        (AppendsSome (W.contents writer.old) (W.contents writer.new) bytes.now) }
{
    let mut at = 0;
    for _ in 0..u64::MAX {
        if at >= bytes.len() {
            return Ok(());
        }
        at += write_some(writer, &bytes[at..])?;
    }
    Err(io::Error::from(io::ErrorKind::Interrupted))
}

impl<W: Write> Sink for Plain<W> {
    ghost contents = { λ s. W.contents s.0 };

    ghost fails = { λ _ _. ⊤ };

    #[tactic(auto, using(crate::proofs::Writing::still_taken))]
    fn write_whole(&mut self, bytes: &[u8]) -> io::Result<()> {
        write_all(&mut self.0, bytes)?;
        self.0.flush()
    }
}
