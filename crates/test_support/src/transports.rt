//! A reader and a writer that fail, for rows that run a program.

use std::alloc::Global;
use std::io::{self, Cursor, ErrorKind, Read, Write};

/// Gives its first bytes, and is reset after them.
#[derive(Drop)]
pub struct Breaking<'a> {
    pub front: Cursor<&'a [u8]>,
}

impl Read for Breaking<'_> {
    fn read(&mut self, buf: &mut [u8]) -> io::Result<usize> {
        let n = self.front.read(buf)?;
        if n == 0 {
            return Err(io::Error::from(ErrorKind::ConnectionReset));
        }
        Ok(n)
    }
}

/// A pipe that takes one byte a call, is interrupted before each call, and breaks once it is full or was flushed so often.
#[derive(Drop)]
pub struct Pipe {
    pub taken: Vec<u8>,
    room: usize,
    flushes: usize,
    is_interrupted: bool,
}

impl Pipe {
    pub fn new(alloc: Global, room: usize, flushes: usize) -> Pipe {
        Pipe {
            taken: Vec::new(alloc),
            room,
            flushes,
            is_interrupted: false,
        }
    }
}

impl Write for Pipe {
    fn write(&mut self, buf: &[u8]) -> io::Result<usize> {
        self.is_interrupted = !self.is_interrupted;
        if self.is_interrupted {
            return Err(io::Error::from(ErrorKind::Interrupted));
        }
        if self.taken.len() >= self.room {
            return Err(io::Error::from(ErrorKind::BrokenPipe));
        }
        let Some(byte) = buf.first() else {
            return Ok(0);
        };
        self.taken.push(*byte)?;
        Ok(1)
    }

    fn flush(&mut self) -> io::Result<()> {
        if self.flushes == 0 {
            return Err(io::Error::from(ErrorKind::BrokenPipe));
        }
        self.flushes -= 1;
        Ok(())
    }
}
