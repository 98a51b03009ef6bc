// A reader that gives one byte at a time, and a writer that has little room.
use std::io;
use std::io::{BufRead, Read, Write};

// Gives its text in pieces of one byte, and then fails, if it has a fault, or ends. If it is to be interrupted, that comes
// before each piece.
#[derive(Drop)]
pub struct Pieces<'a> {
    text: &'a [u8],
    fault: Option<io::ErrorKind>,
    is_interrupted: bool,
    is_ready: bool,
}

impl<'a> Pieces<'a> {
    // A reader that is never interrupted.
    pub fn of(text: &'a [u8], fault: Option<io::ErrorKind>) -> Pieces<'a> {
        Pieces {
            text,
            fault,
            is_interrupted: false,
            is_ready: false,
        }
    }

    // A reader that is interrupted and does not fail.
    pub fn interrupted(text: &'a [u8]) -> Pieces<'a> {
        Pieces {
            text,
            fault: None,
            is_interrupted: true,
            is_ready: true,
        }
    }
}

impl Read for Pieces<'_> {
    fn read(&mut self, _: &mut [u8]) -> io::Result<usize> {
        Err(io::Error::from(io::ErrorKind::Unsupported))
    }
}

impl BufRead for Pieces<'_> {
    fn fill_buf(&mut self) -> io::Result<&[u8]> {
        self.is_ready = !self.is_interrupted || !self.is_ready;
        if !self.is_ready {
            return Err(io::Error::from(io::ErrorKind::Interrupted));
        }
        match self.fault {
            Some(kind) if self.text.is_empty() => Err(io::Error::from(kind)),
            _ => Ok(&self.text[..self.text.len().min(1)]),
        }
    }

    fn consume(&mut self, amount: usize) {
        let amount = amount.min(self.text.len());
        self.text = &self.text[amount..];
    }
}

// Takes a number of bytes, and then fails.
#[derive(Drop)]
pub struct Room {
    pub left: usize,
    pub flushes: bool,
}

impl Write for Room {
    fn write(&mut self, bytes: &[u8]) -> io::Result<usize> {
        let taken = bytes.len().min(self.left);
        if taken == 0 {
            return Err(io::Error::from(io::ErrorKind::BrokenPipe));
        }
        self.left -= taken;
        Ok(taken)
    }

    fn flush(&mut self) -> io::Result<()> {
        if self.flushes {
            Ok(())
        } else {
            Err(io::Error::from(io::ErrorKind::BrokenPipe))
        }
    }
}
