// A stream that keeps why the system refused it.
ghost use Rattle.std.specs.Prelude.{◌≡◌};
ghost use Rattle.std.specs.Process.{exit_status};

use crate::tell;
use std::fmt;
use std::fmt::Display;
use std::io::{Error, Read, Result, Write};
use std::process::ExitCode;

/// The system's error number for a stream that it refused, if it gave one.
#[derive(Clone, Copy, Debug, PartialEq, Eq)]
pub struct Why(pub Option<i32>);

impl Display for Why {
    fn fmt<W: fmt::Write>(&self, f: &mut fmt::Formatter<W>) -> fmt::Result {
        match self.0 {
            Some(code) => {
                let error = Error::from_raw_os_error(code);
                write!(f, "{error}")
            }
            None => write!(f, "the system refused it"),
        }
    }
}

/// A stream that keeps why its last call failed.
#[derive(Drop)]
pub struct Noted<S> {
    inner: S,
    why: Why,
}

impl<S> Noted<S> {
    /// A stream over this one.
    pub fn new(inner: S) -> Noted<S> {
        Noted {
            inner,
            why: Why(None),
        }
    }

    /// Why the last call that failed did.
    pub fn why(&self) -> Why {
        self.why
    }
}

impl<R: Read> Read for Noted<R> {
    ghost remaining = { λ noted. R.remaining noted.inner };

    fn read(&mut self, buffer: &mut [u8]) -> Result<usize> {
        match self.inner.read(buffer) {
            Ok(count) => Ok(count),
            Err(error) => {
                self.why = Why(error.raw_os_error());
                Err(error)
            }
        }
    }
}

impl<W: Write> Write for Noted<W> {
    ghost contents = { λ noted. W.contents noted.inner };

    fn write(&mut self, bytes: &[u8]) -> Result<usize> {
        match self.inner.write(bytes) {
            Ok(count) => Ok(count),
            Err(error) => {
                self.why = Why(error.raw_os_error());
                Err(error)
            }
        }
    }

    fn flush(&mut self) -> Result<()> {
        match self.inner.flush() {
            Ok(()) => Ok(()),
            Err(error) => {
                self.why = Why(error.raw_os_error());
                Err(error)
            }
        }
    }
}

/// Says why standard input was not read to its end.
pub fn tell_unread(rt: &HostRuntime, why: Why, status: u8) -> ExitCode
    ensures { exit_status result ≡ status }
{
    tell(rt, format_args!("standard input: {why}"), status)
}

/// Says why standard output was not written to its end.
pub fn tell_unwritten(rt: &HostRuntime, why: Why, status: u8) -> ExitCode
    ensures { exit_status result ≡ status }
{
    tell(rt, format_args!("standard output: {why}"), status)
}
