//! The words of the command line.

ghost use Rattle.std.specs.Io.{WritesAtMost};

use base::{NoMemory, Text, TextList};
use std::alloc::Global;
use std::env;
use std::env::{Env, FillError};
use std::io::ErrorKind;

/// The arguments of the program without the first. The first is the path that the program was started by, and may have any
/// bytes.
#[derive(Clone, Copy)]
struct Arguments {
    rt: HostRuntime,
}

impl Env for Arguments {
    fn arg(&self, i: usize, buf: &mut [u8]) -> Result<usize, FillError> {
        self.rt.arg(i.saturating_add(1), buf)
    }

    fn var(&self, name: &str, buf: &mut [u8]) -> Result<usize, FillError> {
        self.rt.var(name, buf)
    }

    fn var_at(&self, i: usize, buf: &mut [u8]) -> Result<usize, FillError> {
        self.rt.var_at(i, buf)
    }
}

impl Alloc for Arguments {
    type A = Global;

    fn alloc(&self) -> Global {
        self.rt.alloc()
    }
}

/// The words of the command line, or the one word `--not-utf8` where one isn't UTF-8.
pub fn words(rt: HostRuntime) -> Result<TextList, NoMemory> {
    let mut words = TextList::new(rt.alloc());
    match env::args(&Arguments { rt }) {
        Ok(arguments) => {
            for word in arguments {
                words.push(Text::from_slice(rt.alloc(), word.as_bytes())?)?;
            }
            Ok(words)
        }
        Err(error) if error.kind() == ErrorKind::OutOfMemory => Err(NoMemory),
        Err(_) => {
            words.push(Text::from_slice(rt.alloc(), b"--not-utf8")?)?;
            Ok(words)
        }
    }
}
