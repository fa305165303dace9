//! The outside where calls fall short: the sink of the system over an output that takes one byte a call, files that give one byte a call, and files of
//! the system. What is written stands in `stdout`, so nothing is lost and nothing comes twice.
#![tactic(auto)]

ghost use Rattle.std.specs.Prelude.{None};

use merlin_base::{Files, OutsideFault, ReadFail, StdFiles, StdSink, read_all, write_all};
use std::alloc::Global;
use std::fmt::Display;
use std::io;

/// An output that takes one byte a call.
#[derive(Drop)]
struct OneByte<R: Print + Drop>(R);

impl<R: Print + Drop> Print for OneByte<R> {
    fn print<D: Display + Drop>(&self, value: D) -> io::Result<()> {
        self.0.print(value)
    }

    fn println<D: Display + Drop>(&self, value: D) -> io::Result<()> {
        self.0.println(value)
    }

    fn write_all(&self, bytes: &[u8]) -> io::Result<()> {
        self.0.write_all(bytes)
    }

    fn write_some(&self, bytes: &[u8]) -> io::Result<usize> {
        self.0.write_some(&bytes[..bytes.len().min(1)])
    }
}

// What each of the files below holds.
const TEXT: &[u8] = b"0123456789 abcdefghijklmnopqrstuvwxyz";

/// Files that give one byte a call, of which nothing is told.
#[derive(Drop)]
struct Trickle {
    at: usize,
}

impl Files for Trickle {
    ghost faults = { λ _ _. 0 };

    ghost contents = { λ _. None };

    ghost rest = { λ _. None };

    ghost is_started = { λ _. Unit {0} };

    fn start(&mut self, _name: &str) -> Result<(), OutsideFault> {
        self.at = 0;
        Ok(())
    }

    fn read(&mut self, buf: &mut [u8]) -> Result<usize, OutsideFault> {
        let Some(byte) = TEXT.get(self.at) else {
            return Ok(0);
        };
        if buf.is_empty() {
            return Ok(0);
        }
        buf[0] = *byte;
        self.at = self.at.saturating_add(1);
        Ok(1)
    }
}

// What is read of a file of at most so many bytes, of which these are wanted.
fn told<F: Files>(
    alloc: Global,
    files: &mut F,
    name: &str,
    limit: usize,
    wanted: &[u8],
) -> &'static str {
    match read_all(alloc, files, name, limit) {
        Ok(bytes) => {
            if bytes.as_slice() == wanted {
                "whole"
            } else {
                "other bytes"
            }
        }
        Err(ReadFail::Outside) => "outside",
        Err(ReadFail::TooLong) => "too long",
        Err(ReadFail::OutOfMemory) => "out of memory",
    }
}

fn tell(rt: &HostRuntime) -> io::Result<()> {
    let mut trickle = Trickle { at: 0 };
    println!(rt; "{}", told(rt.alloc(), &mut trickle, "any", 37, TEXT))?;
    println!(rt; "{}", told(rt.alloc(), &mut trickle, "any", 36, TEXT))?;
    let mut files = StdFiles::new(rt);
    println!(rt; "{}", told(rt.alloc(), &mut files, "/dev/null", 6, b""))?;
    println!(rt;
        "{}",
        told(rt.alloc(), &mut files, "/dev/zero", 100_000, b"")
    )?;
    println!(rt; "{}", told(rt.alloc(), &mut files, "/no/such/file", 6, b""))
}

fn main(rt: HostRuntime) {
    let mut out = StdSink::new(OneByte(&rt));
    let _ = write_all(&mut out, b"0123456789 abcdefghijklmnopqrstuvwxyz\n");
    let _ = tell(&rt);
}
