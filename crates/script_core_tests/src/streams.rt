//! A session, a reader and a writer.
ghost use Rattle.std.specs.Prelude.{◌≡◌, ◌⊎◌, ◌++◌, codes};
ghost use Rattle.script_core.specs.declared.fault.LineFault.{LineFault};

use script_core::{LineFault, Session};
use std::io;
use std::io::{Error, ErrorKind, Read, Write};

/// Says each line again with `!` behind it, and `end` at the end. The line `stop` stops the run.
#[derive(Drop)]
pub struct Shouter;

impl Session for Shouter {
    ghost line_says = { λ before line stated now. stated ≡ line ++ codes "!\n" };

    ghost end_says = { λ before stated now. stated ≡ codes "end\n" };

    ghost may_give_up_line = { λ before line fault.
        (fault ≡ LineFault.Memory) ⊎ (line ≡ codes "stop") };

    ghost may_give_up_end = { λ before fault. fault ≡ LineFault.Memory };

    fn line(&mut self, line: &[u8], out: &mut Vec<u8>) -> Result<(), LineFault> {
        if line == b"stop".as_slice() {
            return Err(LineFault::Stopped);
        }
        out.extend_from_slice(line)?;
        out.extend_from_slice(b"!\n")?;
        Ok(())
    }

    fn end(&mut self, out: &mut Vec<u8>) -> Result<(), LineFault> {
        out.extend_from_slice(b"end\n")?;
        Ok(())
    }
}

/// Gives three octets a read, and counts its reads.
#[derive(Drop)]
pub struct Slow<'a> {
    pub octets: &'a [u8],
    pub reads: usize,
}

impl Read for Slow<'_> {
    fn read(&mut self, buf: &mut [u8]) -> io::Result<usize> {
        self.reads = self.reads.wrapping_add(1);
        let size = self.octets.len().min(buf.len()).min(3);
        let (given, rest) = self.octets.split_at(size);
        buf[..size].copy_from_slice(given);
        self.octets = rest;
        Ok(size)
    }
}

/// Takes two octets a write until it has taken the most, and is interrupted before each. Counts its
/// flushes.
#[derive(Drop)]
pub struct Narrow {
    pub is_interrupted: bool,
    pub most: usize,
    pub flushes: usize,
    pub octets: Vec<u8>,
}

impl Write for Narrow {
    fn write(&mut self, buf: &[u8]) -> io::Result<usize> {
        self.is_interrupted = !self.is_interrupted;
        if self.is_interrupted {
            return Err(Error::from(ErrorKind::Interrupted));
        }
        let size = buf.len().min(self.most).min(2);
        if self.octets.extend_from_slice(&buf[..size]).is_err() {
            return Err(Error::from(ErrorKind::Other));
        }
        self.most -= size;
        Ok(size)
    }

    fn flush(&mut self) -> io::Result<()> {
        self.flushes = self.flushes.wrapping_add(1);
        Ok(())
    }
}
