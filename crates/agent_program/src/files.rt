//! Reads the files that the program is handed, as far as each may be.
ghost use Rattle.std.specs.Prelude.{◌≡◌, ◌≤◌, ℕ, List, Result, IfOk, IfSome, ⊤, vec_len, option_map};
ghost use Rattle.agent_program.specs.Files.{IsReadWithin, most_octets, read_view, within};
ghost use Rattle.agent_program.specs.declared.files.NotRead.{NotRead};

use control_text::MAX_POLICY;
use std::alloc::Global;
use std::fs::File;
use std::io::{self, ErrorKind, Read};
use std::rt::Files;

/// The most octets of the file of a configuration: 268,435,456, that is 256 MiB.
pub const MAX_CONFIGURATION: u32 = 268_435_456;

// The most octets of the file of a policy for a served agent: what a command takes.
const MAX_POLICY_FILE: u32 = MAX_POLICY as u32;

/// What a file holds, and so how many octets it may have.
#[derive(Clone, Copy, Debug, PartialEq, Eq)]
pub enum FileLimit {
    /// A configuration: [`MAX_CONFIGURATION`].
    Configuration,
    /// A policy for a served agent: [`MAX_POLICY`].
    Policy,
}

impl FileLimit {
    /// The most octets.
    pub fn most_octets(self) -> u32
        ensures { result ≡ most_octets self }
    {
        match self {
            FileLimit::Configuration => MAX_CONFIGURATION,
            FileLimit::Policy => MAX_POLICY_FILE,
        }
    }
}

/// Why the octets of a file were not had.
#[derive(Clone, Copy, Debug)]
pub enum NotRead<'a> {
    /// There was no memory for those of this file; it can be read all the same.
    Memory(&'a str),
    /// This file cannot be read, for a reason of this kind that the system gives.
    Unreadable(&'a str, ErrorKind),
    /// This file has more octets than this limit.
    TooLarge(&'a str, FileLimit),
}

/// Reads whole files.
pub trait ReadFile {
    /// What a read of the file of this name may give: its octets, or why they were not had.
    ghost gives: { Self → List ℕ → Result (List ℕ) NotRead → Type 0 };

    /// The octets of the file of this name, of which it may have as many as this limit.
    ///
    /// # Errors
    /// `Memory`, with the file, where there is none for them; `Unreadable`, with the file and the system's
    /// reason, where it cannot be read; `TooLarge`, with the file and the limit, where it has more octets.
    fn read_file<'a>(&self, file: &'a str, limit: FileLimit) -> Result<Vec<u8>, NotRead<'a>>
        ensures read { IsReadWithin file.now limit (read_view result) }
        ensures gave { gives self.now file.now (read_view result) };
}

/// The files of the system, read to one octet past their limit at most. No clause can say what one holds,
/// nor whether it can be read.
#[derive(Clone, Copy, Debug)]
pub struct SystemFiles<'r, R>(pub &'r R);

impl<R: Files + AllocGlobal> ReadFile for SystemFiles<'_, R> {
    ghost gives = { λ _ _ _. ⊤ };

    fn read_file<'a>(&self, file: &'a str, limit: FileLimit) -> Result<Vec<u8>, NotRead<'a>> {
        match file_within(self.0, file, limit.most_octets()) {
            Ok(Some(octets)) => Ok(octets),
            Ok(None) => Err(NotRead::TooLarge(file, limit)),
            Err(error) if error.kind() == ErrorKind::OutOfMemory => Err(NotRead::Memory(file)),
            Err(error) => Err(NotRead::Unreadable(file, error.kind())),
        }
    }
}

// The octets of a file of the system, if they are no more than so many.
fn file_within<R: Files + AllocGlobal>(rt: &R, file: &str, most: u32) -> io::Result<Option<Vec<u8>>>
    ensures { IfOk result (λ read. IfSome read (λ octets. vec_len octets ≤ most)) }
{
    let opened = File::open(rt, file)?;
    octets_within(rt.alloc(), opened, most)
}

// What a reader gives to its end, if that is no more than so many octets. It is read to one octet past them
// at most.
#[tactic(auto, using(crate::proofs::ReadLemmas::all_taken, crate::proofs::ReadLemmas::more_taken))]
fn octets_within<R: Read + Drop>(alloc: Global, reader: R, most: u32) -> io::Result<Option<Vec<u8>>>
    ensures most { IfOk result (λ read. IfSome read (λ octets. vec_len octets ≤ most)) }
    ensures whole { IfOk result (λ read. IfSome (R.remaining reader) (λ octets.
        option_map (λ had. had.items) read ≡ within most octets)) }
{
    let mut octets = Vec::new(alloc);
    let mut front = reader.take(u64::from(most) + 1);
    front.read_to_end(&mut octets)?;
    if octets.len() > most as usize {
        return Ok(None);
    }
    Ok(Some(octets))
}
