//! Runs a script, a read at a time.
ghost use Rattle.std.specs.Prelude.{◌≡◌, ◌≢◌, ◌⊎◌, ◌<◌, ℕ, List, [], ◌∷◌, ◌++◌, All, IfSome, IfNone, IfErr, OnOk, OnErr, length};
ghost use Rattle.std.specs.Io.{ReadsAtMost};
ghost use Rattle.std.specs.Io.KnownBytes.{Appends, ReadConsumes};
ghost use Rattle.script_core.specs.Lines.{lines_of, first_line, HasNoEnd};
ghost use Rattle.script_core.specs.Runs.{Adds, Writes, IsFrontOf, Reads, Says, SaysAll, SaysSome, Feeds, FeedsFirst, StopsBetween, MayGiveUpLine, GivesUpLine, MayGiveUpEnd, GivesUp};
ghost use Rattle.script_core.specs.Faults.{run_fault};
ghost use Rattle.script_core.specs.declared.fault.LineFault.{LineFault};

use crate::fault::{LineFault, RunFault};
use crate::session::Session;
use crate::writing::write_octets;
use memchr::memchr;
use std::alloc::Global;
use std::io::{Read, Write};

/// The most reads of one run of a program.
pub const MAX_READS: u32 = u32::MAX;

/// The octet that ends a line.
const LINE_END: u8 = b'\n';

/// The most octets of one read.
const READ_SIZE: usize = 4096;

// What a run holds, used again from line to line.
#[derive(Drop)]
struct Buffers {
    // The part of a line that was read so far.
    line: Vec<u8>,
    // What the session says to one line.
    stated: Vec<u8>,
    // What it answered to the lines of one read.
    out: Vec<u8>,
}

// Hands a line to the session, keeps what it says, and empties the line.
fn finish_line<S: Session>(session: &mut S, buffers: &mut Buffers) -> Result<(), LineFault>
    ensures stated { OnOk result (Adds buffers.old.out.items buffers.new.out.items (λ stated.
        S.line_says session.old buffers.old.line.items stated session.new)) }
    ensures empty { OnOk result (buffers.new.line.items ≡ []) }
    ensures same { OnErr result (buffers.new.out.items ≡ buffers.old.out.items) }
    ensures given_up { IfErr result (λ fault.
        MayGiveUpLine S.line_says S.may_give_up_line session.old buffers.old.line.items fault) }
{
    buffers.stated.clear();
    session.line(buffers.line.as_slice(), &mut buffers.stated)?;
    buffers.out.extend_from_slice(buffers.stated.as_slice())?;
    buffers.line.clear();
    Ok(())
}

// The octets up to the first end of a line, and those behind it, where there is one.
fn cut_line(octets: &[u8]) -> Option<(&[u8], &[u8])>
    ensures cut { IfSome result (λ p. (octets.now ≡ p.0.now ++ (LINE_END ∷ p.1.now)) ×
        HasNoEnd p.0.now) }
    ensures whole { IfNone result (HasNoEnd octets.now) }
{
    let place = memchr(LINE_END, octets)?;
    Some((&octets[..place], &octets[place + 1..]))
}

// Takes more of a line, behind what was read of it.
fn hold(buffers: &mut Buffers, part: &[u8]) -> Result<(), LineFault>
    ensures held { OnOk result (buffers.new.line.items ≡ buffers.old.line.items ++ part.now) }
    ensures same { buffers.new.out.items ≡ buffers.old.out.items }
    ensures some { OnErr result (0 < length part.now) }
    ensures memory { IfErr result (λ fault. fault ≡ LineFault.Memory) }
{
    if part.is_empty() {
        return Ok(());
    }
    buffers.line.extend_from_slice(part)?;
    Ok(())
}

// Takes the last part of a line, up to its end.
fn feed_line<S: Session>(
    session: &mut S,
    buffers: &mut Buffers,
    part: &[u8],
) -> Result<(), LineFault>
    requires line { HasNoEnd buffers.old.line.items }
    requires part { HasNoEnd part.now }
    ensures feeds { OnOk result ((rest : List ℕ) →
        Adds buffers.old.out.items buffers.new.out.items (λ stated.
        Feeds S.line_says session.old
        (buffers.old.line.items ++ (part.now ++ (LINE_END ∷ rest)))
        session.new (buffers.new.line.items ++ rest) stated)) }
    ensures part { OnOk result (buffers.new.line.items ≡ []) }
    ensures same { OnErr result (buffers.new.out.items ≡ buffers.old.out.items) }
    ensures given_up { IfErr result (λ fault. (rest : List ℕ) →
        MayGiveUpLine S.line_says S.may_give_up_line session.old
        (first_line (buffers.old.line.items ++ (part.now ++ (LINE_END ∷ rest)))) fault) }
{
    hold(buffers, part)?;
    finish_line(session, buffers)?;
    Ok(())
}

// Takes what one read gave.
fn feed<S: Session>(session: &mut S, buffers: &mut Buffers, chunk: &[u8]) -> Result<(), LineFault>
    requires { HasNoEnd buffers.old.line.items }
    ensures feeds { OnOk result ((rest : List ℕ) →
        Adds buffers.old.out.items buffers.new.out.items (λ stated.
        Feeds S.line_says session.old (buffers.old.line.items ++ (chunk.now ++ rest))
        session.new (buffers.new.line.items ++ rest) stated)) }
    ensures part { OnOk result (HasNoEnd buffers.new.line.items) }
    ensures given_up { IfErr result (λ fault. (rest : List ℕ) →
        Adds buffers.old.out.items buffers.new.out.items (λ stated.
        GivesUpLine S.line_says S.may_give_up_line session.old fault
        (buffers.old.line.items ++ (chunk.now ++ rest)) rest stated)) }
{
    let mut left = chunk;
    while let Some((part, behind)) = cut_line(left) {
        feed_line(session, buffers, part)?;
        left = behind;
    }
    hold(buffers, left)
}

// Ends the session, and keeps what it says.
fn end_session<S: Session>(session: &mut S, buffers: &mut Buffers) -> Result<(), LineFault>
    ensures stated { OnOk result (Adds buffers.old.out.items buffers.new.out.items (λ stated.
        S.end_says session.old stated session.new)) }
    ensures same { OnErr result (buffers.new.out.items ≡ buffers.old.out.items) }
    ensures given_up { IfErr result (λ fault.
        MayGiveUpEnd S.end_says S.may_give_up_end session.old fault) }
{
    buffers.stated.clear();
    session.end(&mut buffers.stated)?;
    buffers.out.extend_from_slice(buffers.stated.as_slice())?;
    Ok(())
}

// Hands on a last line that has no end, if there is one.
fn finish_last_line<S: Session>(session: &mut S, buffers: &mut Buffers) -> Result<(), LineFault>
    requires { HasNoEnd buffers.old.line.items }
    ensures stated { OnOk result (Adds buffers.old.out.items buffers.new.out.items (λ stated.
        Says S.line_says session.old
        (lines_of buffers.old.line.items) stated session.new)) }
    ensures same { OnErr result (buffers.new.out.items ≡ buffers.old.out.items) }
    ensures some { OnErr result (0 < length buffers.old.line.items) }
    ensures given_up { IfErr result (λ fault.
        MayGiveUpLine S.line_says S.may_give_up_line session.old buffers.old.line.items fault) }
{
    if buffers.line.is_empty() {
        return Ok(());
    }
    finish_line(session, buffers)?;
    Ok(())
}

// Answers the last line, and ends the session.
fn finish<S: Session>(session: &mut S, buffers: &mut Buffers) -> Result<(), LineFault>
    requires { HasNoEnd buffers.old.line.items }
    ensures stated { OnOk result (Adds buffers.old.out.items buffers.new.out.items (λ stated.
        SaysAll S.line_says S.end_says session.old
        (lines_of buffers.old.line.items) stated session.new)) }
    ensures given_up { IfErr result (λ fault.
        Adds buffers.old.out.items buffers.new.out.items (λ stated.
        GivesUp S.line_says S.end_says S.may_give_up_line S.may_give_up_end session.old fault
        buffers.old.line.items [] stated)) }
{
    finish_last_line(session, buffers)?;
    end_session(session, buffers)?;
    Ok(())
}

// Writes the answers, and flushes them, if there are any. Where that fails, a front of them is
// written.
fn deliver<W: Write>(buffers: &mut Buffers, writer: &mut W) -> Result<(), RunFault>
    ensures written { OnOk result (Appends (W.contents writer.old)
        (W.contents writer.new) buffers.old.out.items) }
    ensures empty { OnOk result (buffers.new.out.items ≡ []) }
    ensures line { buffers.new.line.items ≡ buffers.old.line.items }
    ensures front { OnErr result (Writes (W.contents writer.old) (W.contents writer.new) (λ text.
        IsFrontOf (λ whole. whole ≡ buffers.old.out.items) text)) }
    ensures output { IfErr result (λ e. e ≡ RunFault.Output) }
{
    if buffers.out.is_empty() {
        return Ok(());
    }
    write_octets(buffers.out.as_slice(), writer)?;
    buffers.out.clear();
    Ok(())
}

// Reads some octets, and none at the end of the input.
fn read_octets<R: Read>(reader: &mut R, chunk: &mut [u8]) -> Result<usize, RunFault>
    ensures bound { ReadsAtMost result chunk.new }
    ensures bytes { ReadConsumes (R.remaining reader.old)
        (R.remaining reader.new) result chunk.new }
    ensures input { IfErr result (λ e. e ≡ RunFault.Input) }
{
    match reader.read(chunk) {
        Ok(n) => Ok(n),
        Err(_) => Err(RunFault::Input),
    }
}

// Answers what one read gave. The answers to the lines before a fault are written too.
fn serve<S: Session, W: Write>(
    session: &mut S,
    buffers: &mut Buffers,
    chunk: &[u8],
    writer: &mut W,
) -> Result<(), RunFault>
    requires part { HasNoEnd buffers.old.line.items }
    requires empty { buffers.old.out.items ≡ [] }
    ensures feeds { OnOk result ((rest : List ℕ) →
        Writes (W.contents writer.old) (W.contents writer.new) (λ text.
        Feeds S.line_says session.old (buffers.old.line.items ++ (chunk.now ++ rest))
        session.new (buffers.new.line.items ++ rest) text)) }
    ensures part { OnOk result (HasNoEnd buffers.new.line.items) }
    ensures empty { OnOk result (buffers.new.out.items ≡ []) }
    ensures given_up { IfErr result (λ e. (fault : LineFault) → e ≡ run_fault fault →
        (rest : List ℕ) → Writes (W.contents writer.old) (W.contents writer.new) (λ text.
        GivesUpLine S.line_says S.may_give_up_line session.old fault
        (buffers.old.line.items ++ (chunk.now ++ rest)) rest text)) }
    ensures output { IfErr result (λ e. e ≡ RunFault.Output → (rest : List ℕ) →
        Writes (W.contents writer.old) (W.contents writer.new) (λ text. IsFrontOf (λ whole.
        FeedsFirst S.line_says session.old
        (buffers.old.line.items ++ (chunk.now ++ rest)) whole) text)) }
    ensures kind { IfErr result (λ e. e ≢ RunFault.Input) }
{
    let fed = feed(session, buffers, chunk);
    deliver(buffers, writer)?;
    fed?;
    Ok(())
}

// Answers the end of the input. The answer to a last line before a fault is written too.
fn close<S: Session, W: Write>(
    session: &mut S,
    buffers: &mut Buffers,
    writer: &mut W,
) -> Result<(), RunFault>
    requires part { HasNoEnd buffers.old.line.items }
    requires empty { buffers.old.out.items ≡ [] }
    ensures written { OnOk result (Writes (W.contents writer.old) (W.contents writer.new) (λ text.
        SaysAll S.line_says S.end_says session.old
        (lines_of buffers.old.line.items) text session.new)) }
    ensures given_up { IfErr result (λ e. (fault : LineFault) → e ≡ run_fault fault →
        Writes (W.contents writer.old) (W.contents writer.new) (λ text.
        GivesUp S.line_says S.end_says S.may_give_up_line S.may_give_up_end session.old fault
        buffers.old.line.items [] text)) }
    ensures output { IfErr result (λ e. e ≡ RunFault.Output →
        Writes (W.contents writer.old) (W.contents writer.new) (λ text.
        IsFrontOf (λ whole. SaysSome S.line_says S.end_says session.old
        (lines_of buffers.old.line.items) whole) text)) }
    ensures kind { IfErr result (λ e. e ≢ RunFault.Input) }
{
    let finished = finish(session, buffers);
    deliver(buffers, writer)?;
    finished?;
    Ok(())
}

/// Runs a script to the end of its input.
///
/// Each line ends at octet 0A or at the end of the input. What the lines of one read say is written
/// and flushed before the next read. No more than `most_reads` reads are made, which programs give
/// as [`MAX_READS`], and what the run holds does not grow with the number of lines.
///
/// # Errors
///
/// `Input` where a read fails or the reads run out: each line that had ended is answered, and what
/// it says is written. `Memory` and `Stopped` where a line, or the end of the script, is given up:
/// the answer to each line before it is written, and it was read, in part at least. It is
/// `Stopped` only where the session may end the run, at a line that was read to its end. `Output`
/// where a write fails or takes nothing: a front of the answers is written. A write that was
/// interrupted is made again; a read that was interrupted has failed.
pub fn run_script<S: Session, R: Read, W: Write>(
    alloc: Global,
    most_reads: u32,
    session: &mut S,
    reader: &mut R,
    writer: &mut W,
) -> Result<(), RunFault>
    // What is written is what the session answered to the lines of the input, and to its end.
    ensures written { OnOk result (IfSome (R.remaining reader.old) (λ input.
        Writes (W.contents writer.old) (W.contents writer.new) (λ text.
        SaysAll S.line_says S.end_says session.old (lines_of input) text session.new))) }
    // Where the input failed, each line that had ended was answered.
    ensures input { IfErr result (λ e. e ≡ RunFault.Input →
        Reads (R.remaining reader.old) (R.remaining reader.new) (λ input rest.
        Writes (W.contents writer.old) (W.contents writer.new) (λ text.
        StopsBetween S.line_says session.old session.new input rest text))) }
    // Where a line, or the end, was given up, each line before it was answered, and it may be given
    // up so.
    ensures given_up { IfErr result (λ e. (fault : LineFault) → e ≡ run_fault fault →
        Reads (R.remaining reader.old) (R.remaining reader.new) (λ input rest.
        Writes (W.contents writer.old) (W.contents writer.new) (λ text.
        GivesUp S.line_says S.end_says S.may_give_up_line S.may_give_up_end session.old fault
        input rest text))) }
    // Where a write failed, what is written is a front of the answers to the first lines of the
    // input, or to all of it.
    ensures output { IfErr result (λ e. e ≡ RunFault.Output →
        IfSome (R.remaining reader.old) (λ input.
        Writes (W.contents writer.old) (W.contents writer.new) (λ text. IsFrontOf (λ whole.
        SaysSome S.line_says S.end_says session.old (lines_of input) whole) text))) }
{
    let mut buffers = Buffers {
        line: Vec::new(alloc),
        stated: Vec::new(alloc),
        out: Vec::new(alloc),
    };
    let mut chunk = [0u8; READ_SIZE];
    for _ in 0..most_reads {
        match read_octets(reader, &mut chunk)? {
            0 => return close(session, &mut buffers, writer),
            n => serve(session, &mut buffers, &chunk[..n], writer)?,
        }
    }
    Err(RunFault::Input)
}
