// Reads recorded jobs from standard input, each as its length in four bytes, the low one first, and then so many bytes, and prints of each what
// `kitlist` prints. A recorded job may have a byte more than a job may have, and is then refused.
#![tactic(auto)]

ghost use Rattle.std.specs.Prelude.{◌≡◌, ◌+◌, ◌*◌, IfSome, OnOk, get_or, take};
ghost use Rattle.std.specs.Io.KnownBytes.{Appends};
ghost use Rattle.rules.specs.Job.{kitlist};

use std::fmt;
use std::io::{Read, Write};

// Why the jobs that follow are not replayed.
#[derive(Clone, Copy)]
enum Failure {
    Unread,
    CutLength,
    LongJob,
    CutJob,
    Unwritten,
}

impl fmt::Display for Failure {
    fn fmt<W: fmt::Write>(&self, f: &mut fmt::Formatter<W>) -> fmt::Result {
        f.write_str(match self {
            Failure::Unread => "standard input cannot be read",
            Failure::CutLength => "a length is cut short",
            Failure::LongJob => "a recorded job is too long",
            Failure::CutJob => "a recorded job is cut short",
            Failure::Unwritten => "standard output cannot be written",
        })
    }
}

// Says why the jobs that follow are not replayed.
fn stop(rt: &impl Eprint, why: Failure) {
    let _ = eprintln!(rt; "replay: {why}");
}

// A job of this length, read into the area.
fn replay_job<R: Read, W: Write>(
    reader: &mut R,
    writer: &mut W,
    area: &mut [u8],
    length: usize,
) -> Result<(), Failure>
    ensures { OnOk result (IfSome (R.remaining reader.old)
        (λ input. Appends (W.contents writer.old) (W.contents writer.new) (kitlist (take length input)))) }
{
    if area.len() < length {
        return Err(Failure::LongJob);
    }
    let read = input::fill(reader, &mut area[..length]).map_err(|_| Failure::CutJob)?;
    if read < length {
        return Err(Failure::CutJob);
    }
    let mut out = [0u8; 65536];
    let shown = shown::shown_in(&area[..length], &mut out);
    writer
        .write_all(&out[..shown])
        .map_err(|_| Failure::Unwritten)
}

// The next recorded job, if there is one; whether another may follow.
fn replay_next<R: Read, W: Write>(reader: &mut R, writer: &mut W) -> Result<bool, Failure> {
    let mut head = [0u8; 4];
    match input::fill(reader, &mut head).map_err(|_| Failure::Unread)? {
        0 => return Ok(false),
        4 => {}
        _ => return Err(Failure::CutLength),
    }
    let mut area = [0u8; 65537];
    replay_job(reader, writer, &mut area, u32::from_le_bytes(head) as usize)?;
    Ok(true)
}

// Nothing says that the input ends, so the loop's turns are counted, up to a number that no run uses up.
fn main(rt: HostRuntime) {
    for _ in 0..u64::MAX {
        match replay_next(&mut rt.stdin(), &mut rt.stdout()) {
            Ok(true) => {}
            Ok(false) => return,
            Err(why) => return stop(&rt, why),
        }
    }
}
