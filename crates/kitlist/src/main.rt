// Reads a job from standard input and prints its listing, or `refused NUMBER PLACE`.
#![tactic(auto)]

ghost use Rattle.std.specs.Prelude.{IfSome, OnOk};
ghost use Rattle.std.specs.Io.KnownBytes.{Appends};
ghost use Rattle.rules.specs.Job.{kitlist};

use std::fmt;
use std::io::{Read, Write};

// Which of the standard streams failed.
#[derive(Clone, Copy)]
enum Failure {
    Input,
    Output,
}

impl fmt::Display for Failure {
    fn fmt<W: fmt::Write>(&self, f: &mut fmt::Formatter<W>) -> fmt::Result {
        f.write_str(match self {
            Failure::Input => "standard input cannot be read",
            Failure::Output => "standard output cannot be written",
        })
    }
}

// What is kept of the input has a byte more than a job may have, so an overlong input is refused as an overlong job
// (`kitlist_cut` in crates/shown/proofs).
fn print_job<R: Read, W: Write>(reader: &mut R, writer: &mut W) -> Result<(), Failure>
    ensures { OnOk result (IfSome (R.remaining reader.old)
        (λ job. Appends (W.contents writer.old) (W.contents writer.new) (kitlist job))) }
{
    let mut job = [0u8; 65537];
    let Ok(length) = input::read_to_end(reader, &mut job) else {
        return Err(Failure::Input);
    };
    let mut out = [0u8; 65536];
    let shown = shown::shown_in(&job[..length], &mut out);
    match writer.write_all(&out[..shown]) {
        Ok(()) => Ok(()),
        Err(_) => Err(Failure::Output),
    }
}

fn main(rt: HostRuntime) {
    if let Err(failure) = print_job(&mut rt.stdin(), &mut rt.stdout()) {
        let _ = eprintln!(rt; "kitlist: {failure}");
    }
}
