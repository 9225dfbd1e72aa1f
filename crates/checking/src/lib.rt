// `check` on the catalogue's three areas: 7, then 3 for the length, then the catalogue's records, and what is answered.
// The areas are zero on every way out.
#![tactic(auto)]

ghost use Rattle.std.specs.Prelude.{length};
ghost use Rattle.terms.specs.Terms.{lent_of};
ghost use Rattle.state.specs.Limits.{limits_of};
ghost use Rattle.terms.specs.Answers.{Gives};
ghost use Rattle.checking.specs.Areas.{Zeroed};
ghost use Rattle.checking.specs.Checking.{told_of, ReadWithin, Lends, Checked};

use catalogue::Read;
use refusal::{Refusal, RefusedAt};
use terms::{Answer, Terms};

// ---- areas

fn clear(area: &mut [u8])
    ensures { Zeroed area.old area.new }
{
    words::clear(area);
}

pub fn clear_three(a: &mut [u8], b: &mut [u8], c: &mut [u8])
    ensures { Zeroed a.old a.new × Zeroed b.old b.new × Zeroed c.old c.new }
{
    clear(a);
    clear(b);
    clear(c);
}

// ---- check

// The catalogue of a job, read when the terms fit and the job is not too long.
fn read_within<'a>(
    job: &[u8],
    terms: Terms,
    marks: &'a mut [u8],
    unions: &'a mut [u8],
    t: &'a mut [u8],
) -> Result<Read, RefusedAt>
    requires { Lends terms.lent marks.old unions.old t.old }
    ensures { ReadWithin job.now (limits_of terms.limits) (lent_of terms.lent) result }
{
    if !terms.fit() {
        return Err(RefusedAt {
            refusal: Refusal::Unfit,
            at: 0,
        });
    }
    if 65536 < job.len() {
        return Err(RefusedAt {
            refusal: Refusal::Overlong,
            at: 0,
        });
    }
    catalogue::read_catalogue(job, marks, unions, t)
}

// What `check` says of a catalogue that was read.
fn told(length: usize, read: Result<Read, RefusedAt>) -> Answer
    ensures { Gives result (told_of length read) }
{
    match read {
        Ok(_) => Answer::accepted(0, 0, 0),
        Err(refused) => Answer::refused(length, refused),
    }
}

pub fn check_within(
    job: &[u8],
    terms: Terms,
    marks: &mut [u8],
    unions: &mut [u8],
    t: &mut [u8],
) -> Answer
    requires { Lends terms.lent marks.old unions.old t.old }
    ensures { Checked job.now (limits_of terms.limits) (lent_of terms.lent) result
        marks.old unions.old t.old marks.new unions.new t.new }
{
    let read = read_within(job, terms, marks, unions, t);
    clear_three(marks, unions, t);
    told(job.len(), read)
}
