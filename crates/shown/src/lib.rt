// What `kitlist` prints of a job: its listing, or the line of its refusal.
#![tactic(auto)]

ghost use Rattle.std.specs.Prelude.{◌≡◌, ◌≤◌, length};
ghost use Rattle.rules.specs.Job.{refused, shown, kitlist};
ghost use Rattle.shown.specs.Shown.{Holds};

use text::Writer;

// `refused NUMBER PLACE`; no such line has more than 50 bytes.
fn refusal_line(out: &mut [u8], number: u64, place: u64) -> usize
    requires { 50 ≤ length out.old }
    ensures { Holds (shown (refused (number, place))) result out.new }
{
    let room = out.len();
    let mut writer = Writer::new(out, room);
    writer.word(b"refused");
    writer.field_number(number as usize);
    writer.field_number(place as usize);
    writer.line_feed();
    writer.at
}

// The job is run with kitlist's limits, in areas of the lengths that these need (docs/LIMITS.md). How many bytes of `out` it takes.
pub fn shown_in(job: &[u8], out: &mut [u8]) -> usize
    requires { length out.old ≡ 65536 }
    ensures { Holds (kitlist job.now) result out.new }
{
    let mut marks = [0u8; 65536];
    let mut unions = [0u8; 52428];
    let mut catalogue = [0u8; 50696];
    let mut store = [0u8; 40960];
    let mut state = [0u8; 61196];
    let mut deferred = [0u8; 2048];
    let answer = kit::kit_run(
        job,
        1024,
        2048,
        1024,
        256,
        &mut marks,
        &mut unions,
        &mut catalogue,
        &mut store,
        &mut state,
        &mut deferred,
        out,
    );
    if answer.number == 0 {
        return answer.length as usize;
    }
    refusal_line(out, answer.number, answer.place)
}
