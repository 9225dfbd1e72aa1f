// The literals of a goal are formatted once; where they stand in the listing already, they are copied from there.
ghost use Rattle.std.specs.Prelude.{◌≡◌, ◌≤◌};
ghost use Rattle.clause_lines.specs.Spans.{span_of, Nowhere, Behind, Again, Kept};

use requirement::Requirement;
use text::Writer;

// Where the literals of a goal stand.
#[derive(Clone, Copy)]
pub struct Span {
    pub begin: u32,
    pub length: u32,
}

// Where those of each range and of each union stand, if anywhere.
#[derive(Drop)]
pub struct Spans {
    pub ranges: [Option<Span>; 512],
    pub unions: [Option<Span>; 128],
}

impl Spans {
    pub fn new() -> Spans
        ensures { Nowhere result }
    {
        Spans {
            ranges: [None; 512],
            unions: [None; 128],
        }
    }

    fn span(&self, goal: Requirement) -> Option<Span>
        ensures { result ≡ span_of self.now goal }
    {
        match goal {
            Requirement::Single(range) => self.ranges.get(range as usize).copied().flatten(),
            Requirement::Union(union) => self.unions.get(union as usize).copied().flatten(),
        }
    }

    // The literals of a goal once more, if they stand in the listing already and fit there too.
    pub fn again(&self, writer: &mut Writer, goal: Requirement) -> bool
        requires { Behind self.now writer.old }
        ensures { Again self.now goal writer.old writer.new result }
    {
        match self.span(goal) {
            Some(span) => writer.repeat(span.begin as usize, span.length as usize),
            None => false,
        }
    }

    // The literals of a goal stand from place `begin` to the writer's: that is kept, if they fitted.
    pub fn keep(&mut self, goal: Requirement, begin: usize, writer: &Writer)
        requires { begin ≤ writer.now.at }
        ensures { Kept self.old self.new goal begin writer.now }
    {
        if writer.room < writer.at {
            return;
        }
        let Ok(length) = u32::try_from(writer.at - begin) else {
            return;
        };
        let Ok(begin) = u32::try_from(begin) else {
            return;
        };
        let span = Some(Span { begin, length });
        match goal {
            Requirement::Single(range) if range < 512 => self.ranges[range as usize] = span,
            Requirement::Union(union) if union < 128 => self.unions[union as usize] = span,
            _ => {}
        }
    }
}
