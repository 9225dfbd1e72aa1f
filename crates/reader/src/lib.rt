// Job bytes to records: one byte of kind, then a body whose length the kind fixes. Refusals 2 and 1.
#![tactic(auto)]

ghost use Rattle.std.specs.Prelude.{◌≡◌, ◌+◌, ◌*◌, ◌<◌, ◌≤◌, length, take, drop, get_or, IfOk, MatchResult};
ghost use Rattle.rules.specs.Bytes.{byte_at, word_at};
ghost use Rattle.reader.specs.Naming.{ItemNamed, CommandNamed};

use refusal::Refusal;

// The kinds of a catalogue's records.
#[derive(Clone, Copy, Debug, PartialEq, Eq)]
pub enum ItemKind {
    Name,
    Part,
    Range,
    Member,
    Union,
    UnionMember,
    Leaf,
    Joined,
    Requirement,
    Constraint,
}

// The kinds of a sheet's records.
#[derive(Clone, Copy, Debug, PartialEq, Eq)]
pub enum CommandKind {
    Add,
    Draw,
    Run,
    Decide,
    Undo,
}

#[derive(Clone, Copy, Debug, PartialEq, Eq)]
pub enum Kind {
    Item(ItemKind),
    Command(CommandKind),
}

impl ItemKind {
    ghost use Rattle.reader.specs.Naming.{item_length};

    // The length of the kind's body.
    pub fn body_length(self) -> usize
        ensures { result ≡ item_length self }
    {
        match self {
            ItemKind::Union => 0,
            ItemKind::Name => 1,
            ItemKind::Range | ItemKind::Leaf => 2,
            ItemKind::Member | ItemKind::UnionMember | ItemKind::Constraint => 4,
            ItemKind::Joined => 5,
            ItemKind::Part | ItemKind::Requirement => 7,
        }
    }
}

impl CommandKind {
    ghost use Rattle.reader.specs.Naming.{command_length};

    // The length of the kind's body.
    pub fn body_length(self) -> usize
        ensures { result ≡ command_length self }
    {
        match self {
            CommandKind::Add | CommandKind::Draw | CommandKind::Run | CommandKind::Undo => 2,
            CommandKind::Decide => 5,
        }
    }
}

// The kind of a catalogue's record that has a number.
#[tactic(auto, unfolding(rules::specs::Records::kind_of, rules::specs::Records::look_up))]
pub fn item_kind(number: u8) -> Option<ItemKind>
    ensures { ItemNamed number result }
{
    match number {
        1 => Some(ItemKind::Name),
        2 => Some(ItemKind::Part),
        3 => Some(ItemKind::Range),
        4 => Some(ItemKind::Member),
        5 => Some(ItemKind::Union),
        6 => Some(ItemKind::UnionMember),
        7 => Some(ItemKind::Leaf),
        8 => Some(ItemKind::Joined),
        9 => Some(ItemKind::Requirement),
        10 => Some(ItemKind::Constraint),
        _ => None,
    }
}

// The kind of a sheet's record that has a number.
#[tactic(auto, unfolding(rules::specs::Records::kind_of, rules::specs::Records::look_up))]
fn command_kind(number: u8) -> Option<CommandKind>
    ensures { CommandNamed number result }
{
    match number {
        32 => Some(CommandKind::Add),
        33 => Some(CommandKind::Draw),
        34 => Some(CommandKind::Run),
        35 => Some(CommandKind::Decide),
        36 => Some(CommandKind::Undo),
        _ => None,
    }
}

// The kind that has a number.
impl TryFrom<u8> for Kind {
    ghost use Rattle.reader.specs.Reading.{Named};

    type Error = Refusal;

    ghost try_from_gives = { Named };

    #[tactic(auto, using(crate::proofs::Laws::no_kind))]
    fn try_from(number: u8) -> Result<Kind, Refusal> {
        if let Some(kind) = item_kind(number) {
            return Ok(Kind::Item(kind));
        }
        match command_kind(number) {
            Some(kind) => Ok(Kind::Command(kind)),
            None => Err(Refusal::UnknownKind),
        }
    }
}

// A sheet record with the numbers of its body, in their order.
#[derive(Clone, Copy, Debug, PartialEq, Eq)]
pub enum Command {
    Add(u16),
    Draw(u16),
    Run(u16),
    Decide {
        variable: u16,
        value: u8,
        level: u16,
    },
    Undo(u16),
}

// A whole record. The numbers of an item stay in its body.
#[derive(Clone, Copy, Debug, PartialEq, Eq)]
pub enum Record {
    Item(ItemKind),
    Sheet(Command),
}

// The byte at i, and 0 past the end.
#[tactic(auto, unfolding(rules::specs::Bytes::byte_at))]
pub fn byte(body: &[u8], i: usize) -> u8
    ensures { result ≡ byte_at body.now i }
{
    if i < body.len() { body[i] } else { 0 }
}

// The two-byte number at i; what lies past the end counts as 0.
#[tactic(auto, unfolding(rules::specs::Bytes::word_at))]
pub fn word(body: &[u8], i: usize) -> u16
    requires { i < 65536 }
    ensures { result ≡ word_at body.now i }
{
    u16::from(byte(body, i)) + 256 * u16::from(byte(body, i + 1))
}

impl Command {
    ghost use Rattle.reader.specs.Reading.{command_of, command_read};

    #[tactic(auto, unfolding(crate::specs::Reading::command_of, crate::specs::Reading::command_read))]
    fn from_body(kind: CommandKind, body: &[u8]) -> Command
        ensures { command_of result ≡ command_read kind body.now }
    {
        match kind {
            CommandKind::Add => Command::Add(word(body, 0)),
            CommandKind::Draw => Command::Draw(word(body, 0)),
            CommandKind::Run => Command::Run(word(body, 0)),
            CommandKind::Decide => Command::Decide {
                variable: word(body, 0),
                value: byte(body, 2),
                level: word(body, 3),
            },
            CommandKind::Undo => Command::Undo(word(body, 0)),
        }
    }
}

// A place in a lent job, where a record stands.
#[derive(Clone, Copy)]
pub struct Reader<'a> {
    pub job: &'a [u8],
    pub at: usize,
    ghost inside: { at < length job.now },
}

impl<'a> Reader<'a> {
    ghost use Rattle.rules.specs.Records.{read};
    ghost use Rattle.reader.specs.Reading.{Named, body_length, result_of, next_of};

    // The kind of the record.
    pub fn kind(self) -> Result<Kind, Refusal>
        ensures { Named (get_or self.entry.job.now self.entry.at 0) result }
    {
        Kind::try_from(self.job[self.at])
    }

    // The place behind the record, be it whole or not. A byte that is of no kind stands for a body of 99.
    #[tactic(auto, unfolding(crate::specs::Reading::length_in))]
    pub fn next(self) -> usize
        requires { length self.job.now ≤ 65536 }
        ensures { result ≡ self.entry.at + 1 + body_length (get_or self.entry.job.now self.entry.at 0) }
    {
        let size = match self.kind() {
            Ok(Kind::Item(kind)) => kind.body_length(),
            Ok(Kind::Command(kind)) => kind.body_length(),
            Err(_) => 99,
        };
        self.at + 1 + size
    }

    // The place behind a body of this length, if the job has it whole. With room for the longest the length is not looked at.
    pub fn behind(self, size: usize) -> Result<usize, Refusal>
        requires { size ≤ 7 }
        ensures { MatchResult result
            (λ next. (next ≡ self.entry.at + 1 + size) × (next ≤ length self.entry.job.now))
            (λ refusal. (refusal ≡ Refusal.CutShort) × (length self.entry.job.now < self.entry.at + 1 + size)) }
    {
        let left = self.job.len() - self.at;
        if 8 <= left || size < left {
            Ok(self.at + 1 + size)
        } else {
            Err(Refusal::CutShort)
        }
    }

    // The body of the record, of this length.
    pub fn body(self, size: usize) -> &'a [u8]
        requires { self.at + 1 + size ≤ length self.job.now }
        ensures { result.now ≡ take size (drop (self.entry.at + 1) self.entry.job.now) }
    {
        let from = self.at + 1;
        &self.job[from..from + size]
    }

    // The record, and the place behind it; `begun`: a sheet record has stood before.
    #[tactic(auto, unfolding(rules::specs::Job::body_of))]
    pub fn read(self, begun: bool) -> Result<(Record, usize), Refusal>
        ensures record { result_of (drop (self.entry.at + 1) self.entry.job.now) result
            ≡ read begun (get_or self.entry.job.now self.entry.at 0) (drop (self.entry.at + 1) self.entry.job.now) }
        ensures behind { IfOk result (λ r. (r.1 ≡ next_of self.entry.job.now self.entry.at) × (r.1 ≤ length self.entry.job.now)) }
    {
        match self.kind()? {
            Kind::Item(_) if begun => Err(Refusal::OutOfPlace),
            Kind::Item(kind) => {
                let next = self.behind(kind.body_length())?;
                Ok((Record::Item(kind), next))
            }
            Kind::Command(kind) => {
                let next = self.behind(kind.body_length())?;
                let command = Command::from_body(kind, self.body(kind.body_length()));
                Ok((Record::Sheet(command), next))
            }
        }
    }
}
