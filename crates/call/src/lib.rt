// A step as one value that carries its own arguments, and the reply.
#![tactic(auto)]

ghost use Rattle.std.specs.Prelude.{◌≡◌};
ghost use Rattle.call.specs.Answer.{answer_code, answer_kind, answer_word, held_word, refusal_code, refusal_kind, refusal_word, side_by_side, reply_number};
ghost use Rattle.call.specs.Decode.{a_write, an_update, decoded};
ghost use Rattle.value.specs.Value.{parsed};

use value::CellValue;

// The fourteen steps. A number is a cell.
#[derive(Clone, Copy)]
pub enum Step {
    Begin,
    Read(u8),
    Write(u8, CellValue),
    Close,
    Lock,
    Enter,
    Reread(u8),
    Update(u8, CellValue),
    Ask(u8),
    Reload,
    Ignore,
    Finish,
    Publish,
    GiveUp,
}

// Why the numbers of a call are no step. A write or an update whose kind or word is illegal has no value, but keeps its cell: codes 3, 4 and 5 come before 6.
#[derive(Clone, Copy)]
pub enum Undecoded {
    IllegalWrite(u8),
    IllegalUpdate(u8),
    Unknown,
}

// What the numbers of a call say.
pub type Decoded = Result<Step, Undecoded>;

// The answer to a step that was taken. An abort is one: it has freed its cells.
#[derive(Clone, Copy)]
pub enum Answer {
    Done,
    Verdict(bool),
    Value(CellValue),
    Aborted,
}

// Why a call is refused, with a case for each cause. It has changed no byte.
#[derive(Clone, Copy)]
pub enum Refusal {
    NotWellFormed,
    NoSuchStep,
    NoSuchSlot,
    NotAllowed,
    MarkedWritten,
    NoSuchCell,
    IllegalValue,
    OtherKind,
    NotInLog,
    LogFull,
    ReadHeld { holder: u8 },
    ReadNewer,
    LockHeld { cell: u8, holder: u8 },
    ReloadHeld { cell: u8, holder: u8 },
    LastStamp,
}

// The reply to a call.
pub type Reply = Result<Answer, Refusal>;

// The step that the numbers of a call stand for. What a step doesn't use is ignored.
#[tactic(auto, unfolding(crate::specs::Decode::decoded))]
pub fn decode(step: u8, cell: u8, kind: u8, word: u32) -> Decoded
    ensures { result ≡ decoded step cell kind word }
{
    match step {
        1 => Ok(Step::Begin),
        2 => Ok(Step::Read(cell)),
        3 => value::from_word(kind, word)
            .map(|v| Step::Write(cell, v))
            .ok_or(Undecoded::IllegalWrite(cell)),
        4 => Ok(Step::Close),
        5 => Ok(Step::Lock),
        6 => Ok(Step::Enter),
        7 => Ok(Step::Reread(cell)),
        8 => value::from_word(kind, word)
            .map(|v| Step::Update(cell, v))
            .ok_or(Undecoded::IllegalUpdate(cell)),
        9 => Ok(Step::Ask(cell)),
        10 => Ok(Step::Reload),
        11 => Ok(Step::Ignore),
        12 => Ok(Step::Finish),
        13 => Ok(Step::Publish),
        14 => Ok(Step::GiveUp),
        _ => Err(Undecoded::Unknown),
    }
}

// Who is in the way, and at which cell.
fn held_word(cell: u8, holder: u8) -> u32
    ensures { result ≡ held_word cell holder }
{
    u32::from(cell) * 256 + u32::from(holder)
}

// Code, kind and word have names: a `From` would not say which of the three it is.
impl Answer {
    fn code(self) -> u8
        ensures { result ≡ answer_code self }
    {
        match self {
            Answer::Done => 0,
            Answer::Verdict(_) => 0,
            Answer::Value(_) => 0,
            Answer::Aborted => 13,
        }
    }

    fn kind(self) -> u8
        ensures { result ≡ answer_kind self }
    {
        match self {
            Answer::Done => 0,
            Answer::Verdict(_) => 1,
            Answer::Value(v) => v.kind(),
            Answer::Aborted => 0,
        }
    }

    pub fn word(self) -> u32
        ensures { result ≡ answer_word self }
    {
        match self {
            Answer::Done => 0,
            Answer::Verdict(yes) => u32::from(yes),
            Answer::Value(v) => v.word(),
            Answer::Aborted => 0,
        }
    }
}

impl Refusal {
    pub fn code(self) -> u8
        ensures { result ≡ refusal_code self }
    {
        match self {
            Refusal::NotWellFormed => 1,
            Refusal::NoSuchStep => 2,
            Refusal::NoSuchSlot => 3,
            Refusal::NotAllowed => 4,
            Refusal::MarkedWritten => 15,
            Refusal::NoSuchCell => 5,
            Refusal::IllegalValue => 6,
            Refusal::OtherKind => 7,
            Refusal::NotInLog => 8,
            Refusal::LogFull => 9,
            Refusal::ReadHeld { holder: _ } => 14,
            Refusal::ReadNewer => 10,
            Refusal::LockHeld { cell: _, holder: _ } => 11,
            Refusal::ReloadHeld { cell: _, holder: _ } => 11,
            Refusal::LastStamp => 12,
        }
    }

    pub fn kind(self) -> u8
        ensures { result ≡ refusal_kind self }
    {
        match self {
            Refusal::ReadHeld { holder: _ } => 2,
            Refusal::LockHeld { cell: _, holder: _ } => 2,
            Refusal::ReloadHeld { cell: _, holder: _ } => 2,
            _ => 0,
        }
    }

    pub fn word(self) -> u32
        ensures { result ≡ refusal_word self }
    {
        match self {
            Refusal::ReadHeld { holder } => u32::from(holder),
            Refusal::LockHeld { cell, holder } => held_word(cell, holder),
            Refusal::ReloadHeld { cell, holder } => held_word(cell, holder),
            _ => 0,
        }
    }
}

// Code, kind and word side by side.
fn side_by_side(code: u8, kind: u8, word: u32) -> u64
    ensures { result ≡ side_by_side code kind word }
{
    u64::from(code) * 1099511627776 + u64::from(kind) * 4294967296 + u64::from(word)
}

// The one number that C gets.
#[tactic(auto, unfolding(crate::specs::Answer::reply_number))]
pub fn number(reply: Reply) -> u64
    ensures { result ≡ reply_number reply }
{
    match reply {
        Ok(answer) => side_by_side(answer.code(), answer.kind(), answer.word()),
        Err(refusal) => side_by_side(refusal.code(), refusal.kind(), refusal.word()),
    }
}
