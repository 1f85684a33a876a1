// Document 01 as definitions, in specs/, and what follows from them alone, in proofs/. Handset and
// server are proved equal to these definitions, and lean on nothing else.
//
// The answers of the public entries are declared here, so that the definitions speak of the very
// values that the code returns. Answer.antt gives document 01's number and values of each case.
#![tactic(auto)]

ghost use Rattle.std.specs.Prelude.{◌≡◌};
ghost use Rattle.paper.specs.Numbers.{refusal_number};

// "Numbers that say no", each by its name.
#[derive(Clone, Copy, Debug, PartialEq, Eq)]
pub enum Refusal {
    Input = 1,
    Form = 2,
    Head = 3,
    Root = 4,
    Rule = 5,
    Full = 6,
    Clash = 7,
    Room = 8,
    Twice = 9,
    Epoch = 10,
    Table = 11,
}

impl Refusal {
    // Document 01's number.
    pub fn number(self) -> u8
        ensures { result ≡ refusal_number self }
    {
        self as u8
    }
}

// The tree that is meant: *all* or *old*.
#[derive(Clone, Copy, Debug, PartialEq, Eq)]
pub enum Which {
    OfAll,
    OfOld,
}

// What a lookup check answers.
#[derive(Clone, Copy, Debug, PartialEq, Eq)]
pub enum AcceptedLookup {
    Found {
        version: u16,
        epoch: u32,
        digests: u32,
    },
    NotRegistered {
        epoch: u32,
        digests: u32,
    },
}

pub type LookupAnswer = Result<AcceptedLookup, Refusal>;

// What a history check answers.
#[derive(Clone, Copy, Debug, PartialEq, Eq)]
pub struct AcceptedHistory {
    pub versions: u16,
    pub epoch: u32,
    pub digests: u32,
}

pub type HistoryAnswer = Result<AcceptedHistory, Refusal>;

// What an audit check answers.
#[derive(Clone, Copy, Debug, PartialEq, Eq)]
pub struct AcceptedAudit {
    pub old_epoch: u32,
    pub new_epoch: u32,
    pub digests: u32,
}

pub type AuditAnswer = Result<AcceptedAudit, Refusal>;

// "The state is the record count and the current epoch."
#[derive(Clone, Copy, Debug, PartialEq, Eq)]
pub struct State {
    pub count: u32,
    pub epoch: u32,
}

// A refusal, "with the state as given".
#[derive(Clone, Copy, Debug, PartialEq, Eq)]
pub struct Returned {
    pub refusal: Refusal,
    pub state: State,
}

impl From<Returned> for Refusal {
    ghost from_gives = { λ returned refusal. refusal ≡ returned.refusal };

    fn from(returned: Returned) -> Refusal {
        returned.refusal
    }
}

// A proof's length, and the state as it was given.
#[derive(Clone, Copy, Debug, PartialEq, Eq)]
pub struct Written {
    pub length: usize,
    pub state: State,
}

// What starting a directory answers.
pub type StartAnswer = Result<State, Refusal>;

// What publishing answers: the new state, or the state as it was given.
pub type PublishAnswer = Result<State, Returned>;

// What a writer answers.
pub type WriteAnswer = Result<Written, Returned>;

// What a call of the tree level answers: how many bytes it wrote.
pub type TreeAnswer = Result<usize, Refusal>;
