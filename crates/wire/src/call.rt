// The calls and their numbers, as docs/DRIVER.md has them.
ghost use Rattle.wire.specs.Calls.{Numbered};

use crate::Unreadable;

// Calls of the handset, of the tree level, of the server, and of the writers of a lookup or a history; and of the writer of an audit.
#[derive(Clone, Copy, Debug, PartialEq, Eq)]
pub enum Call {
    Handset(HandsetCall),
    Tree(TreeCall),
    Server(ServerCall),
    Proof(ProofCall),
    Audit,
}

#[derive(Clone, Copy, Debug, PartialEq, Eq)]
pub enum HandsetCall {
    Sha256,
    FirstDifference,
    HistoryPaths,
    CheckLookup,
    CheckHistory,
    CheckAudit,
    Program,
}

#[derive(Clone, Copy, Debug, PartialEq, Eq)]
pub enum TreeCall {
    Root,
    Path,
}

#[derive(Clone, Copy, Debug, PartialEq, Eq)]
pub enum ServerCall {
    Start,
    Publish,
}

#[derive(Clone, Copy, Debug, PartialEq, Eq)]
pub enum ProofCall {
    Lookup,
    History,
}

impl TryFrom<u8> for Call {
    type Error = Unreadable;

    ghost try_from_gives = { Numbered };

    fn try_from(number: u8) -> Result<Call, Unreadable> {
        Ok(match number {
            1 => Call::Handset(HandsetCall::Sha256),
            2 => Call::Handset(HandsetCall::FirstDifference),
            3 => Call::Handset(HandsetCall::HistoryPaths),
            4 => Call::Handset(HandsetCall::CheckLookup),
            5 => Call::Handset(HandsetCall::CheckHistory),
            6 => Call::Handset(HandsetCall::CheckAudit),
            7 => Call::Handset(HandsetCall::Program),
            8 => Call::Tree(TreeCall::Root),
            9 => Call::Tree(TreeCall::Path),
            10 => Call::Server(ServerCall::Start),
            11 => Call::Server(ServerCall::Publish),
            12 => Call::Proof(ProofCall::Lookup),
            13 => Call::Proof(ProofCall::History),
            14 => Call::Audit,
            _ => return Err(Unreadable),
        })
    }
}
