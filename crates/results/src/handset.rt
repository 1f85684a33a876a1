// What the three checkers answer.
ghost use Rattle.std.specs.Prelude.{◌≡◌, take, drop};
ghost use Rattle.paper.specs.Bytes.{number};
ghost use Rattle.results.specs.Results.{lookup_result, history_result, audit_result};

use crate::{Audit, History, Lookup};
use paper::{AcceptedLookup, AuditAnswer, HistoryAnswer, LookupAnswer};

// The byte that says how long the key is; a proof that ends before it was not accepted.
fn key_length(proof: &[u8]) -> usize
    ensures { result ≡ number (take 1 (drop 108 proof.now)) }
{
    if proof.len() <= 108 {
        return 0;
    }
    proof[108] as usize
}

pub fn lookup_result(answer: LookupAnswer, proof: &[u8]) -> Lookup
    ensures { result ≡ lookup_result answer proof.now }
{
    match answer {
        Ok(
            AcceptedLookup::Found {
                version,
                epoch,
                digests,
            },
        ) => Lookup {
            number: 0,
            version: version as u32,
            epoch,
            digests,
            key_start: 109,
            key_length: key_length(proof),
        },
        Ok(AcceptedLookup::NotRegistered { epoch, digests }) => Lookup {
            epoch,
            digests,
            ..Lookup::default()
        },
        Err(refusal) => Lookup {
            number: refusal as u32,
            ..Lookup::default()
        },
    }
}

impl From<HistoryAnswer> for History {
    ghost from_gives = { λ answer given. given ≡ history_result answer };

    fn from(answer: HistoryAnswer) -> History {
        match answer {
            Ok(accepted) => History {
                number: 0,
                versions: accepted.versions as u32,
                epoch: accepted.epoch,
                digests: accepted.digests,
            },
            Err(refusal) => History {
                number: refusal as u32,
                ..History::default()
            },
        }
    }
}

impl From<AuditAnswer> for Audit {
    ghost from_gives = { λ answer given. given ≡ audit_result answer };

    fn from(answer: AuditAnswer) -> Audit {
        match answer {
            Ok(accepted) => Audit {
                number: 0,
                old_epoch: accepted.old_epoch,
                new_epoch: accepted.new_epoch,
                digests: accepted.digests,
            },
            Err(refusal) => Audit {
                number: refusal as u32,
                ..Audit::default()
            },
        }
    }
}
