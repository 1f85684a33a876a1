// What a handset calls: the three checkers, and SHA-256.
ghost use Rattle.std.specs.Prelude.{◌≡◌};
ghost use Rattle.fips.specs.Sha256 as F;
ghost use Rattle.paper.specs.Labelling.{plain};
ghost use Rattle.paper.specs.Lookup.{check_lookup};
ghost use Rattle.paper.specs.History.{check_history};
ghost use Rattle.paper.specs.Audit.{check_audit};
ghost use Rattle.results.specs.Results.{lookup_result, history_result, audit_result};

use results::{Audit, Digest, History, Lookup};

pub fn noonhaggle_check_lookup(head: &[u8], name: &[u8], proof: &[u8]) -> Lookup
    ensures { result ≡ lookup_result (check_lookup plain head.now name.now proof.now) proof.now }
{
    results::lookup_result(lookup::check_lookup(head, name, proof), proof)
}

pub fn noonhaggle_check_history(head: &[u8], name: &[u8], proof: &[u8]) -> History
    ensures { result ≡ history_result (check_history plain head.now name.now proof.now) }
{
    history::check_history(head, name, proof).into()
}

pub fn noonhaggle_check_audit(old_head: &[u8], new_head: &[u8], proof: &[u8]) -> Audit
    ensures { result ≡ audit_result (check_audit old_head.now new_head.now proof.now) }
{
    audit::check_audit(old_head, new_head, proof).into()
}

pub fn noonhaggle_sha256(bytes: &[u8]) -> Digest
    ensures { result ≡ record { bytes = F.sha256 bytes.now } }
{
    let digest = sha256::sha256(bytes);
    Digest { bytes: digest }
}
