// The handset's audit checker: whether the step from one head to the next only added leaves of its own epoch. It takes
// the lent bytes as they are: after the layout of the whole proof every field is read at its place.
//
// Places: the opening bytes at 0; the old head's opening at 6 and the new head's at 106, each with its epoch, its
// previous head 4 further, the root of *all* 36 further and the root of *old* 68 further; the list of *all* at 206.
#![tactic(auto)]

ghost use Rattle.std.specs.Prelude.{◌≡◌, ◌+◌, ◌≤◌, length};
ghost use Rattle.paper.specs.Audit.{check_audit};
ghost use Rattle.audit_form.specs.Places.{behind_at, audit_at, Listed, Laid};
ghost use Rattle.audit.specs.Tests.{checked, head_tests, tests_at, digests_at, old_answer, lists_answer};

use audit_form::in_layout;
use audit_root::root;
use audit_rules::list_rules;
use heads::head_at;
use paper::{AcceptedAudit, AuditAnswer, Refusal, Which};
use ranges::{digest_at, same};
use words::read32;

// The old head, the new head, and what joins them: "The new epoch is the old plus one (nothing follows the largest), its
// previous head is the old head". How many digests the tests took, or the refusal of the first that fails.
fn check_heads(old_head: &[u8], new_head: &[u8], proof: &[u8]) -> Result<u32, Refusal>
    requires { 206 ≤ length proof.now }
    ensures { result ≡ checked 2 (head_tests old_head.now new_head.now (audit_at proof.now)) }
{
    if !same(&head_at(proof, 6), old_head) {
        return Err(Refusal::Head);
    }
    if !same(&head_at(proof, 106), new_head) {
        return Err(Refusal::Head);
    }
    if read32(proof, 106) as u64 != read32(proof, 6) as u64 + 1 {
        return Err(Refusal::Rule);
    }
    if !same(&digest_at(proof, 110), old_head) {
        return Err(Refusal::Rule);
    }
    Ok(2)
}

// A list of n records: its rules, its old root, its new root. The roots are compared with those of the two heads.
fn check_list(proof: &[u8], at: usize, n: usize, which: Which, roots: usize) -> Result<u32, Refusal>
    requires { (206 ≤ length proof.now) × (roots ≤ 74) × Listed proof.now at n }
    ensures { result ≡ checked (digests_at proof.now at n) (tests_at proof.now which at n roots) }
{
    if !list_rules(proof, at, n, which, read32(proof, 6), read32(proof, 106)) {
        return Err(Refusal::Rule);
    }
    let old = root(proof, at, n, false);
    if !same(&old.digest, &digest_at(proof, roots)) {
        return Err(Refusal::Root);
    }
    let new = root(proof, at, n, true);
    if !same(&new.digest, &digest_at(proof, roots + 100)) {
        return Err(Refusal::Root);
    }
    Ok(old.count + new.count)
}

// The list of *old*, at `at`, when all before it has passed and took so many digests: at most 65,544, two for the heads
// and four for each record of *all* and six for its roots and their empty sides.
fn check_old(proof: &[u8], at: usize, digests: u32) -> AuditAnswer
    requires { Laid proof.now × (at ≡ behind_at proof.now 206) × (digests ≤ 65544) }
    ensures { result ≡ old_answer (audit_at proof.now) digests }
{
    let n = read32(proof, at) as usize;
    let more = check_list(proof, at + 4, n, Which::OfOld, 74)?;
    Ok(AcceptedAudit {
        old_epoch: read32(proof, 6),
        new_epoch: read32(proof, 106),
        digests: digests + more,
    })
}

// Both lists, when the heads have passed and took so many digests.
fn check_lists(proof: &[u8], digests: u32) -> AuditAnswer
    requires { Laid proof.now × (digests ≤ 2) }
    ensures { result ≡ lists_answer (audit_at proof.now) digests }
{
    let n = read32(proof, 206) as usize;
    let more = check_list(proof, 210, n, Which::OfAll, 42)?;
    check_old(proof, 210 + n * 99, digests + more)
}

// An audit proof against the head that the handset has and the one that it is shown.
pub fn check_audit(old_head: &[u8], new_head: &[u8], proof: &[u8]) -> AuditAnswer
    ensures { result ≡ check_audit old_head.now new_head.now proof.now }
{
    if old_head.len() != 32 {
        return Err(Refusal::Input);
    }
    if new_head.len() != 32 {
        return Err(Refusal::Input);
    }
    if !in_layout(proof) {
        return Err(Refusal::Form);
    }
    let digests = check_heads(old_head, new_head, proof)?;
    check_lists(proof, digests)
}
