// The proof's bytes: "VKD", two heads, two lists. They fit, which was tested before. The old head is written last: its roots are those
// that the lists build without their new leaves.
ghost use Rattle.std.specs.Prelude.{◌≡◌, true, ◌+◌, ◌*◌, ◌≤◌, length};
ghost use Rattle.paper.specs.Bytes.{pasted};
ghost use Rattle.paper.specs.Fields.{head_field};
ghost use Rattle.paper.specs.Tree.{root_digest};
ghost use Rattle.paper.specs.Audit.{olds, in_order};
ghost use Rattle.leaf_row.specs.Row.{as_nodes};
ghost use Rattle.audit_form.specs.Places.{count_at, records_at, Listed};
ghost use Rattle.lay_audit.specs.Audited.{head_with, new_with, bytes_with, NewLaid, Step, ListableLent};

use front::previous_head;
use leaf_row::are_leaves;
use ranges::put;
use subtrees::write_list;
use tree::StoredTree;
use words::{read32, write32};

// "the 100 bytes of a head after its 0x03", at `at`. "A previous head is read from the head table, and no other head is."
fn write_head(heads: &[u8], epoch: u32, all: &[u8; 32], old: &[u8; 32], out: &mut [u8], at: usize)
    requires { (epoch * 32 ≤ length heads.now) × (at + 100 ≤ length out.old) }
    ensures { out.new ≡ pasted out.old at (head_field.bytes (head_with heads.now epoch all.now old.now)) }
{
    let previous = previous_head(heads, epoch);
    write32(out, at, epoch);
    put(out, at + 4, &previous);
    put(out, at + 36, all);
    put(out, at + 68, old);
}

// Behind the old head: "a second head opening (the new one), then for *all* and for *old* a count (4) and records". The answer is the
// place of the second list.
fn lay_new(
    heads: &[u8],
    epoch: u32,
    all: &StoredTree<'_>,
    old: &StoredTree<'_>,
    out: &mut [u8],
) -> usize
    requires { Step heads.now epoch × ListableLent all.now × ListableLent old.now × (106 + length (new_with heads.now epoch (as_nodes all.now.leaves.now) (as_nodes old.now.leaves.now)) ≤ length out.old) }
    ensures { NewLaid heads.now epoch (as_nodes all.now.leaves.now) (as_nodes old.now.leaves.now) out.old out.new result }
{
    write_head(heads, epoch, &all.root(), &old.root(), out, 106);
    let next = write_list(all, epoch, out, 206);
    write_list(old, epoch, out, next);
    next
}

// "Kinds 0 and 1 build the old root": of the list at `at`.
fn root_before(s: &[u8], at: usize) -> [u8; 32]
    requires { Listed s.now (at + 4) (count_at s.now at) × (in_order (records_at s.now (at + 4) (count_at s.now at)) ≡ true) }
    ensures { result ≡ root_digest (olds (records_at s.now (at + 4) (count_at s.now at))) }
{
    let count = read32(s, at) as usize;
    audit_root::root(s, at + 4, count, false).digest
}

// "Each proof begins "VKD", 16-bit version 1, kind 1 (.. 3 audit), then the 100 bytes of a head".
pub(crate) fn lay(
    heads: &[u8],
    epoch: u32,
    all: &StoredTree<'_>,
    old: &StoredTree<'_>,
    out: &mut [u8],
)
    requires { Step heads.now epoch × ListableLent all.now × ListableLent old.now × (length (bytes_with heads.now epoch (as_nodes all.now.leaves.now) (as_nodes old.now.leaves.now)) ≤ length out.old) }
    ensures { out.new ≡ pasted out.old 0 (bytes_with heads.now epoch (as_nodes all.now.leaves.now) (as_nodes old.now.leaves.now)) }
{
    are_leaves(all.leaves);
    are_leaves(old.leaves);
    let next = lay_new(heads, epoch, all, old, out);
    let all_before = root_before(out, 206);
    let old_before = root_before(out, next);
    let opens = [0x56u8, 0x4B, 0x44, 0, 1, 3];
    put(out, 0, &opens);
    write_head(heads, epoch - 1, &all_before, &old_before, out, 6);
}
