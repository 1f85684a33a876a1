// The bounds of what a server is lent: how many bytes a table, a batch and a row of leaves may have.
#![tactic(auto)]

ghost use Rattle.std.specs.Prelude.{◌≡◌, ◌<◌, ◌/◌, ◌%◌, ◌&&◌, eqb, leb, length};
ghost use Rattle.paper.specs.Table.{records_within, heads_within};
ghost use Rattle.paper.specs.Publish.{batch_within};
ghost use Rattle.paper.specs.Level.{entries_within};

// Whether the bytes are whole parts of `size` bytes each, `least` to `most` of them.
fn within(bytes: &[u8], size: usize, least: usize, most: usize) -> bool
    requires { 0 < size }
    ensures { result ≡ (eqb (length bytes.now % size) 0
        && (leb least (length bytes.now / size) && leb (length bytes.now / size) most)) }
{
    bytes.len() % size == 0 && (least..=most).contains(&(bytes.len() / size))
}

// "record table | a multiple of 168 bytes, at most 4,096 records"
pub fn records_within(records: &[u8]) -> bool
    ensures { result ≡ records_within records.now }
{
    within(records, 168, 0, 4096)
}

// "head table | a multiple of 32 bytes, 1 to 65,536 heads"
pub fn heads_within(heads: &[u8]) -> bool
    ensures { result ≡ heads_within heads.now }
{
    within(heads, 32, 1, 65_536)
}

// "batch | 0 to 256 updates"
pub fn batch_within(batch: &[u8]) -> bool
    ensures { result ≡ batch_within batch.now }
{
    within(batch, 162, 0, 256)
}

// "label 32, commitment 32, epoch 4" for each leaf. The bound is ours: as many as 4,096 records can give a tree.
pub fn entries_within(entries: &[u8]) -> bool
    ensures { result ≡ entries_within entries.now }
{
    within(entries, 68, 0, 8192)
}
