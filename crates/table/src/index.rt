// The index over names.
ghost use Rattle.std.specs.Prelude.{◌≡◌, suc, ◌<◌};
ghost use Rattle.record.specs.Places.{Stands};
ghost use Rattle.table.specs.Index.{linked, bucket_of, last_where, named, Own, Unlinked};

use ranges::same;
use record::name_at;

// The first records of a table: by a bucket the number of the last one in it, and by a record that of the last one before it in the
// same bucket, each as `linked` reads it.
#[derive(Drop)]
pub struct Index<'a> {
    pub records: &'a [u8],
    pub count: usize,
    pub first: [u16; 4096],
    pub next: [u16; 4096],
}

// The record that an entry says: 0 is none, and k + 1 is record k. An `Option<u16>` would take 4 bytes an entry.
fn linked(entry: u16) -> Option<usize>
    ensures { result ≡ linked entry }
{
    match entry {
        0 => None,
        n => Some(n as usize - 1),
    }
}

// The bucket of a name.
fn bucket(name: &[u8]) -> usize
    ensures { result ≡ bucket_of name.now }
{
    let mut h = 0usize;
    for b in name {
        h = (h * 31 + *b as usize) % 4096;
    }
    h
}

impl<'a> Index<'a> {
    // An index over no records yet.
    pub(crate) fn new(records: &'a [u8]) -> Index<'a>
        ensures { Own result × Unlinked 0 result × (result.records.now ≡ records.now) × (result.count ≡ 0) }
    {
        Index {
            records,
            count: 0,
            first: [0; 4096],
            next: [0; 4096],
        }
    }

    // The number of the last record that has the name: the records of its bucket, from the last one back.
    pub(crate) fn last_of(&self, name: &[u8]) -> Option<usize>
        requires { Own self.now }
        ensures { result ≡ last_where (named self.now.records.now name.now) self.now.count }
    {
        let mut at = linked(self.first[bucket(name)]);
        // a walk along links, by numbers: references from record to record would need the heap, which the project has not
        while let Some(k) = at {
            if same(name_at(self.records, k), name) {
                return Some(k);
            }
            at = linked(self.next[k]);
        }
        None
    }

    // Enters the next record.
    pub(crate) fn enter(&mut self)
        requires { Own self.old × Stands self.old.records.now self.old.count × (self.old.count < 4096) × Unlinked self.old.count self.old }
        ensures { Own self.new × Unlinked self.new.count self.new × (self.new.records.now ≡ self.old.records.now) × (self.new.count ≡ suc self.old.count) }
    {
        let i = self.count;
        let b = bucket(name_at(self.records, i));
        self.next[i] = self.first[b];
        self.first[b] = (i + 1) as u16;
        self.count = i + 1;
    }
}
