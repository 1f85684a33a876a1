// A batch of updates, each of 162 bytes: "a record without version and epoch". It is bytes and a number beside them, as the contracts
// that docs/ENTRIES names have it.
#![tactic(auto)]

ghost use Rattle.std.specs.Prelude.{◌≡◌, ℕ, suc, ◌+◌, ◌*◌, ◌≤◌, ◌<◌, length, drop};
ghost use Rattle.paper.specs.Layout.{in_layout, parse, times};
ghost use Rattle.paper.specs.Labelling.{plain};
ghost use Rattle.paper.specs.Table.{update_field};
ghost use Rattle.paper.specs.Publish.{once};
ghost use Rattle.ranges.specs.Part.{PartAt};
ghost use Rattle.batch.specs.Places.{update_at, updates_in, bears_from, Lies};

use names::is_name;
use ranges::same;
use record::filled_at;
use record_form::filled;

// The name of update i, as a part of the batch; `record::name_at` has a record's, whose size and layout are others.
pub fn name_in(s: &[u8], i: usize) -> &[u8]
    requires { Lies s.now i }
    ensures { PartAt s.entry (i * 162 + 1) (update_at s.now i).name result }
{
    filled_at(s, i * 162)
}

// Whether update i is in layout. Its opening is any bytes.
fn in_form(s: &[u8], i: usize) -> bool
    requires { suc i * 162 ≤ length s.now }
    ensures { result ≡ in_layout (update_field.read (drop (i * 162) s.now)) }
{
    let at = i * 162;
    if !filled(s, at) {
        return false;
    }
    if !filled(s, at + 65) {
        return false;
    }
    is_name(name_in(s, i))
}

// "an argument breaks the bounds or an update's layout": whether each of n updates is in layout.
pub fn in_layout(s: &[u8], n: usize) -> bool
    requires { length s.now ≡ n * 162 }
    ensures { result ≡ in_layout (parse (times n update_field) s.now) }
{
    (0..n).all(|i| in_form(s, i))
}

// Whether one of the updates behind update i has its name.
fn again(s: &[u8], n: usize, i: usize) -> bool
    requires { (i < n) × ((j : ℕ) → j < n → Lies s.now j) }
    ensures { result ≡ bears_from s.now n i (suc i) }
{
    let name = name_in(s, i);
    (i + 1..n).any(|j| same(name_in(s, j), name))
}

// "a name twice in a batch": whether none is.
pub fn no_name_twice(s: &[u8], n: usize) -> bool
    requires { (j : ℕ) → j < n → Lies s.now j }
    ensures { result ≡ once plain (updates_in n s.now) }
{
    !(0..n).any(|i| again(s, n, i))
}
