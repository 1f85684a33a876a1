// The paths of a lookup or history proof, out of the two trees of an epoch: they are measured before anything is written, since the
// proof's whole length is tested against the output, and then written one behind the other.
#![tactic(auto)]

mod sizes;
mod write;

ghost use Rattle.std.specs.Prelude.{◌≡◌};
ghost use Rattle.paths.specs.Paths.{tree_for};

use forest::Trees;
use plan::Place;
pub use sizes::measure_paths;
use tree::StoredTree;
pub use write::write_paths;

// The tree of a place.
fn tree_of<'a>(trees: &'a Trees<'a>, place: Place) -> &'a StoredTree<'a>
    ensures { result.now ≡ tree_for trees.now place }
{
    match place {
        Place::InAll(_) | Place::AsMarker(_) => &trees.all,
        Place::InOld(_) => &trees.old,
    }
}
