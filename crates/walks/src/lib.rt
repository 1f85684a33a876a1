// The paths of a lookup or history proof as they are taken, one behind the other, each for what is asked of it.
#![tactic(auto)]

ghost use Rattle.std.specs.Prelude.{◌≡◌, ◌+◌, ◌≤◌, length, IfOk};
ghost use Rattle.paper.specs.Shows.{root_at};
ghost use Rattle.plan.specs.Asked.{place_of};
ghost use Rattle.shown.specs.Form.{head_in};
ghost use Rattle.walks.specs.Walk.{stepped, Ahead};

use paper::Refusal;
use path::take;
use plan::Place;
use ranges::digest_at;
use shown::{Asked, met};

// The reader of a proof: the lent bytes and the name that they are read for, the place up to which paths have been taken, and the
// digests counted so far. It is made anew behind each path that is taken, so that it only goes forward.
#[derive(Clone, Copy)]
pub struct Reader<'a> {
    pub proof: &'a [u8],
    pub name: &'a [u8],
    pub at: usize,
    pub digests: u32,
}

impl<'a> Reader<'a> {
    // The reader behind the path that stands next, taken for what is asked of it, "4 before 5": its label, its m nodes and its end
    // are counted.
    pub fn take(self, asked: Asked) -> Result<Reader<'a>, Refusal>
        requires { Ahead 1 self }
        ensures is { result ≡ stepped asked self.entry }
        ensures counted { IfOk result (λ r. r.digests ≤ self.entry.digests + 258) }
    {
        let label = asked.place.label(self.name);
        let root = root_at(self.proof, asked.place);
        let taken = take(self.proof, self.at, label, root).ok_or(Refusal::Form)?;
        if !taken.matches {
            return Err(Refusal::Root);
        }
        if !met(taken.shows, asked) {
            return Err(Refusal::Rule);
        }
        Ok(Reader {
            at: taken.next,
            digests: self.digests + taken.nodes + 2,
            ..self
        })
    }
}

// The root of the tree that a place is in.
fn root_at(s: &[u8], place: Place) -> [u8; 32]
    requires { 106 ≤ length s.now }
    ensures { result ≡ root_at (head_in s.now) (place_of place) }
{
    match place {
        Place::InAll(_) | Place::AsMarker(_) => digest_at(s, 42),
        Place::InOld(_) => digest_at(s, 74),
    }
}
