// A path of a lookup or history proof, taken at its place in the lent bytes: the root that it gives for a label, and what its end
// shows.
#![tactic(auto)]

mod absence;
mod root;

ghost use Rattle.std.specs.Prelude.{◌≡◌, ◌≤◌, IfSome};
ghost use Rattle.path.specs.Taken.{taken};

use absence::shows;
use path_form::parse;
use root::root_of;

// "End 0 shows presence, the others absence", where the rules of absence hold.
#[derive(Clone, Copy)]
pub enum Shown {
    Present { commitment: [u8; 32], epoch: u32 },
    Absent,
    Neither,
}

// A path that was taken for a label under a root: how many nodes its steps are, whether it gives the root, what it shows, and the
// place behind it.
#[derive(Clone, Copy)]
pub struct Taken {
    pub nodes: u32,
    pub matches: bool,
    pub shows: Shown,
    pub next: usize,
}

// The path that stands in `s` from `at` on, taken for `label` in the tree with that root.
pub fn take(s: &[u8], at: usize, label: [u8; 32], root: [u8; 32]) -> Option<Taken>
    ensures is { result ≡ taken s.now at label root }
    ensures few { IfSome result (λ t. t.nodes ≤ 256) }
{
    let path = parse(s, at)?;
    let found = root_of(s, label, path);
    Some(Taken {
        nodes: path.count as u32,
        matches: found == root,
        shows: shows(s, label, path),
        next: path.next,
    })
}
