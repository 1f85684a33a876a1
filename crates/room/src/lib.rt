// "8 ROOM": whether a proof fits its output. It is a front of one size, and behind it keys and paths, or an audit's two lists.
#![tactic(auto)]

ghost use Rattle.std.specs.Prelude.{◌≡◌, ◌+◌, leb};

// Whether three parts fit, one behind the other; their sum may be past what a usize has.
pub fn has_room(room: usize, front: usize, first: usize, second: usize) -> bool
    ensures { result ≡ leb (front + first + second) room }
{
    front as u128 + first as u128 + second as u128 <= room as u128
}
