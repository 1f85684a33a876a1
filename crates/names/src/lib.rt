// The bounds of a name.
#![tactic(auto)]

ghost use Rattle.std.specs.Prelude.{◌≡◌};
ghost use Rattle.paper.specs.Fields.{is_name};

// "name | 1 to 64 bytes, each 0x21 to 0x7E"
pub fn is_name(name: &[u8]) -> bool
    ensures { result ≡ is_name name.now }
{
    (1..=64).contains(&name.len()) && name.iter().all(|b| (0x21..=0x7E).contains(b))
}
