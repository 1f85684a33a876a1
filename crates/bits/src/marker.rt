// The number of a version's marker, by the zeros above the version's top bit.
ghost use Rattle.std.specs.Prelude.{◌≡◌};
ghost use Rattle.paper.specs.Bits.{log2};

// "marker floor(log2 v)": how many bits of v stand below its top bit. No version is 0, and for 0 the answer is 0.
// By leading zeros: document 01's form for it (docs/DECISIONS.md, "Forms").
pub fn marker_of(v: u32) -> u32
    ensures { result ≡ log2 v }
{
    if v == 0 {
        return 0;
    }
    31 - v.leading_zeros()
}
