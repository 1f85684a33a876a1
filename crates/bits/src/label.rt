// Bits of labels: the bit at a place, and the first place at which two labels differ.
ghost use Rattle.std.specs.Prelude.{◌≡◌, false, get_or, take};
ghost use Rattle.paper.specs.Bits.{bits_of, first_difference};

// "Bit 0 of a label is the top bit of its first byte." Past the end there is no bit, and the answer is false.
pub fn label_bit(label: &[u8], i: usize) -> bool
    ensures { result ≡ get_or (bits_of label.now) i false }
{
    let Some(byte) = label.get(i / 8) else {
        return false;
    };
    (*byte >> (7 - i % 8)) % 2 == 1
}

// "The first bit at which two labels differ is 0 to 255, or 256 for equal labels." The labels are the first 32 bytes
// of the slices. Of two that differ nowhere the shorter one's end is the answer.
// Nested loops, which leave by a label: document 01's form for it (docs/DECISIONS.md, "Forms").
pub fn first_difference(a: &[u8], b: &[u8]) -> usize
    ensures { result ≡ first_difference (take 32 a.now) (take 32 b.now) }
{
    let mut i = 0;
    'bytes: loop {
        if i == 32 || i == a.len() || i == b.len() {
            break 'bytes i * 8;
        }
        for k in 0..8 {
            let at = i * 8 + k;
            if label_bit(a, at) != label_bit(b, at) {
                break 'bytes at;
            }
        }
        i += 1;
    }
}
