// Prefixes of labels, cut by masks: "prefix 32 (bits past the length zero)".
ghost use Rattle.std.specs.Prelude.{◌≡◌, ◌<◌, take};
ghost use Rattle.paper.specs.Bits.{to_bits, from_bits, bits_of, pack};

// The first n bits of a byte, the rest zero.
fn kept(byte: u8, n: usize) -> u8
    requires { n < 8 }
    ensures { result ≡ from_bits 8 (take n (to_bits 8 byte)) }
{
    byte & !(0xFF >> n)
}

// The first n bits of a label in 32 bytes, zeros past them and past the label's end.
pub fn prefix_of(label: &[u8], n: usize) -> [u8; 32]
    ensures { result ≡ pack 32 (take n (bits_of label.now)) }
{
    let mut out = [0u8; 32];
    let whole = label.len().min(32).min(n / 8);
    out[..whole].copy_from_slice(&label[..whole]);
    if whole < label.len() && whole < 32 {
        out[whole] = kept(label[whole], n % 8);
    }
    out
}
