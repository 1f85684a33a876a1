// "Each proof begins "VKD", 16-bit version 1, kind 1 (1 lookup, 2 history, 3 audit), then the 100 bytes of a head after its 0x03."
ghost use Rattle.std.specs.Prelude.{◌≡◌, ◌*◌, ◌≤◌, length};
ghost use Rattle.paper.specs.Bytes.{pasted};
ghost use Rattle.paper.specs.Table.{previous_head};
ghost use Rattle.front.specs.Front.{front_bytes};

use ranges::{digest_at, put};
use words::{write16, write32};

// "Epoch 0 has 32 zero bytes as previous head"; "A previous head is read from the head table, and no other head is."
pub fn previous_head(heads: &[u8], epoch: u32) -> [u8; 32]
    requires { epoch * 32 ≤ length heads.now }
    ensures { result ≡ previous_head heads.now epoch }
{
    if epoch == 0 {
        return [0u8; 32];
    }
    digest_at(heads, ((epoch - 1) as usize) * 32)
}

// The 108 bytes at the start: header, head, and a lookup's version or a history's n. The kind is the header's byte, which `front_bytes`
// has for every byte.
pub fn write_front(
    out: &mut [u8],
    kind: u8,
    epoch: u32,
    previous: &[u8; 32],
    all: &[u8; 32],
    old: &[u8; 32],
    number: u16,
)
    requires { 108 ≤ length out.old }
    ensures { out.new ≡ pasted out.old 0 (front_bytes kind (record { epoch = epoch; previous = previous.now; all = all.now; old = old.now }) number) }
{
    let opens = [0x56u8, 0x4B, 0x44, 0, 1, kind];
    put(out, 0, &opens);
    write32(out, 6, epoch);
    put(out, 10, previous);
    put(out, 42, all);
    put(out, 74, old);
    write16(out, 106, number);
}
