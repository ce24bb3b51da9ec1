// A summary as bytes.
ghost use Rattle.std.specs.Prelude.{◌≡◌, ◌≤◌, length};
ghost use Rattle.pattern.specs.Bytes.{overwrite};
ghost use Rattle.summary.specs.Summary.{summary_size};
ghost use Rattle.summary.specs.Packing.{Capped, packed_bytes};

use super::packed::Packed;
use stores::put;

// The 36 bytes of a summary; those after them stay.
pub fn write(m: Packed, out: &mut [u8])
    requires capped { Capped m }
    requires room { summary_size ≤ length out.old }
    ensures { out.new ≡ overwrite (packed_bytes m) out.old }
{
    let longest = put(out, 0, &(m.shortest as u16).to_le_bytes());
    let mut at = put(out, longest, &(m.longest as u16).to_le_bytes());
    for word in m.first {
        at = put(out, at, &word.to_le_bytes());
    }
}
