// The register in a lent slice of structs.
#![tactic(auto)]

ghost use Rattle.std.specs.Prelude.{◌≡◌, ◌<◌, ◌≤◌, length, get_or, set};
ghost use Rattle.base.specs.Tab.{overlay};
ghost use Rattle.ponds.specs.Entries.{entries};
ghost use Rattle.ponds_entry.specs.Gathered.{empty_pond, grown_of, Fitting, Numbers};

use ponds::Pond;
use table::{Block, Sheet};

// Stores entry i with one block more.
fn grow(reg: &mut [Pond], i: usize, b: Block)
    requires { (i < length reg.old) × Fitting (get_or reg.old i empty_pond) b }
    ensures { reg.new ≡ set reg.old i (grown_of (get_or reg.old i empty_pond) b) }
{
    reg[i] = ponds_entry::grown(reg[i], b);
}

// Writes the entries of ponds 1 to `count` from the nodes' numbers; what lies beyond them stays. Each begins empty, and
// then grows by its pond's blocks.
// It stays apart from `ponds_register::fill`, which has the block in hand: here it is climbed for (docs/DECISIONS.md).
pub fn fill(n: u32, table: &[u32], numbers: &[u32], reg: &mut [Pond], count: usize)
    requires { Numbers n table.now numbers.now count × (count ≤ length reg.old) }
    ensures { reg.new ≡ overlay (entries n table.now numbers.now count)
        reg.old }
{
    let sheet = Sheet { n, table };
    reg[..count].fill(ponds_entry::empty());
    for (p, number) in numbers.iter().enumerate() {
        if *number != 0 {
            let b = table_node::block_of(&sheet, p);
            grow(reg, *number as usize - 1, b);
        }
    }
}
