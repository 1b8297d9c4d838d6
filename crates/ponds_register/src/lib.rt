// The register in words: every leaf under the root is entered, each with its block.
#![tactic(auto)]

ghost use Rattle.std.specs.Prelude.{◌≡◌, true, length, replicate, ◌*◌, ◌≤◌};
ghost use Rattle.base.specs.Tab.{overlay};
ghost use Rattle.table.specs.Table.{is_fork};
ghost use Rattle.ponds.specs.Entries.{entries, words_of};
ghost use Rattle.ponds_entry.specs.Gathered.{empty_pond, Numbers};
ghost use Rattle.ponds_entry.specs.Under.{Entering, Entered};

use ponds_entry::{empty, part, put_entry};
use ponds_pixels::{pass, pass_pixels};
use table::Block;
use table_node::word_at;

// Adds the leaves under a fork, whose block is given, to the entries of their numbers. A fork of four pixels is done in
// its father's loop.
fn pass_fork(table: &[u32], numbers: &[u32], reg: &mut [u32], p: usize, b: Block)
    requires { Entering table.now numbers.now p b reg.old × (is_fork table.now p ≡ true) }
    ensures { Entered table.now numbers.now p b reg.old reg.new }
{
    let sons = table_node::four_sons(table, p);
    let kinds = table_node::four_types(table, p);
    for q in 0..4 {
        let son = sons[q];
        let kind = kinds[q];
        let its = part(b, q);
        if kind == quad::FORK {
            if its.level == 1 {
                pass_pixels(table, numbers, reg, son, its.column, its.row);
            } else {
                pass_fork(&*table, &*numbers, reg, son, its);
            }
        } else {
            pass(numbers, reg, son, its);
        }
    }
}

// Writes `count` entries of ponds that have no pixel yet.
fn clear(reg: &mut [u32], count: usize)
    requires { 5 * count ≤ length reg.old }
    ensures { reg.new ≡ overlay (words_of (replicate count empty_pond)) reg.old }
{
    for i in 0..count {
        put_entry(reg, i, empty());
    }
}

// Writes the entries of ponds 1 to `count` from the nodes' numbers; what lies beyond them stays. Leaves are passed from
// the root down, each with its block.
// It stays apart from `ponds_entries::fill`, which climbs for each node's block: here it is in hand (docs/DECISIONS.md).
pub fn fill(n: u32, table: &[u32], numbers: &[u32], reg: &mut [u32], count: usize)
    requires { Numbers n table.now numbers.now count × (5 * count ≤ length reg.old) }
    ensures { reg.new ≡ overlay (words_of (entries n table.now numbers.now count))
        reg.old }
{
    clear(reg, count);
    let sheet = Block {
        column: 0,
        row: 0,
        level: n,
    };
    if word_at(table, 0, 5) == quad::FORK {
        pass_fork(table, numbers, reg, 0, sheet);
    } else {
        pass(numbers, reg, 0, sheet);
    }
}
