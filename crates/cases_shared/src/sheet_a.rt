// The table of document 01's sheet A, in preorder numbers and in others.
ghost use Rattle.std.specs.Prelude.{◌≡◌, length};

use crate::say::NONE;
use crate::tables::NodeTable;

// A node to a line: father, NW, NE, SW, SE, type.
static PREORDER: [[u32; 6]; 9] = [
    [NONE, 1, 2, 7, 8, 2],
    [0, NONE, NONE, NONE, NONE, 1],
    [0, 3, 4, 5, 6, 2],
    [2, NONE, NONE, NONE, NONE, 0],
    [2, NONE, NONE, NONE, NONE, 0],
    [2, NONE, NONE, NONE, NONE, 0],
    [2, NONE, NONE, NONE, NONE, 1],
    [0, NONE, NONE, NONE, NONE, 0],
    [0, NONE, NONE, NONE, NONE, 0],
];

static RENUMBERED: [[u32; 6]; 9] = [
    [NONE, 8, 1, 3, 2, 2],
    [0, 7, 4, 6, 5, 2],
    [0, NONE, NONE, NONE, NONE, 0],
    [0, NONE, NONE, NONE, NONE, 0],
    [1, NONE, NONE, NONE, NONE, 0],
    [1, NONE, NONE, NONE, NONE, 1],
    [1, NONE, NONE, NONE, NONE, 0],
    [1, NONE, NONE, NONE, NONE, 0],
    [0, NONE, NONE, NONE, NONE, 1],
];

// The sheet in preorder, and in other numbers.
pub fn preorder() -> NodeTable<'static>
    ensures { 54 ≡ length result.table.now }
{
    of_nodes(&PREORDER)
}

pub fn renumbered() -> NodeTable<'static>
    ensures { 54 ≡ length result.table.now }
{
    of_nodes(&RENUMBERED)
}

fn of_nodes(nodes: &[[u32; 6]; 9]) -> NodeTable<'_>
    ensures { 54 ≡ length result.table.now }
{
    NodeTable {
        n: 2,
        table: nodes.as_flattened(),
    }
}
