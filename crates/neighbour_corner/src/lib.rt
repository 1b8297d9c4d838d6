// The leaf at a corner of a node, beside one of its sides or diagonally beyond it (`sheet_corner_leaf`,
// `sheet_diagonal_leaf`).
#![tactic(auto)]

ghost use Rattle.std.specs.Prelude.{◌≡◌, ◌<◌};
ghost use Rattle.table.specs.Table.{nodes};
ghost use Rattle.table.specs.Nodes.{level_of};
ghost use Rattle.neighbour.specs.Search.{corner_at, Cornered};
ghost use Rattle.neighbour.specs.Neighbour.{leaf_beyond};
ghost use Rattle.neighbour.specs.Calls.{CornerLeaves, DiagonalLeaves};

use answer::{Outcome, Refusal};
use neighbour::Found;
use neighbour_find::{find, mirror, outcome};
use table::Sheet;
use table_node::{level_of, word_at};

// The leaf at a corner of a node's block, and its level: down by that quadrant as far as there are forks, a son link
// and a level at a time.
fn corner_of(sheet: &Sheet<'_>, node: usize, level: u32, quadrant: usize) -> Found
    requires { (node < nodes sheet.now.table.now) × (level ≡ level_of sheet.now.n sheet.now.table.now node)
        × (quadrant < 4) }
    ensures { result ≡ corner_at sheet.now.n sheet.now.table.now quadrant node }
{
    let table = sheet.table;
    let mut p = node;
    let mut its = level;
    while word_at(table, p, 5) == quad::FORK {
        p = word_at(table, p, 1 + quadrant);
        its -= 1;
    }
    Found {
        node: p,
        level: its,
    }
}

// The leaf that holds the pixel in that direction of p's corner, and its level: the corner stands at an end of that
// side, or in that diagonal. From the neighbour down by the mirrored corner.
fn leaf_beyond(sheet: &Sheet<'_>, p: usize, direction: usize, corner: usize) -> Option<Found>
    requires { Cornered sheet.now.n sheet.now.table.now p direction corner }
    ensures { result ≡ leaf_beyond sheet.now.n sheet.now.table.now p corner direction }
{
    let level = level_of(sheet, p);
    let found = find(sheet, p, level, direction)?;
    let quadrant = mirror(direction, corner);
    Some(corner_of(sheet, found.node, found.level, quadrant))
}

// The leaf just outside a side of a node, at the corner that stands at one end of it.
pub fn corner_leaf(n: u32, table: &[u32], node: u32, side: u32, corner: u32) -> Outcome
    ensures { CornerLeaves n table.now node side corner result }
{
    table_check::asked(n, table, node)?;
    if 3 < side {
        return Err(Refusal::BadDirection { given: side });
    }
    if 3 < corner {
        return Err(Refusal::BadDirection { given: corner });
    }
    if !quad::adj(side as usize, corner as usize) {
        return Err(Refusal::BadDirection { given: corner });
    }
    let sheet = Sheet { n, table };
    outcome(leaf_beyond(&sheet, node as usize, side as usize, corner as usize))
}

// The leaf diagonally beyond a corner of a node.
pub fn diagonal_leaf(n: u32, table: &[u32], node: u32, corner: u32) -> Outcome
    ensures { DiagonalLeaves n table.now node corner result }
{
    table_check::asked(n, table, node)?;
    if 3 < corner {
        return Err(Refusal::BadDirection { given: corner });
    }
    let sheet = Sheet { n, table };
    outcome(leaf_beyond(&sheet, node as usize, 4 + corner as usize, corner as usize))
}
