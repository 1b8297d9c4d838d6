// A node's neighbour in any of eight directions, by one climb and one descent (`sheet_neighbour`).
#![tactic(auto)]

ghost use Rattle.std.specs.Prelude.{◌≡◌, ◌<◌};
ghost use Rattle.quad.specs.Direction.{common_side_of};
ghost use Rattle.table.specs.Table.{nodes};
ghost use Rattle.table.specs.Nodes.{level_of};
ghost use Rattle.neighbour.specs.Search.{stay, way_to, onward_of, mirror_of, found_in, Sought, Ended, Descends, back_from};
ghost use Rattle.neighbour.specs.Search.{Small};
ghost use Rattle.neighbour.specs.Neighbour.{neighbour_found, outcome_of};
ghost use Rattle.neighbour.specs.Calls.{Neighbours};

use answer::{Outcome, Refusal};
use neighbour::{Climb, Found};
use table::Sheet;
use table_node::{level_of, son_type, word_at};

// The side that two quadrants share. Asked only where document 000's table defines it.
fn shared_side(quadrant: usize, corner: usize) -> usize
    requires { (quadrant < 4) × (corner < 4) × (common_side_of quadrant corner < 4) }
    ensures { result ≡ common_side_of quadrant corner }
{
    quad::common_side(quadrant, corner)
}

// In which direction from a quadrant's father the block that lies in that direction of the quadrant has its own father;
// none where that is the quadrant's father too.
fn onward(direction: usize, quadrant: usize) -> Option<usize>
    requires { (direction < stay) × (quadrant < 4) }
    ensures { result ≡ way_to (onward_of direction quadrant) }
{
    if direction < 4 {
        return quad::adj(direction, quadrant).then_some(direction);
    }
    let corner = direction - 4;
    if quadrant == quad::opquad(corner) {
        return None;
    }
    if quadrant == corner {
        return Some(direction);
    }
    Some(shared_side(quadrant, corner))
}

// Which quadrant of that father it is.
pub fn mirror(direction: usize, quadrant: usize) -> usize
    requires { (direction < stay) × (quadrant < 4) }
    ensures { result ≡ mirror_of direction quadrant }
{
    if direction < 4 {
        return quad::reflect(direction, quadrant);
    }
    quad::opquad(quadrant)
}

// Up from p, a father link and a level at a time, until the way leads no further than the node itself; none where it
// leads off the sheet.
fn ascend(sheet: &Sheet<'_>, p: usize, level: u32, direction: usize) -> Option<Climb>
    requires { Sought sheet.now.n sheet.now.table.now p level direction × (direction < stay) }
    ensures { Ended sheet.now.n sheet.now.table.now p level direction result }
{
    let table = sheet.table;
    let mut node = p;
    let mut above = level;
    let mut way = Some(direction);
    let mut moves = 0;
    while let Some(ahead) = way {
        if node == 0 {
            return None;
        }
        let quadrant = son_type(table, node);
        moves = 4 * moves + mirror(ahead, quadrant);
        way = onward(ahead, quadrant);
        node = word_at(table, node, 0);
        above += 1;
    }
    Some(Climb {
        node,
        level: above,
        moves,
    })
}

// Back down from where a climb ended, a son link and a level at a time, to that level or the leaf in which the block
// lies.
// It follows links: `for below in (level..its).rev()` would stop at a leaf of level `below + 1`, and is no plainer.
fn descend(sheet: &Sheet<'_>, from: Climb, level: u32) -> Found
    requires { Descends sheet.now.n sheet.now.table.now from level }
    ensures { Some result ≡ found_in sheet.now.n sheet.now.table.now level (back_from sheet.now.n sheet.now.table.now from level) }
{
    let table = sheet.table;
    let mut node = from.node;
    let mut its = from.level;
    let mut moves = from.moves;
    while level < its {
        if word_at(table, node, 5) != quad::FORK {
            return Found { node, level: its };
        }
        node = word_at(table, node, 1 + moves % 4);
        moves = moves / 4;
        its -= 1;
    }
    Found { node, level: its }
}

// The neighbour of p and the neighbour's level, from p and p's level.
pub fn find(sheet: &Sheet<'_>, p: usize, level: u32, direction: usize) -> Option<Found>
    requires { (p < nodes sheet.now.table.now) × (level ≡ level_of sheet.now.n sheet.now.table.now p)
        × (direction < stay) }
    ensures { result ≡ neighbour_found sheet.now.n sheet.now.table.now p direction }
{
    let top = ascend(sheet, p, level, direction)?;
    Some(descend(sheet, top, level))
}

// The outcome of a search: the node with its level beside it, or code 20.
pub fn outcome(found: Option<Found>) -> Outcome
    requires { Small found }
    ensures { result ≡ outcome_of found }
{
    let found = found.ok_or(Refusal::NoBlock)?;
    Ok(answer::with_level(found.node as u32, found.level))
}

// The neighbour of a node in a direction: the smallest node, at least as large, that contains the block of its size
// there. It starts from the node's own level, for which it climbs to the root, since its caller gives none; so do the
// two calls below.
pub fn neighbour(n: u32, table: &[u32], node: u32, direction: u32) -> Outcome
    ensures { Neighbours n table.now node direction result }
{
    table_check::asked(n, table, node)?;
    if 7 < direction {
        return Err(Refusal::BadDirection { given: direction });
    }
    let sheet = Sheet { n, table };
    let level = level_of(&sheet, node as usize);
    outcome(find(&sheet, node as usize, level, direction as usize))
}
