// Every leaf's distance: a pass from the root down hands each fork its eight neighbours (`sheet_distance`).
#![tactic(auto)]

ghost use Rattle.std.specs.Prelude.{◌≡◌, true, false, length, ◌+◌, ◌*◌, ◌^◌, ◌<◌, ◌≤◌, All, eqb};
ghost use Rattle.std.specs.List.{list_any};
ghost use Rattle.quad.specs.Numbers.{white, top_level};
ghost use Rattle.table.specs.Table.{nodes, son, node_type, is_fork};
ghost use Rattle.neighbour.specs.Search.{stay};
ghost use Rattle.distance.specs.Calls.{Distances};
ghost use Rattle.distance.specs.Distance.{plain_outside, distance_at, distances_of};
ghost use Rattle.distance_seek.specs.Around.{least_around, AllBeside};
ghost use Rattle.distance_fill.specs.Handed.{Land, Fork, Handed, Fills};

use answer::Outcome;
use distance_seek::beside;
use neighbour_around::of_son;
use table::Sheet;
use table_node::word_at;

// The mark where no pixel is white.
const MARK: u32 = quad::NONE as u32;

// Whether one of eight nodes is a white leaf.
fn some_white(table: &[u32], near: &[u32; 8]) -> bool
    requires { All (λ w. w < nodes table.now) near.now }
    ensures { result ≡ list_any (λ w. eqb (node_type table.now w) white) near.now }
{
    near.iter()
        .any(|node| word_at(table, *node as usize, 5) == 0)
}

// The least offset of a white pixel in the eight nodes around a block, or one less than the side, where there is none
// below it. A white leaf tells at once, before anything is searched; and none is below 0.
fn around(table: &[u32], level: u32, near: &[u32; 8]) -> u32
    requires { (level ≤ top_level) × AllBeside table.now level near.now }
    ensures { result ≡ least_around table.now level near.now stay }
{
    if some_white(table, near) {
        return 0;
    }
    let mut best = quad::side(level) - 1;
    for (direction, &node) in near.iter().enumerate() {
        if best == 0 {
            return best;
        }
        best = beside(table, node, level, direction, best);
    }
    best
}

// In half pixels, from the centre of a leaf of that side to the near edge of a pixel at that offset.
fn to_edge(side: u32, offset: u32) -> u32
    requires { (side ≤ 2 ^ top_level) × (offset < 2 ^ top_level) }
    ensures { result ≡ side + 2 * offset }
{
    side + 2 * offset
}

// The distance of the leaf that fork p has in a quadrant, its level given and the eight nodes around p.
fn leaf_distance(
    n: u32,
    table: &[u32],
    p: usize,
    quadrant: usize,
    level: u32,
    near: &[u32; 8],
) -> u32
    requires { Handed n table.now p (level + 1) near.now × (quadrant < 4)
        × (is_fork table.now (son table.now p quadrant) ≡ false) }
    ensures { result ≡ distance_at plain_outside n table.now (son table.now p quadrant) }
{
    let leaf = word_at(table, p, 1 + quadrant);
    if word_at(table, leaf, 5) == 0 {
        return 0;
    }
    let mut own: [u32; 8] = [0; 8];
    of_son(table, p, quadrant, near, &mut own);
    to_edge(quad::side(level), around(table, level, &own))
}

// Writes the distance of a fork of four pixels and of its sons: a black pixel has a white brother. The words are the
// caller's, one for each node; the passes hand table and words on as slices, which stay in registers (bench/SPEED.md).
fn four_pixels(n: u32, table: &[u32], p: usize, out: &mut [u32])
    requires { Fork n table.now p 1 × (length out.old ≡ nodes table.now) }
    ensures { Fills n table.now out.old out.new 1 p }
{
    out[p] = 0;
    for q in 0..4 {
        let pixel = word_at(table, p, 1 + q);
        out[pixel] = table[6 * pixel + 5];
    }
}

// Writes the distances of the fork that fork p has in a quadrant, its level given and the eight nodes around p, and of
// all below it. Around pixels nothing is searched.
#[cycle(below_sons)]
fn below(
    n: u32,
    table: &[u32],
    p: usize,
    quadrant: usize,
    level: u32,
    near: &[u32; 8],
    out: &mut [u32],
)
    requires { Handed n table.now p (level + 1) near.now × (quadrant < 4)
        × (is_fork table.now (son table.now p quadrant) ≡ true) × (length out.old ≡ nodes table.now) }
    ensures { Fills n table.now out.old out.new level
        (son table.now p quadrant) }
{
    let fork = word_at(table, p, 1 + quadrant);
    if level == 1 {
        four_pixels(n, table, fork, out);
        return;
    }
    let mut own: [u32; 8] = [0; 8];
    of_son(table, p, quadrant, near, &mut own);
    sons(n, &*table, fork, level, &own, out);
}

// Writes the distances of a fork and of all below it, son by son, given the eight nodes around it.
#[cycle(below_sons)]
fn sons(n: u32, table: &[u32], p: usize, level: u32, near: &[u32; 8], out: &mut [u32])
    requires { Handed n table.now p level near.now × (length out.old ≡ nodes table.now) }
    ensures { Fills n table.now out.old out.new level p }
{
    out[p] = 0;
    let half = level - 1;
    for quadrant in 0..4 {
        let son = word_at(table, p, 1 + quadrant);
        if word_at(table, son, 5) == quad::FORK {
            below(n, table, p, quadrant, half, near, out);
        } else {
            out[son] = leaf_distance(n, table, p, quadrant, half, near);
        }
    }
}

// The leaf that stands for all that is off the sheet: a black one, since the outside counts as black; where none is
// black, the last node, which is no fork.
fn outside(sheet: &Sheet<'_>) -> u32
    ensures { Land sheet.now.table.now result }
{
    let table = sheet.table;
    let last = table_node::node_count(table) - 1;
    for p in 0..last {
        if word_at(table, p, 5) == quad::BLACK {
            return p as u32;
        }
    }
    last as u32
}

// Writes the distance of every node. A black root is the whole sheet: nothing is white.
fn fill(sheet: &Sheet<'_>, out: &mut [u32])
    requires { length out.old ≡ nodes sheet.now.table.now }
    ensures { out.new ≡ distances_of plain_outside sheet.now.n sheet.now.table.now }
{
    let n = sheet.n;
    let table = sheet.table;
    let kind = word_at(table, 0, 5);
    if kind == quad::FORK {
        let near: [u32; 8] = [outside(sheet); 8];
        sons(n, table, 0, n, &near, out);
        return;
    }
    out[0] = if kind == 0 { 0 } else { MARK };
}

// The distance of every node, for any level, words and slice: the slice has one word for each node, and on a refusal it
// is as it was.
pub fn distances(n: u32, table: &[u32], out: &mut [u32]) -> Outcome
    ensures { Distances n table.now out.old result out.new }
{
    table_check::each_node(n, table, out.len())?;
    let sheet = Sheet { n, table };
    fill(&sheet, out);
    Ok(0)
}
