// The walk that labels the black leaves.
#![tactic(auto)]

ghost use Rattle.std.specs.Prelude.{◌≡◌, true, length};
ghost use Rattle.table.specs.Table.{nodes, is_fork};
ghost use Rattle.ponds_sets.specs.Labelled.{Labelled};
ghost use Rattle.ponds_sets.specs.Walk.{Coming, Goes};
ghost use Rattle.ponds_sets.specs.Touch.{mark_of};

use ponds_join::{LEADING, first_nonzero};
use ponds_leaf::{leaf, pixels};
use ponds_sides::Lines;
use table::Sheet;

// The word of a fork above level 1: its mark where nothing under it leads a set of its own, else 0.
#[tactic(auto, unfolding(ponds_sets::specs::Touch::mark_of))]
fn mark(leaders: u32) -> u32
    ensures { result ≡ mark_of leaders }
{
    if leaders == 0 { LEADING } else { 0 }
}

// Goes through what is under a fork, of which (x, y) is the top left pixel: NW, NE, SW, SE, so that what lies north and
// west of each has been gone through before it. Gives 0 where no leaf under it leads a set of its own.
fn fork(
    table: &[u32],
    words: &mut [u32],
    lines: &mut Lines,
    p: usize,
    level: u32,
    x: usize,
    y: usize,
) -> u32
    requires { Coming table.now words.old lines.old p x y level × (is_fork table.now p ≡ true) }
    ensures { Goes table.now words.old lines.old p x y level
        words.new lines.new result }
{
    let half = level - 1;
    let side = quad::side(half) as usize;
    let sons = table_node::four_sons(table, p);
    let kinds = table_node::four_types(table, p);
    // A number, 0 for none, as the contract (`Goes`) speaks of it: it is picked without a branch.
    let mut leaders: u32 = 0;
    for q in 0..4 {
        let son = sons[q];
        let kind = kinds[q];
        let sx = x + q % 2 * side;
        let sy = y + q / 2 * side;
        let led = if kind == quad::FORK {
            if half == 1 {
                pixels(table, words, lines, son, sx, sy)
            } else {
                fork(&*table, words, lines, son, half, sx, sy)
            }
        } else {
            if half == 1 {
                leaf(words, lines, kind, son, 2, sx, sy)
            } else {
                leaf(words, lines, kind, son, side, sx, sy)
            }
        };
        leaders = first_nonzero(leaders, led);
    }
    words[p] = mark(leaders);
    leaders
}

// Labels the black leaves of a sheet whose root is a fork: a leader's word is its place, any other's leads to an
// earlier leaf of its set, and a fork above level 1 is marked where no leader lies under it.
pub fn lead(sheet: &Sheet<'_>, words: &mut [u32])
    requires { (length words.old ≡ nodes sheet.now.table.now) × (is_fork sheet.now.table.now 0 ≡ true) }
    ensures { Labelled sheet.now.n sheet.now.table.now words.new }
{
    words.fill(0);
    let mut lines = Lines::new();
    fork(sheet.table, words, &mut lines, 0, sheet.n, 0, 0);
}
