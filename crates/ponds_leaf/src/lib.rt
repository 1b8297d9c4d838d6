// A leaf, or four pixels under a fork, labelled in the walk.
#![tactic(auto)]

ghost use Rattle.std.specs.Prelude.{◌≡◌, true, ◌+◌, ◌*◌, ◌≤◌, ◌<◌, get_or};
ghost use Rattle.ponds_sets.specs.Lines.{across};
ghost use Rattle.table.specs.Table.{is_fork};
ghost use Rattle.ponds_sets.specs.Walk.{ToLeaf, Reaching, PastLeaf, Coming, Goes};
ghost use Rattle.ponds_sets.specs.Touch.{one_if_own, LabelsAs};

use ponds_join::touch;
use ponds_sides::{ACROSS, Lines, sides};
use table_node::word_at;

// 1 for a leaf that is its own label, else 0.
#[tactic(auto, unfolding(ponds_sets::specs::Touch::one_if_own))]
fn one_if_own(label: u32, p: usize) -> u32
    ensures { (result ≡ one_if_own label p) × (result ≤ 1) }
{
    (label as usize == p) as u32
}

// The place of a pixel, by rows that are as long as those of the widest sheet.
fn place(x: usize, y: usize) -> u32
    requires { (x < across) × (y < across) }
    ensures { (result ≡ across * y + x) × (result < across * across) }
{
    (ACROSS * y + x) as u32
}

// The label of leaf p, of which (x, y) is the top left pixel, from what the lines tell there.
fn label_at(words: &mut [u32], lines: &Lines, kind: usize, p: usize, x: usize, y: usize) -> u32
    requires { Reaching words.old lines.now kind p x y }
    ensures { LabelsAs words.old kind p (get_or lines.now x 0) (get_or lines.now (across + y) 0) (across * y + x) words.new
        result }
{
    touch(words, kind, p, lines.north(x), lines.west(y), place(x, y))
}

// A leaf of which (x, y) is the top left pixel gets its label, is joined with what lies north and west of it, and
// stands in the lines then. Gives 1 where it leads a set of its own, else 0.
#[inline(always)]
pub fn leaf(
    words: &mut [u32],
    lines: &mut Lines,
    kind: usize,
    p: usize,
    side: usize,
    x: usize,
    y: usize,
) -> u32
    requires { ToLeaf words.old lines.old kind p side x y }
    ensures { PastLeaf words.old lines.old kind p side x y
        words.new lines.new result }
{
    let label = label_at(words, lines, kind, p, x, y);
    sides(words, lines, kind, label, x, y, side);
    lines.fill(label, x, y, side);
    one_if_own(label, p)
}

// The four pixels of a fork of which (x, y) is the first, each with the labels of those before it; then the lines tell
// of the last row and column. Gives 0 where none leads a set of its own.
pub fn pixels(
    table: &[u32],
    words: &mut [u32],
    lines: &mut Lines,
    p: usize,
    x: usize,
    y: usize,
) -> u32
    requires { Coming table.now words.old lines.old p x y 1 × (is_fork table.now p ≡ true) }
    ensures { Goes table.now words.old lines.old p x y 1
        words.new lines.new result }
{
    let [nw, ne, sw, se] = table_node::four_sons(table, p);
    let place = place(x, y);
    let row = ACROSS as u32;
    let a = touch(
        words,
        word_at(table, nw, 5),
        nw,
        lines.north(x),
        lines.west(y),
        place,
    );
    let b = touch(
        words,
        word_at(table, ne, 5),
        ne,
        lines.north(x + 1),
        a,
        place + 1,
    );
    let c = touch(
        words,
        word_at(table, sw, 5),
        sw,
        a,
        lines.west(y + 1),
        place + row,
    );
    let d = touch(words, word_at(table, se, 5), se, b, c, place + row + 1);
    lines.fill_last(b, c, d, x, y);
    one_if_own(a, nw) + one_if_own(b, ne) + one_if_own(c, sw) + one_if_own(d, se)
}
