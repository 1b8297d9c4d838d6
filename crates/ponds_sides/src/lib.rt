// A leaf joined with all that lies along its sides.
#![tactic(auto)]

ghost use Rattle.std.specs.Prelude.{◌≡◌, ◌+◌, ◌*◌, ◌≤◌, ◌<◌, true, List, ℕ, ◌++◌, get_or, replicate, length, sum_by};
ghost use Rattle.quad.specs.Numbers.{black};
ghost use Rattle.ponds_sets.specs.Lines.{across};
ghost use Rattle.ponds_sets.specs.Walk.{Shore, Shores, Quiet, Sides, LinesFilled, written};
ghost use Rattle.ponds_sets.specs.Touch.{one_if_other};

use ponds_join::{apart, next};
use std::marker::Model;

// A line has a word for each column, or row, of the widest sheet.
pub const ACROSS: usize = 128;

// The two lines of the walk: the label last met in each column, and in each row. They tell what lies north and west of
// the next block. To contracts they are one list, the columns' words and then the rows'.
#[derive(Drop)]
pub struct Lines {
    pub columns: [u32; ACROSS],
    pub rows: [u32; ACROSS],
}

impl Model for Lines {
    ghost Value = { List ℕ };

    ghost view = { λ l. l.columns ++ l.rows };
}

impl Lines {
    // The lines before the walk: nothing has been met.
    pub fn new() -> Lines
        ensures { result ≡ replicate (2 * across) 0 }
    {
        Lines {
            columns: [0; ACROSS],
            rows: [0; ACROSS],
        }
    }

    // The label north of the next block in that column.
    pub fn north(&self, column: usize) -> u32
        requires { column < across }
        ensures { result ≡ get_or self.now column 0 }
    {
        self.columns[column]
    }

    // The label west of the next block in that row.
    pub fn west(&self, row: usize) -> u32
        requires { row < across }
        ensures { result ≡ get_or self.now (across + row) 0 }
    {
        self.rows[row]
    }

    // Writes a label in the columns and the rows of a block. A slice's `fill` writes its last word by itself, so seven of
    // eight one by one: sparse sheets took a fifth longer.
    pub fn fill(&mut self, label: u32, x: usize, y: usize, side: usize)
        requires { (x + side ≤ across) × (y + side ≤ across) }
        ensures { LinesFilled self.old label x y side self.new }
    {
        for i in 0..side {
            self.columns[x + i] = label;
            self.rows[y + i] = label;
        }
    }

    // Writes the labels of a block of four pixels: of its last row, SW and SE, in its columns, and of its last column, NE
    // and SE, in its rows.
    pub fn fill_last(&mut self, ne: u32, sw: u32, se: u32, x: usize, y: usize)
        requires { (x + 2 ≤ across) × (y + 2 ≤ across) }
        ensures { self.new ≡ written self.old x y ne sw se }
    {
        self.columns[x] = sw;
        self.columns[x + 1] = se;
        self.rows[y] = ne;
        self.rows[y + 1] = se;
    }
}

impl Lines {
    // Whether no word along the sides of a block is another label than that.
    fn quiet(&self, label: u32, x: usize, y: usize, side: usize) -> bool
        requires { (x + side ≤ across) × (y + side ≤ across) }
        ensures { result ≡ true → Quiet self.now label x side 0 × Quiet self.now label (across + y) side 0 }
    {
        others(&self.columns[x..x + side], label) + others(&self.rows[y..y + side], label) == 0
    }
}

// Joins a black leaf, by its label, with what the lines tell of all along its north side and its west side, from the
// second pixel on.
fn shore(words: &mut [u32], lines: &Lines, label: u32, x: usize, y: usize, side: usize)
    requires { Shore words.old lines.now label x y side }
    ensures { Shores words.old lines.now label x y side side words.new }
{
    for i in 1..side {
        next(words, label, lines.north(x + i), lines.north(x + i - 1));
        next(words, label, lines.west(y + i), lines.west(y + i - 1));
    }
}

// 1 for what is neither 0 nor the label, else 0.
#[tactic(auto, unfolding(ponds_sets::specs::Touch::one_if_other))]
fn one_if_other(value: u32, label: u32) -> u32
    ensures { (result ≡ one_if_other value label) × (result ≤ 1) }
{
    (value != 0 && value != label) as u32
}

// How many words of a line are another label than that: many are looked at at once.
fn others(line: &[u32], label: u32) -> u32
    requires { length line.now ≤ across }
    ensures { result ≡ sum_by (λ v. one_if_other v label) line.now }
{
    line.iter().map(|v| one_if_other(*v, label)).sum()
}

// Joins a leaf of any type with what lies along its north side and its west side; a white one has nothing to join.
// Along a long side mostly nothing is of another set, which is looked at first. Where the side is known, as 2 is to the
// walk, only its own part is left of this.
#[inline(always)]
pub fn sides(
    words: &mut [u32],
    lines: &Lines,
    kind: usize,
    label: u32,
    x: usize,
    y: usize,
    side: usize,
)
    requires { (kind ≡ black → Shore words.old lines.now label x y side) × (x + side ≤ across) × (y + side ≤ across) }
    ensures { Sides kind words.old lines.now label x y side words.new }
{
    if side == 2 {
        return two_sides(words, lines, kind, label, x, y);
    }
    if kind != quad::BLACK {
        return;
    }
    if 16 <= side && lines.quiet(label, x, y, side) {
        return;
    }
    shore(words, lines, label, x, y, side);
}

// `sides` for a leaf of two by two pixels. Mostly the second pixel of either side tells what the first told, and then
// nothing is to be done: one test, as nothing tells beforehand which leaves are black.
fn two_sides(words: &mut [u32], lines: &Lines, kind: usize, label: u32, x: usize, y: usize)
    requires { (kind ≡ black → Shore words.old lines.now label x y 2) × (x + 2 ≤ across) × (y + 2 ≤ across) }
    ensures { Sides kind words.old lines.now label x y 2 words.new }
{
    let (n0, n1) = (lines.north(x), lines.north(x + 1));
    let (w0, w1) = (lines.west(y), lines.west(y + 1));
    let black = (kind == quad::BLACK) as usize;
    if 2 * black + apart(n1, n0) + apart(w1, w0) <= 2 {
        return;
    }
    next(words, label, n1, n0);
    next(words, label, w1, w0);
}
