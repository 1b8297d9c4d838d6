// A leaf, or the four pixels of a fork, entered into the register.
#![tactic(auto)]

ghost use Rattle.std.specs.Prelude.{◌≡◌, true, length, get_or, ◌+◌, ◌*◌, ◌≤◌, ◌<◌};
ghost use Rattle.table.specs.Table.{nodes, son, is_fork};
ghost use Rattle.ponds_entry.specs.Gathered.{Fitting};
ghost use Rattle.ponds_entry.specs.Words.{pond_at, put_at, passed_of, Passing};
ghost use Rattle.ponds_pixels.specs.Four.{present_of, either_of, many_of, alike_of, grown_four, of_four};
ghost use Rattle.ponds_entry.specs.Under.{block_from, Entering, Entered, Theirs};

use ponds::Pond;
use ponds_entry::{entry_at, grow_at, part, put_entry};
use table::Block;
use table_node::word_at;

// Adds a block to the entry of that number, if it is one.
// A number stays a word in which 0 is none: so it lies in the words that are lent (`Passing`).
fn pass_number(reg: &mut [u32], number: u32, b: Block)
    requires { Passing b number reg.old }
    ensures { reg.new ≡ passed_of b number reg.old }
{
    if number == 0 {
        return;
    }
    grow_at(reg, number as usize - 1, b);
}

// Adds a block to the entry of its node's number, if that has one.
pub fn pass(numbers: &[u32], reg: &mut [u32], p: usize, b: Block)
    requires { (p < length numbers.now) × Passing b (get_or numbers.now p 0) reg.old }
    ensures { reg.new ≡ passed_of b (get_or numbers.now p 0) reg.old }
{
    pass_number(reg, numbers[p], b);
}

// The number of son q of a fork.
fn son_number(table: &[u32], numbers: &[u32], p: usize, q: usize) -> u32
    requires { (p < nodes table.now) × (q < 4) × (son table.now p q < length numbers.now) }
    ensures { result ≡ get_or numbers.now (son table.now p q) 0 }
{
    numbers[word_at(table, p, 1 + q)]
}

// 1 for a pixel that has a number, 0 for one that has none.
#[tactic(auto, unfolding(crate::specs::Four::present_of))]
fn present(number: u32) -> u32
    ensures { (result ≡ present_of number) × (result ≤ 1) }
{
    (number != 0) as u32
}

// 1 where one of two pixels has a number, else 0.
#[tactic(auto, unfolding(crate::specs::Four::either_of, crate::specs::Four::present_of))]
fn either(a: u32, b: u32) -> u32
    ensures { (result ≡ either_of a b) × (result ≤ 1) }
{
    (a != 0 || b != 0) as u32
}

// How many of four pixels have a number.
fn many(four: [u32; 4]) -> u32
    ensures { (result ≡ of_four many_of four) × (result ≤ 4) }
{
    let [nw, ne, sw, se] = four;
    present(nw) + present(ne) + present(sw) + present(se)
}

// Whether those of four pixels that have a number all have this one, which is their greatest: so many times it is their
// sum.
fn alike(number: u32, four: [u32; 4]) -> bool
    ensures { result ≡ of_four (alike_of number) four }
{
    let [nw, ne, sw, se] = four;
    number as u64 * many(four) as u64 == nw as u64 + ne as u64 + sw as u64 + se as u64
}

// The entry with those pixels more that have a number, of the four of a fork of level 1 whose column and row are given.
fn grown_four(e: Pond, column: u32, row: u32, four: [u32; 4]) -> Pond
    requires { Fitting e (block_from column row 1) }
    ensures { result ≡ of_four (grown_four e column row) four }
{
    let [nw, ne, sw, se] = four;
    Pond {
        pixels: e.pixels + many(four),
        top: e.top.min(2 * row + 1 - either(nw, ne)),
        bottom: e.bottom.max(2 * row + either(sw, se)),
        left: e.left.min(2 * column + 1 - either(nw, sw)),
        right: e.right.max(2 * column + either(ne, se)),
    }
}

// Adds them to entry i of the register.
fn grow_four(reg: &mut [u32], i: usize, column: u32, row: u32, four: [u32; 4])
    requires { (5 * i + 5 ≤ length reg.old) × Fitting (pond_at reg.old i) (block_from column row 1) }
    ensures { reg.new ≡ put_at reg.old i
        (of_four (grown_four (pond_at reg.old i) column row) four) }
{
    let e = grown_four(entry_at(reg, i), column, row, four);
    put_entry(reg, i, e);
}

// Adds the four pixels of a fork of level 1, whose column and row are given, to the entries of their numbers, which are
// given too, one after the other.
fn pass_four(
    table: &[u32],
    numbers: &[u32],
    reg: &mut [u32],
    p: usize,
    column: u32,
    row: u32,
    four: [u32; 4],
)
    requires { Entering table.now numbers.now p (block_from column row 1) reg.old
        × (is_fork table.now p ≡ true) × Theirs table.now numbers.now p
        (get_or four 0 0) (get_or four 1 0) (get_or four 2 0) (get_or four 3 0) }
    ensures { Entered table.now numbers.now p (block_from column row 1) reg.old
        reg.new }
{
    let b = Block {
        column,
        row,
        level: 1,
    };
    let [nw, ne, sw, se] = four;
    pass_number(reg, nw, part(b, 0));
    pass_number(reg, ne, part(b, 1));
    pass_number(reg, sw, part(b, 2));
    pass_number(reg, se, part(b, 3));
}

// The four pixels under a fork are entered, and at once where all that have a number have the same one.
// Column and row stand alone and in no block, as the level is 1 here.
pub fn pass_pixels(table: &[u32], numbers: &[u32], reg: &mut [u32], p: usize, column: u32, row: u32)
    requires { Entering table.now numbers.now p (block_from column row 1) reg.old
        × (is_fork table.now p ≡ true) }
    ensures { Entered table.now numbers.now p (block_from column row 1) reg.old
        reg.new }
{
    let four = [
        son_number(table, numbers, p, 0),
        son_number(table, numbers, p, 1),
        son_number(table, numbers, p, 2),
        son_number(table, numbers, p, 3),
    ];
    let [nw, ne, sw, se] = four;
    let number = nw.max(ne).max(sw.max(se));
    if number == 0 {
        return;
    }
    if alike(number, four) {
        grow_four(reg, number as usize - 1, column, row, four);
        return;
    }
    pass_four(table, numbers, reg, p, column, row, four);
}
