// A table's file, from whichever numbering (`sheet_write`).
#![tactic(auto)]

ghost use Rattle.std.specs.Prelude.{[], ◌∷◌, true, ◌≡◌, ◌+◌, ◌/◌, ◌%◌, ◌<◌, ◌≤◌, length};
ghost use Rattle.std.proofs.lemmas.List.Edits.{sets};
ghost use Rattle.table.specs.Table.{son, node_type, is_fork};
ghost use Rattle.table.specs.Nodes.{tree_at};
ghost use Rattle.file.specs.File.{mark, sheet_mark, node_mark};
ghost use Rattle.file.specs.Calls.{Writes};
ghost use Rattle.file.specs.Writing.{Writable, OverPixels, Wrote};

use answer::{Outcome, Refusal};
use file::{MARK, NODE, SHEET};

// Writes the header: the level, and the node count in two bytes, low byte first.
fn put_header(file: &mut [u8], level: u32, count: u32)
    requires { (5 ≤ length file.old) × (level < 256) × (count < 65536) }
    ensures { file.new ≡ sets file.old 0
        (mark ∷ sheet_mark ∷ level ∷ count % 256 ∷ count / 256 ∷ []) }
{
    let [low, high] = (count as u16).to_le_bytes();
    file[..5].copy_from_slice(&[MARK, SHEET, level as u8, low, high]);
}

// Writes a node record.
fn put_record(file: &mut [u8], at: usize, kind: u8)
    requires { at + 3 ≤ length file.old }
    ensures { file.new ≡ sets file.old at (mark ∷ node_mark ∷ kind ∷ []) }
{
    file[at..at + 3].copy_from_slice(&[MARK, NODE, kind]);
}

// Writes the block of a fork p over four pixels and gives the place after it. All five types are known before the first
// byte is written; a `for` over the four would be no shorter.
fn write_pixels(table: &[u32], p: usize, file: &mut [u8], at: usize) -> usize
    requires { OverPixels table.now p × (at + 15 ≤ length file.old) }
    ensures { Wrote (tree_at table.now 1 p) at file.old file.new result }
{
    let [nw, ne, sw, se] = table_node::four_types(table, p);
    put_record(file, at, quad::FORK as u8);
    put_record(file, at + 3, nw as u8);
    put_record(file, at + 6, ne as u8);
    put_record(file, at + 9, sw as u8);
    put_record(file, at + 12, se as u8);
    at + 15
}

// Writes the block of fork p, its sons' in the order NW, NE, SW, SE, and gives the place after it. A son that is a
// leaf, or a fork over four pixels, is written here, without a call; each call hands on the one reference to the table.
fn write_fork(table: &&[u32], level: u32, p: usize, file: &mut [u8], at: usize) -> usize
    requires { Writable table.now.now level p at (length file.old) × (is_fork table.now.now p ≡ true) }
    ensures { Wrote (tree_at table.now.now level p) at file.old file.new result }
{
    put_record(file, at, quad::FORK as u8);
    let mut next = at + 3;
    for q in 0..4 {
        let son = table_node::word_at(*table, p, 1 + q);
        let kind = table_node::word_at(*table, son, 5);
        if kind == quad::FORK {
            if level == 2 {
                next = write_pixels(*table, son, file, next);
            } else {
                next = write_fork(table, level - 1, son, file, next);
            }
        } else {
            put_record(file, next, kind as u8);
            next += 3;
        }
    }
    next
}

// Writes the block of node p, the root, and gives the place after it. One function for this, for a fork and for its
// pixels calls itself for each leaf, and is slower (bench/SPEED.md).
fn write_block(table: &[u32], level: u32, p: usize, file: &mut [u8], at: usize) -> usize
    requires { Writable table.now level p at (length file.old) }
    ensures { Wrote (tree_at table.now level p) at file.old file.new result }
{
    let kind = table_node::word_at(table, p, 5);
    if kind == quad::FORK {
        return write_fork(&table, level, p, file, at);
    }
    put_record(file, at, kind as u8);
    at + 3
}

// A table's file, whichever numbering the table has; bytes beyond it stay.
pub fn write(n: u32, table: &[u32], file: &mut [u8]) -> Outcome
    ensures { Writes n table.now file.old result file.new }
{
    let count = table_check::check(n, table)?;
    let bytes = 5 + 3 * count;
    if file.len() < bytes as usize {
        return Err(Refusal::NoRoom { needed: bytes });
    }
    put_header(file, n, count);
    write_block(table, n, 0, file, 5);
    Ok(bytes)
}
