// A file's table: two ways to read, which agree, and then the nodes in preorder (`sheet_read`).
#![tactic(auto)]

ghost use Rattle.std.specs.Prelude.{◌≡◌, ◌+◌, ◌≤◌, length, get_or};
ghost use Rattle.quad.specs.Numbers.{fork_type};
ghost use Rattle.file.specs.File.{open_of, block_at};
ghost use Rattle.file.specs.Calls.{Reads};
ghost use Rattle.file.specs.Reading.{contents_of};
ghost use Rattle.file.specs.Linking.{record_place, tree_in, Ready, Linked};

use answer::{Outcome, Refusal};
use file::Contents;
use file_scan::{scan_root, type_at};
use file_tell::{close, read_block, read_header};
use table_node::{put_leaf, put_node};

// The first pass: level and node count, or the first fault. It writes nothing. A sound file is read by a faster way,
// and only one that is not is read again for its fault.
fn survey(file: &[u8]) -> Result<Contents, Refusal>
    ensures { result ≡ contents_of (open_of file.now) }
{
    let level = read_header(file)?;
    if let Some(end) = scan_root(file, level) {
        return close(file, level, end as u32);
    }
    let block = read_block(file, level, 5)?;
    close(file, level, block.next)
}

// The type of node p, which is record p of the file.
fn type_of(file: &[u8], p: u32) -> usize
    requires { record_place p + 3 ≤ length file.now }
    ensures { result ≡ get_or file.now (record_place p + 2) 0 }
{
    type_at(file, 5 + 3 * (p as usize))
}

// The second pass, for a fork over four pixels: its five nodes from p on, and the next node.
fn link_pixels(file: &[u8], table: &mut [u32], p: u32, father: u32) -> u32
    requires { Ready file.now 1 p (length table.old) × (get_or file.now (record_place p + 2) 0 ≡ fork_type) }
    ensures { Linked (tree_in (block_at file.now 1 (record_place p))) father p table.old table.new result }
{
    put_node(
        table,
        p as usize,
        father,
        p + 1,
        p + 2,
        p + 3,
        p + 4,
        quad::FORK as u32,
    );
    for son in p + 1..p + 5 {
        put_leaf(table, son as usize, p, type_of(file, son) as u32);
    }
    p + 5
}

// The second pass, for a fork: its nodes from p on, in preorder, and the next node. Each son's number is written before
// the son's part, and the type last; a son that is a leaf, or a fork over four pixels, is written here, without a call,
// and each call hands on the one reference to the file.
fn link_fork(file: &&[u8], level: u32, table: &mut [u32], p: u32, father: u32) -> u32
    requires { Ready file.now.now level p (length table.old)
        × (get_or file.now.now (record_place p + 2) 0 ≡ fork_type) }
    ensures { Linked (tree_in (block_at file.now.now level (record_place p))) father p table.old table.new result }
{
    let own = 6 * (p as usize);
    table[own] = father;
    let mut next = p + 1;
    for q in 0..4 {
        table[own + 1 + q] = next;
        let kind = type_of(*file, next);
        if kind == quad::FORK {
            if level == 2 {
                next = link_pixels(*file, table, next, p);
            } else {
                next = link_fork(file, level - 1, table, next, p);
            }
        } else {
            put_leaf(table, next as usize, p, kind as u32);
            next += 1;
        }
    }
    table[own + 5] = quad::FORK as u32;
    next
}

// The second pass, for the block of a whole file: its nodes from p on, in preorder, and the next node. One function for
// this, for a fork and for its pixels calls itself for each leaf, and is slower (bench/SPEED.md).
fn link_block(file: &[u8], level: u32, table: &mut [u32], p: u32, father: u32) -> u32
    requires { Ready file.now level p (length table.old) }
    ensures { Linked (tree_in (block_at file.now level (record_place p))) father p table.old table.new result }
{
    let kind = type_of(file, p);
    if kind == quad::FORK {
        return link_fork(&file, level, table, p, father);
    }
    put_leaf(table, p as usize, father, kind as u32);
    p + 1
}

// A file's table: the preorder one, written only where nothing is refused any more; words beyond it stay.
pub fn read(file: &[u8], table: &mut [u32]) -> Outcome
    ensures { Reads file.now table.old result table.new }
{
    let Contents { level, count } = survey(file)?;
    let words = 6 * count;
    if table.len() < words as usize {
        return Err(Refusal::NoRoom { needed: words });
    }
    link_block(file, level, table, 0, quad::NONE as u32);
    Ok(answer::with_level(count, level))
}
