// The ponds of a sheet: their numbers, and the register in words (`sheet_ponds`) or in structs.
#![tactic(auto)]

ghost use Rattle.std.specs.Prelude.{◌≡◌, false, ◌*◌, ◌<◌, ◌≤◌, eqb, length};
ghost use Rattle.answer.specs.Numbers.{room};
ghost use Rattle.quad.specs.Numbers.{black, max_words};
ghost use Rattle.table.specs.Table.{nodes, node_type, is_fork};
ghost use Rattle.table.specs.Rules.{one};
ghost use Rattle.ponds.specs.Numbered.{Numbered};
ghost use Rattle.ponds.specs.Calls.{black_leaves, ponds_test, FindsInWords, FindsInEntries};
ghost use Rattle.ponds_find.specs.Finding.{most_black, Finding};

use answer::{Outcome, Refusal};
use ponds::Pond;
use table::Sheet;
use table_node::word_at;

// The most black leaves of a sheet: three under each fork that stands just above the pixels.
const MOST_BLACK: usize = 3 * (1 << 2 * (quad::TOP_LEVEL - 1));

// The numbers of a sheet that is one leaf: a black one is a pond. Gives how many there are.
fn one_leaf(sheet: &Sheet<'_>, words: &mut [u32]) -> u32
    requires { (length words.old ≡ nodes sheet.now.table.now) × (is_fork sheet.now.table.now 0 ≡ false) }
    ensures { Numbered sheet.now.n sheet.now.table.now words.new result }
{
    let count = one_if_black(sheet.table, 0) as u32;
    words[0] = count;
    count
}

// The numbers of a sheet's ponds. Gives how many there are.
fn number(sheet: &Sheet<'_>, words: &mut [u32]) -> u32
    requires { length words.old ≡ nodes sheet.now.table.now }
    ensures { Numbered sheet.now.n sheet.now.table.now words.new result }
{
    if word_at(sheet.table, 0, 5) != quad::FORK {
        return one_leaf(sheet, words);
    }
    ponds_labels::lead(sheet, words);
    ponds_ranks::number(sheet.n, sheet.table, words)
}

// 1 for a black leaf, else 0.
fn one_if_black(table: &[u32], p: usize) -> usize
    requires { p < nodes table.now }
    ensures { result ≡ one (eqb (node_type table.now p) black) }
{
    (word_at(table, p, 5) == quad::BLACK) as usize
}

// How many leaves are black.
fn black_leaves(table: &[u32]) -> usize
    requires { length table.now ≤ max_words }
    ensures { result ≡ black_leaves table.now }
{
    let mut count = 0;
    for p in 0..table_node::node_count(table) {
        count += one_if_black(table, p);
    }
    count
}

// Whether a register of `have` elements has room for `wide` of them for each black leaf. These are counted only where
// it is too short for as many as a sheet can have.
fn room_for(table: &[u32], wide: usize, have: usize) -> Outcome
    requires { (length table.now ≤ max_words) × (black_leaves table.now ≤ most_black) × (wide ≤ 5) }
    ensures { result ≡ room (wide * black_leaves table.now) have }
{
    if wide * MOST_BLACK <= have {
        return Ok(0);
    }
    let need = wide * black_leaves(table);
    if have < need {
        return Err(Refusal::NoRoom {
            needed: need as u32,
        });
    }
    Ok(0)
}

// The tests in their order: 1, 2 (table first), 3, 4, 5, and 9 where the register of `have` elements is too short for
// `wide` of them for each black leaf.
fn test(n: u32, table: &[u32], words: usize, wide: usize, have: usize) -> Outcome
    requires { wide ≤ 5 }
    ensures { result ≡ ponds_test n table.now words (wide * black_leaves table.now) have }
{
    table_check::each_node(n, table, words)?;
    room_for(table, wide, have)
}

// The tests and the numbering, for a register of `have` elements, `wide` of them for an entry. Gives how many ponds
// there are.
fn numbered(n: u32, table: &[u32], numbers: &mut [u32], wide: usize, have: usize) -> Outcome
    requires { wide ≤ 5 }
    ensures { Finding n table.now wide have numbers.old result numbers.new }
{
    test(n, table, numbers.len(), wide, have)?;
    let sheet = Sheet { n, table };
    Ok(number(&sheet, numbers))
}

// The ponds of a sheet, for any level, words and slices: one number for each node, and a register of five words for
// each pond.
pub fn in_words(n: u32, table: &[u32], numbers: &mut [u32], reg: &mut [u32]) -> Outcome
    ensures { FindsInWords n table.now numbers.old reg.old result
        numbers.new reg.new }
{
    let count = numbered(n, table, numbers, 5, reg.len())?;
    ponds_register::fill(n, table, numbers, reg, count as usize);
    Ok(count)
}

// The ponds' numbers, with a register of structs, one for each pond, in place of words.
pub fn in_entries(n: u32, table: &[u32], numbers: &mut [u32], reg: &mut [Pond]) -> Outcome
    ensures { FindsInEntries n table.now numbers.old reg.old result
        numbers.new reg.new }
{
    let count = numbered(n, table, numbers, 1, reg.len())?;
    ponds_entries::fill(n, table, numbers, reg, count as usize);
    Ok(count)
}
