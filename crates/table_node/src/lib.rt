// A node's words, read and written; its block, and its level. A node stays a number beside its table, as both come from C
// and every word read is such a number: so each function asks anew that it is one of the table's.
#![tactic(auto)]

ghost use Rattle.std.specs.Prelude.{◌≡◌, ◌+◌, ◌*◌, ◌<◌, ◌≤◌, length, [], ◌∷◌};
ghost use Rattle.quad.specs.Numbers.{none};
ghost use Rattle.table.specs.Rules.{depth_to};
ghost use Rattle.table.specs.Nodes.{level_of, son_type};
ghost use Rattle.table.specs.Blocks.{block_of};
ghost use Rattle.std.proofs.lemmas.List.Edits.{sets};
ghost use Rattle.table.specs.Table.{word, nodes, father, son, node_type};
ghost use Rattle.table.specs.Links.{Rising, SonsIn, four_sons, four_types};

use table::{Block, Sheet};

// The block of node p, by climbing from p to the root: each link passed is one binary digit of column and row.
pub fn block_of(sheet: &Sheet<'_>, p: usize) -> Block
    requires { p < nodes sheet.now.table.now }
    ensures { result ≡ block_of sheet.now.n sheet.now.table.now p }
{
    let table = sheet.table;
    let mut q = p;
    let mut unit: u32 = 1;
    let mut column: u32 = 0;
    let mut row: u32 = 0;
    let mut level = sheet.n;
    while q != 0 {
        let son = son_type(table, q);
        column += (son % 2) as u32 * unit;
        row += (son / 2) as u32 * unit;
        unit *= 2;
        level -= 1;
        q = word_at(table, q, 0);
    }
    Block { column, row, level }
}

// The level of node p: n less the father links from p to the root.
pub fn level_of(sheet: &Sheet<'_>, p: usize) -> u32
    requires { p < nodes sheet.now.table.now }
    ensures { result ≡ level_of sheet.now.n sheet.now.table.now p }
{
    sheet.n - depth_to(sheet.table, sheet.n, p)
}

// The node count.
pub fn node_count(table: &[u32]) -> usize
    ensures { result ≡ nodes table.now }
{
    table.len() / 6
}

// Word j of node p: 0 the father, 1 to 4 the sons, 5 the type.
pub fn word_at(table: &[u32], p: usize, j: usize) -> usize
    requires { (p < nodes table.now) × (j < 6) }
    ensures { result ≡ word table.now p j }
{
    table[6 * p + j] as usize
}

// The four sons of a fork, NW, NE, SW, SE. Four calls: in `[1, 2, 3, 4].map(..)` the bound on a word's place did not close.
pub fn four_sons(table: &[u32], p: usize) -> [usize; 4]
    requires { p < nodes table.now }
    ensures { result ≡ four_sons table.now p }
{
    [
        word_at(table, p, 1),
        word_at(table, p, 2),
        word_at(table, p, 3),
        word_at(table, p, 4),
    ]
}

// The type of son q of a fork.
fn type_of_son(table: &[u32], p: usize, q: usize) -> usize
    requires { (p < nodes table.now) × (q < 4) × (son table.now p q < nodes table.now) }
    ensures { result ≡ node_type table.now (son table.now p q) }
{
    word_at(table, word_at(table, p, 1 + q), 5)
}

// The types of a fork's four sons, all of them read before one is asked for.
pub fn four_types(table: &[u32], p: usize) -> [usize; 4]
    requires { (p < nodes table.now) × SonsIn table.now p }
    ensures { result ≡ four_types table.now p }
{
    [
        type_of_son(table, p, 0),
        type_of_son(table, p, 1),
        type_of_son(table, p, 2),
        type_of_son(table, p, 3),
    ]
}

// The number of father links from p to the root, or n where there are more.
pub fn depth_to(table: &[u32], n: u32, p: usize) -> u32
    requires { (p < nodes table.now) × Rising table.now (p + 1) }
    ensures { result ≡ depth_to table.now n p }
{
    let mut q = p;
    for k in 0..n {
        if q == 0 {
            return k;
        }
        q = word_at(table, q, 0);
    }
    n
}

// Which son of its father p is (document 000's SONTYPE). The root is never asked.
pub fn son_type(table: &[u32], p: usize) -> usize
    requires { (p < nodes table.now) × (father table.now p < nodes table.now) }
    ensures { result ≡ son_type table.now p }
{
    let [nw, ne, sw, _] = four_sons(table, word_at(table, p, 0));
    quad::pick(nw, p, 0, quad::pick(ne, p, 1, quad::pick(sw, p, 2, 3)))
}

// Writes the six words of node p: six stores, where `copy_from_slice` makes an array of them in memory, and copies that.
pub fn put_node(
    table: &mut [u32],
    p: usize,
    father: u32,
    nw: u32,
    ne: u32,
    sw: u32,
    se: u32,
    kind: u32,
)
    requires { 6 * p + 6 ≤ length table.old }
    ensures { table.new ≡ sets table.old (6 * p) (father ∷ nw ∷ ne ∷ sw ∷ se ∷ kind ∷ []) }
{
    let i = 6 * p;
    table[i] = father;
    table[i + 1] = nw;
    table[i + 2] = ne;
    table[i + 3] = sw;
    table[i + 4] = se;
    table[i + 5] = kind;
}

// Writes the six words of node p, a leaf.
pub fn put_leaf(table: &mut [u32], p: usize, father: u32, kind: u32)
    requires { 6 * p + 6 ≤ length table.old }
    ensures { table.new ≡ sets table.old (6 * p) (father ∷ none ∷ none ∷ none ∷ none ∷ kind ∷ []) }
{
    let nobody = quad::NONE as u32;
    put_node(table, p, father, nobody, nobody, nobody, nobody, kind);
}
