// The node table: what its words mean, the six rules, blocks and preorder, and the laws of an accepted table. Its only
// code is the types of a block and of an accepted sheet.
#![tactic(auto)]

ghost use Rattle.table.specs.Rules.{Accepted};

// An accepted sheet: its level, and a node table in which no node has a fault. Whoever has one need not ask again.
#[derive(Clone, Copy)]
pub struct Sheet<'a> {
    pub n: u32,
    pub table: &'a [u32],
    ghost accepted: { Accepted n table.now },
}

// The block in that column and row among the blocks of its level.
#[derive(Clone, Copy)]
pub struct Block {
    pub column: u32,
    pub row: u32,
    pub level: u32,
}
