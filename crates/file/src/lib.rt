// The sheet file: what reading and writing give; one file for each picture.
#![tactic(auto)]

// Every record stands after a two-byte mark: 51, and 53 before the header or 4E before a node's type.
pub const MARK: u8 = 81;

pub const SHEET: u8 = 83;

pub const NODE: u8 = 78;

// A block, or four blocks, that was read: the place after it, and its root's type.
#[derive(Clone, Copy)]
pub struct Block {
    pub next: u32,
    pub kind: usize,
}

// A whole file that was read, before the room for its table is looked at: its level and its node count.
#[derive(Clone, Copy)]
pub struct Contents {
    pub level: u32,
    pub count: u32,
}
