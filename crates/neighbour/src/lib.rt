// Neighbours and corner leaves, as the papers' geometry names them.
#![tactic(auto)]

// What a search ends on: a node and its level. Where no block of the sheet lies, it ends on none.
#[derive(Clone, Copy)]
pub struct Found {
    pub node: usize,
    pub level: u32,
}

// Where a climb ends: an ancestor and its level, and the moves from there down to the block, a quadrant each: in base
// four, the next one lowest.
#[derive(Clone, Copy)]
pub struct Climb {
    pub node: usize,
    pub level: u32,
    pub moves: usize,
}
