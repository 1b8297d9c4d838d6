// Ponds: when water is one, their order by rows, and their entries in the register. What the call gives.
#![tactic(auto)]

// What a pond covers: how many pixels, its first and last row, its first and last column.
#[derive(Clone, Copy)]
pub struct Pond {
    pub pixels: u32,
    pub top: u32,
    pub bottom: u32,
    pub left: u32,
    pub right: u32,
}
