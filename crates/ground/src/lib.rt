// A block's centre on the ground, and what is lost in rounding.
#![tactic(auto)]

// A ground place: the east and north coordinates of the origin, which is the centre of the top left pixel, and a
// pixel's side.
#[derive(Clone, Copy)]
pub struct Ground {
    pub east: f64,
    pub north: f64,
    pub step: f64,
}

// A centre (h, k), in half pixels.
#[derive(Clone, Copy)]
pub struct Middle {
    pub h: u32,
    pub k: u32,
}
