// Pixels looked at many at once, as parts of one number.
#![tactic(auto)]

ghost use Rattle.std.specs.Prelude.{◌≡◌, ◌+◌, ◌*◌, ◌≤◌, ◌<◌, length};
ghost use Rattle.quad.specs.Numbers.{fork_type};
ghost use Rattle.quad.specs.Tree.{colour, size_of, tree_of};
ghost use Rattle.raster.specs.Sums.{Colours};
ghost use Rattle.raster_lanes.specs.Lanes.{window, four_from, eight_from, black_row, two_rows, four_rows};
ghost use Rattle.raster_lanes.specs.Lanes.{eight_rows, kind_of, packed, lane_bits, mixed_lanes, lane_sum};
ghost use Rattle.raster_lanes.specs.Lanes.{mixed_two, forks_of, FourSums, sums_from};

// A raster's bytes, all of them colours, seen as rows of a width.
#[derive(Clone, Copy)]
pub struct Pixels<'a> {
    pub bytes: &'a [u8],
    pub across: usize,
    pub ghost colours: { Colours bytes.now },
}

impl Pixels<'_> {
    // Four pixels.
    pub fn four_at(&self, at: usize) -> u64
        requires { at + 4 ≤ length self.now.bytes.now }
        ensures { (result ≡ four_from self.now.bytes.now at) × (result ≤ 16843009) }
    {
        u64::from(u32::from_le_bytes([
            self.bytes[at],
            self.bytes[at + 1],
            self.bytes[at + 2],
            self.bytes[at + 3],
        ]))
    }

    // Eight pixels.
    fn eight_at(&self, at: usize) -> u64
        requires { at + 8 ≤ length self.now.bytes.now }
        ensures { (result ≡ eight_from self.now.bytes.now at) × (result ≤ black_row) }
    {
        u64::from_le_bytes([
            self.bytes[at],
            self.bytes[at + 1],
            self.bytes[at + 2],
            self.bytes[at + 3],
            self.bytes[at + 4],
            self.bytes[at + 5],
            self.bytes[at + 6],
            self.bytes[at + 7],
        ])
    }

    // Two rows of eight pixels, added up. Two, four and eight rows are a line each: a loop over rows in place of them is
    // longer, and took longer (bench/SPEED.md, "Built by halves").
    #[tactic(auto, unfolding(crate::specs::Lanes::two_rows))]
    fn two_rows(&self, at: usize) -> u64
        requires { at + self.now.across + 8 ≤ length self.now.bytes.now }
        ensures { (result ≡ two_rows self.now.bytes.now self.now.across at) × (result ≤ 2 * black_row) }
    {
        self.eight_at(at) + self.eight_at(at + self.across)
    }

    // Four rows.
    #[tactic(auto, unfolding(crate::specs::Lanes::four_rows))]
    fn four_rows(&self, at: usize) -> u64
        requires { at + 3 * self.now.across + 8 ≤ length self.now.bytes.now }
        ensures { (result ≡ four_rows self.now.bytes.now self.now.across at) × (result ≤ 4 * black_row) }
    {
        self.two_rows(at) + self.two_rows(at + 2 * self.across)
    }

    // Eight rows: what tells a block of level 3.
    #[tactic(auto, unfolding(crate::specs::Lanes::eight_rows))]
    pub fn eight_rows(&self, at: usize) -> u64
        requires { at + 7 * self.now.across + 8 ≤ length self.now.bytes.now }
        ensures { (result ≡ eight_rows self.now.bytes.now self.now.across at) × (result ≤ 8 * black_row) }
    {
        self.four_rows(at) + self.four_rows(at + 4 * self.across)
    }

    // The sums of four blocks of level 1 side by side, in four lanes.
    fn four_sums(&self, at: usize) -> u64
        requires { at + self.now.across + 8 ≤ length self.now.bytes.now }
        ensures { result ≡ sums_from (window self.now.bytes.now self.now.across at) 0 }
    {
        let rows = self.two_rows(at);
        bits::<1, 8>(rows + rows / 256)
    }

    // The forks of two blocks of level 2 side by side, from their pixels.
    fn half_forks(&self, at: usize) -> u64
        requires { at + 3 * self.now.across + 8 ≤ length self.now.bytes.now }
        ensures { (2 + 4 * result ≡ size_of (tree_of (window self.now.bytes.now self.now.across at) 2 0 0)
            + size_of (tree_of (window self.now.bytes.now self.now.across at) 2 1 0)) × (result ≤ 262142) }
    {
        let north = self.four_sums(at);
        let south = self.four_sums(at + 2 * self.across);
        forks(north, south)
    }

    // The nodes of a block of level 3 that is a fork.
    pub fn nodes(&self, at: usize) -> u32
        requires { (at + 7 * self.now.across + 8 ≤ length self.now.bytes.now)
            × (colour (tree_of (window self.now.bytes.now self.now.across at) 3 0 0) ≡ fork_type) }
        ensures { result ≡ size_of (tree_of (window self.now.bytes.now self.now.across at) 3 0 0) }
    {
        let north = self.half_forks(at);
        let south = self.half_forks(at + 4 * self.across);
        (5 + 4 * (north + south)) as u32
    }
}

// A block's type by the sum of its rows, `most` being that of black ones.
#[tactic(auto, unfolding(crate::specs::Lanes::kind_of))]
pub fn kind(all: u64, most: u64) -> u32
    ensures { result ≡ kind_of all most }
{
    if all == 0 {
        0
    } else if all == most {
        1
    } else {
        quad::FORK as u32
    }
}

// Of each lane the bits from the one that counts BELOW on, as many as OF numbers need.
#[tactic(auto, unfolding(crate::specs::Lanes::lane_bits))]
fn bits<const BELOW: u64, const OF: u64>(v: u64) -> u64
    requires { (0 < BELOW) × (0 < OF) × (OF ≤ 8) }
    ensures { result ≡ lane_bits BELOW OF v }
{
    let second = v / 65536;
    let third = second / 65536;
    let fourth = third / 65536;
    v / BELOW % OF
        + 65536 * (second / BELOW % OF)
        + 4294967296 * (third / BELOW % OF)
        + 281474976710656 * (fourth / BELOW % OF)
}

// 1 in the lanes whose sums are neither 0 nor 4: three more take all others past 3, and 4 is past it alone.
fn mixed_lanes(v: u64) -> u64
    requires { FourSums v }
    ensures { (result ≡ mixed_lanes v) × (result ≤ packed 1 1 1 1) }
{
    bits::<4, 2>(v + 844437815230467) - bits::<4, 2>(v)
}

// The sum of the lanes.
#[tactic(auto, unfolding(crate::specs::Lanes::lane_sum))]
fn lane_sum(v: u64) -> u64
    ensures { (result ≡ lane_sum v) × (result ≤ 262140) }
{
    let second = v / 65536;
    let third = second / 65536;
    let fourth = third / 65536;
    v % 65536 + second % 65536 + third % 65536 + fourth
}

// How many of the sums in the first and the third lane are neither 0 nor 16.
#[tactic(auto, unfolding(crate::specs::Lanes::mixed_two))]
fn mixed_two(v: u64) -> u64
    ensures { (result ≡ mixed_two v) × (result ≤ 2) }
{
    let west = v % 65536;
    let east = v / 65536 / 65536 % 65536;
    (west + 15) / 16 + (east + 15) / 16 - (west / 16 + east / 16)
}

// The forks of two blocks of level 2 side by side, from the sums in their upper and in their lower half.
fn forks(north: u64, south: u64) -> u64
    requires { FourSums north × FourSums south }
    ensures { (result ≡ forks_of north south) × (result ≤ 262142) }
{
    let both = north + south;
    lane_sum(mixed_lanes(north) + mixed_lanes(south)) + mixed_two(both + both / 65536)
}
