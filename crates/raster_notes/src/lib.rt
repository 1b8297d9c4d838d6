// The types of a sheet's largest blocks, told once and noted.
#![tactic(auto)]

ghost use Rattle.std.specs.Prelude.{◌≡◌, ◌+◌, ◌*◌, ◌≤◌, ◌<◌, length, set};
ghost use Rattle.quad.specs.Tree.{colour, size_of, tree_of};
ghost use Rattle.raster_lanes.specs.Lanes.{window, eight_rows};
ghost use Rattle.raster_notes.specs.Notes.{NotedSize, Lies, Parts, QuarterSums};

use raster_lanes::Pixels;

// A row of eight black pixels as one number.
const BLACK_ROW: u64 = 72340172838076673;

// The slots of the largest sheet: one for each of its blocks from level 3 up.
pub const SLOTS: usize = 341;

// The noted types.
pub type Notes = [u32; SLOTS];

// Counts the nodes of a block of level 3 by the sum of its rows, and notes its type.
pub fn eight(pixels: &Pixels<'_>, at: usize, all: u64, slot: usize, kinds: &mut Notes) -> u32
    requires { (at + 7 * pixels.now.across + 8 ≤ length pixels.now.bytes.now)
        × (all ≡ eight_rows pixels.now.bytes.now pixels.now.across at) × (slot < SLOTS) }
    ensures { (result ≡ size_of (tree_of (window pixels.now.bytes.now pixels.now.across at) 3 0 0))
        × (kinds.new ≡ set kinds.old slot (colour (tree_of (window pixels.now.bytes.now pixels.now.across at) 3 0 0))) }
{
    let kind = raster_lanes::kind(all, 8 * BLACK_ROW);
    kinds[slot] = kind;
    if kind != quad::FORK as u32 {
        return 1;
    }
    pixels.nodes(at)
}

// Notes the four quarters of a block of level 4, whose sums are given, in the slots behind the block's own.
// Four numbers, since an array of them would lie in memory and be copied in pieces (bench/SPEED.md).
fn quarters(
    pixels: &Pixels<'_>,
    at: usize,
    nw: u64,
    ne: u64,
    sw: u64,
    se: u64,
    slot: usize,
    kinds: &mut Notes,
) -> u32
    requires { (at + 15 * pixels.now.across + 16 ≤ length pixels.now.bytes.now) × (slot + 5 ≤ SLOTS)
        × QuarterSums pixels.now.bytes.now pixels.now.across at nw ne sw se }
    ensures { Parts pixels.now.bytes.now pixels.now.across at 4 slot 4 kinds.old kinds.new result }
{
    let under = at + 8 * pixels.across;
    let a = eight(pixels, at, nw, slot + 1, kinds);
    let b = eight(pixels, at + 8, ne, slot + 2, kinds);
    let c = eight(pixels, under, sw, slot + 3, kinds);
    let d = eight(pixels, under + 8, se, slot + 4, kinds);
    1 + a + b + c + d
}

// Notes a block of level 4 and its quarters, and gives its nodes. The quarters of a leaf need no note.
pub fn sixteen(pixels: &Pixels<'_>, at: usize, slot: usize, kinds: &mut Notes) -> u32
    requires { Lies pixels.now.bytes.now pixels.now.across at 4 × (slot + 5 ≤ SLOTS) }
    ensures { NotedSize pixels.now.bytes.now pixels.now.across at 4 slot kinds.old kinds.new result }
{
    let under = at + 8 * pixels.across;
    let nw = pixels.eight_rows(at);
    let ne = pixels.eight_rows(at + 8);
    let sw = pixels.eight_rows(under);
    let se = pixels.eight_rows(under + 8);
    let all = nw + ne + sw + se;
    if all == 0 {
        kinds[slot] = 0;
        return 1;
    }
    if all == 32 * BLACK_ROW {
        kinds[slot] = 1;
        return 1;
    }
    let nodes = quarters(pixels, at, nw, ne, sw, se, slot, kinds);
    kinds[slot] = quad::FORK as u32;
    nodes
}
