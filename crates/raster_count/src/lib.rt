// The first pass of building: types noted, nodes counted.
#![tactic(auto)]

ghost use Rattle.std.specs.Prelude.{◌≡◌, ◌+◌, ◌*◌, ◌/◌, ◌%◌, ◌≤◌, ◌<◌, ◌^◌};
ghost use Rattle.quad.specs.Tree.{colour, size_of, tree_of};
ghost use Rattle.raster.specs.Raster.{picture_of};
ghost use Rattle.raster.specs.Sums.{four_sum, sixteen_sum, mixed_of};
ghost use Rattle.raster_notes.specs.Notes.{NotedSize};
ghost use Rattle.raster.specs.Blocks.{Picture, OnSheet};
ghost use Rattle.raster_count.specs.Kinds.{four_pixels};

use raster_lanes::Pixels;
use raster_notes::Notes;

// A raster that is not refused, as the picture of a sheet of level n.
#[derive(Clone, Copy)]
pub struct Raster<'a> {
    pub n: u32,
    pub pixels: Pixels<'a>,
    pub ghost picture: { Picture n pixels.bytes.now },
    pub ghost wide: { pixels.across ≡ 2 ^ n },
}

impl Raster<'_> {
    // The pixel in column x and row y.
    pub fn pixel_at(&self, x: usize, y: usize) -> u32
        requires { OnSheet self.now.n 0 x y }
        ensures { result ≡ picture_of self.now.n self.now.pixels.bytes.now x y }
    {
        self.pixels.bytes[y * self.pixels.across + x] as u32
    }

    // The sum of the four pixels of a block of level 1.
    pub fn sum_four(&self, x: usize, y: usize) -> u32
        requires { OnSheet self.now.n 1 x y }
        ensures { (result ≡ four_sum (picture_of self.now.n self.now.pixels.bytes.now) x y) × (result ≤ 4) }
    {
        let west = 2 * x;
        let north = 2 * y;
        let nw = self.pixel_at(west, north);
        let ne = self.pixel_at(west + 1, north);
        let sw = self.pixel_at(west, north + 1);
        let se = self.pixel_at(west + 1, north + 1);
        nw + ne + sw + se
    }

    // The four pixels of row y from column 4x on as one number, so that they are read together.
    fn four_pixels(&self, x: usize, y: usize) -> u32
        requires { OnSheet self.now.n 0 (2 * (2 * x + 1) + 1) y }
        ensures { (result ≡ four_pixels (picture_of self.now.n self.now.pixels.bytes.now) x y) × (result ≤ 16843009) }
    {
        self.pixels.four_at(y * self.pixels.across + 4 * x) as u32
    }

    // The sums of the blocks (2x, y) and (2x + 1, y) of level 1 in one number.
    fn two_sums(&self, x: usize, y: usize) -> u32
        requires { OnSheet self.now.n 1 (2 * x + 1) y }
        ensures { (result % 8 ≡ four_sum (picture_of self.now.n self.now.pixels.bytes.now) (2 * x) y)
            × (result / 65536 % 8 ≡ four_sum (picture_of self.now.n self.now.pixels.bytes.now) (2 * x + 1) y) }
    {
        let north = self.four_pixels(x, 2 * y);
        let south = self.four_pixels(x, 2 * y + 1);
        let both = north + south;
        both + both / 256
    }

    // The nodes of a block of level 2. The four sums are taken here and in `sum_sixteen` anew: handed over as an array they
    // are copied in pieces (bench/SPEED.md).
    fn count_sixteen(&self, x: usize, y: usize) -> u32
        requires { OnSheet self.now.n 2 x y }
        ensures { result ≡ size_of (tree_of (picture_of self.now.n self.now.pixels.bytes.now) 2 x y) }
    {
        let north = self.two_sums(x, 2 * y);
        let south = self.two_sums(x, 2 * y + 1);
        let nw = north % 8;
        let ne = north / 65536 % 8;
        let sw = south % 8;
        let se = south / 65536 % 8;
        let quarters = mixed(nw, 4) + mixed(ne, 4) + mixed(sw, 4) + mixed(se, 4);
        1 + 4 * (quarters + mixed(nw + ne + sw + se, 16))
    }

    // The type of a sheet below level 3.
    fn small_kind(&self) -> u32
        requires { self.now.n < 3 }
        ensures { result ≡ colour (tree_of (picture_of self.now.n self.now.pixels.bytes.now) self.now.n 0 0) }
    {
        match self.n {
            0 => self.pixel_at(0, 0),
            1 => raster_lanes::kind(u64::from(self.sum_four(0, 0)), 4),
            _ => raster_lanes::kind(u64::from(self.sum_sixteen(0, 0)), 16),
        }
    }

    // The nodes of a sheet below level 3; its type is noted.
    fn count_small(&self, kinds: &mut Notes) -> u32
        requires { self.now.n < 3 }
        ensures { NotedSize self.now.pixels.bytes.now (2 ^ self.now.n) 0 self.now.n 0 kinds.old kinds.new result }
    {
        let kind = self.small_kind();
        kinds[0] = kind;
        if kind != quad::FORK as u32 {
            return 1;
        }
        if self.n == 1 {
            return 5;
        }
        self.count_sixteen(0, 0)
    }

    // The nodes of a sheet; the types of its blocks from level 3 up are noted.
    pub fn count(&self, kinds: &mut Notes) -> u32
        ensures { NotedSize self.now.pixels.bytes.now (2 ^ self.now.n) 0 self.now.n 0 kinds.old kinds.new result }
    {
        if self.n < 3 {
            return self.count_small(kinds);
        }
        raster_large::block(
            &self.pixels,
            0,
            self.n,
            0,
            raster_large::slots(self.n),
            kinds,
        )
    }

    // The sum of the sixteen pixels of a block of level 2.
    pub fn sum_sixteen(&self, x: usize, y: usize) -> u32
        requires { OnSheet self.now.n 2 x y }
        ensures { result ≡ sixteen_sum (picture_of self.now.n self.now.pixels.bytes.now) x y }
    {
        let north = self.two_sums(x, 2 * y);
        let south = self.two_sums(x, 2 * y + 1);
        north % 8 + north / 65536 % 8 + south % 8 + south / 65536 % 8
    }
}

// 1 where so many pixels of that sum are not alike, else 0.
#[tactic(auto, unfolding(raster::specs::Sums::mixed_of))]
fn mixed(sum: u32, pixels: u32) -> u32
    requires { 0 < pixels }
    ensures { (result ≡ mixed_of sum pixels) × (result ≤ 1) }
{
    (sum % pixels != 0) as u32
}
