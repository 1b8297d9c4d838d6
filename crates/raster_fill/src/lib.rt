// A leaf's block filled, row by row.
#![tactic(auto)]

ghost use Rattle.std.specs.Prelude.{◌≡◌, ◌+◌, ◌≤◌, ◌^◌, length};
ghost use Rattle.quad.specs.Numbers.{top_level};
ghost use Rattle.quad.specs.Tree.{colour};
ghost use Rattle.raster.specs.Blocks.{OnSheet};
ghost use Rattle.raster_fill.specs.Painting.{BytesFilled, Painted, in_block};

// Fills `width` bytes from a place on. A slice's `fill` writes its last byte by itself, so that a row of 32 bytes is one of
// 31 and a byte: sheets of large leaves took up to 1.4 of the time.
fn fill_row(raster: &mut [u8], start: usize, width: usize, colour: u8)
    requires { start + width ≤ length raster.old }
    ensures { BytesFilled start width colour raster.old raster.new }
{
    for i in 0..width {
        raster[start + i] = colour;
    }
}

// Fills a block, row by row. The raster is lent to be written, and stays a slice beside its level: a struct around it would
// be taken apart at each store.
fn fill_block(raster: &mut [u8], n: u32, level: u32, x: usize, y: usize, colour: u8)
    requires { (n ≤ top_level) × OnSheet n level x y × (length raster.old ≡ 4 ^ n) }
    ensures { Painted n (in_block level x y) (λ i j. colour) raster.old raster.new }
{
    let across = quad::side(n) as usize;
    let width = quad::side(level) as usize;
    let left = x * width;
    let top = y * width;
    for j in 0..width {
        fill_row(raster, (top + j) * across + left, width, colour);
    }
}

// Fills a block of one pixel.
pub fn fill_pixel(raster: &mut [u8], n: u32, x: usize, y: usize, colour: u8)
    requires { (n ≤ top_level) × OnSheet n 0 x y × (length raster.old ≡ 4 ^ n) }
    ensures { Painted n (in_block 0 x y) (λ i j. colour) raster.old raster.new }
{
    let across = quad::side(n) as usize;
    raster[y * across + x] = colour;
}

// Fills a leaf's block. The width of small rows is written out, so that each is one store: a level known only when it
// runs needs an arm for each, with a const parameter too.
pub fn fill_leaf(raster: &mut [u8], n: u32, level: u32, x: usize, y: usize, colour: u8)
    requires { (n ≤ top_level) × OnSheet n level x y × (length raster.old ≡ 4 ^ n) }
    ensures { Painted n (in_block level x y) (λ i j. colour) raster.old raster.new }
{
    match level {
        1 => fill_block(raster, n, 1, x, y, colour),
        2 => fill_block(raster, n, 2, x, y, colour),
        3 => fill_block(raster, n, 3, x, y, colour),
        4 => fill_block(raster, n, 4, x, y, colour),
        _ => fill_block(raster, n, level, x, y, colour),
    }
}
