// The library as C links it: each function of `sheet` under its C name, with its clauses, and nothing else
// (include/sheet.h is the manual).
// Kept for the C interface: a crate is a library for other crates or a static library, so each call stands here again.
#![tactic(auto)]

ghost use Rattle.sheet.specs.Calls.{Checks, Builds, Decodes, FindsNeighbour, FindsCornerLeaf, FindsDiagonalLeaf};
ghost use Rattle.sheet.specs.Calls.{FindsDistances, FindsPonds, ReadsFile, WritesFile, FindsCentre, ground_at};

#[unsafe(no_mangle)]
pub extern "C" fn sheet_check(n: u32, table: &[u32]) -> u64
    ensures { Checks n table.now result }
{
    sheet::sheet_check(n, table)
}

#[unsafe(no_mangle)]
pub extern "C" fn sheet_build(n: u32, raster: &[u8], table: &mut [u32]) -> u64
    ensures { Builds n raster.now table.old result table.new }
{
    sheet::sheet_build(n, raster, table)
}

#[unsafe(no_mangle)]
pub extern "C" fn sheet_decode(n: u32, table: &[u32], raster: &mut [u8]) -> u64
    ensures { Decodes n table.now raster.old result raster.new }
{
    sheet::sheet_decode(n, table, raster)
}

#[unsafe(no_mangle)]
pub extern "C" fn sheet_neighbour(n: u32, table: &[u32], node: u32, direction: u32) -> u64
    ensures { FindsNeighbour n table.now node direction result }
{
    sheet::sheet_neighbour(n, table, node, direction)
}

#[unsafe(no_mangle)]
pub extern "C" fn sheet_corner_leaf(n: u32, table: &[u32], node: u32, side: u32, corner: u32) -> u64
    ensures { FindsCornerLeaf n table.now node side corner result }
{
    sheet::sheet_corner_leaf(n, table, node, side, corner)
}

#[unsafe(no_mangle)]
pub extern "C" fn sheet_diagonal_leaf(n: u32, table: &[u32], node: u32, corner: u32) -> u64
    ensures { FindsDiagonalLeaf n table.now node corner result }
{
    sheet::sheet_diagonal_leaf(n, table, node, corner)
}

#[unsafe(no_mangle)]
pub extern "C" fn sheet_distance(n: u32, table: &[u32], distances: &mut [u32]) -> u64
    ensures { FindsDistances n table.now distances.old result distances.new }
{
    sheet::sheet_distance(n, table, distances)
}

#[unsafe(no_mangle)]
pub extern "C" fn sheet_ponds(n: u32, table: &[u32], numbers: &mut [u32], reg: &mut [u32]) -> u64
    ensures { FindsPonds n table.now numbers.old reg.old result
        numbers.new reg.new }
{
    sheet::sheet_ponds(n, table, numbers, reg)
}

#[unsafe(no_mangle)]
pub extern "C" fn sheet_read(file: &[u8], table: &mut [u32]) -> u64
    ensures { ReadsFile file.now table.old result table.new }
{
    sheet::sheet_read(file, table)
}

#[unsafe(no_mangle)]
pub extern "C" fn sheet_write(n: u32, table: &[u32], file: &mut [u8]) -> u64
    ensures { WritesFile n table.now file.old result file.new }
{
    sheet::sheet_write(n, table, file)
}

#[unsafe(no_mangle)]
pub extern "C" fn sheet_centre(
    n: u32,
    table: &[u32],
    node: u32,
    east: f64,
    north: f64,
    step: f64,
    place: &mut [f64],
) -> u64
    ensures { FindsCentre n table.now node (ground_at east north step) place.old result
        place.new }
{
    sheet::sheet_centre(n, table, node, east, north, step, place)
}
