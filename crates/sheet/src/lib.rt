// The exported C calls, and nothing else: each calls one function of a floor below and packs code and value
// (include/sheet.h is the manual).
#![tactic(auto, unfolding(crate::specs::Calls::Gives))]

ghost use Rattle.sheet.specs.Calls.{Checks, Builds, Decodes, FindsNeighbour, FindsCornerLeaf, FindsDiagonalLeaf};
ghost use Rattle.sheet.specs.Calls.{FindsDistances, FindsPonds, ReadsFile, WritesFile, FindsCentre, ground_at};

use ground::Ground;

#[unsafe(no_mangle)]
pub extern "C" fn sheet_check(n: u32, table: &[u32]) -> u64
    ensures { Checks n table.now result }
{
    answer::number(table_check::check(n, table))
}

#[unsafe(no_mangle)]
pub extern "C" fn sheet_build(n: u32, raster: &[u8], table: &mut [u32]) -> u64
    ensures { Builds n raster.now table.old result table.new }
{
    answer::number(raster_build::build(n, raster, table))
}

#[unsafe(no_mangle)]
pub extern "C" fn sheet_decode(n: u32, table: &[u32], raster: &mut [u8]) -> u64
    ensures { Decodes n table.now raster.old result raster.new }
{
    answer::number(raster_decode::decode(n, table, raster))
}

#[unsafe(no_mangle)]
pub extern "C" fn sheet_neighbour(n: u32, table: &[u32], node: u32, direction: u32) -> u64
    ensures { FindsNeighbour n table.now node direction result }
{
    answer::number(neighbour_find::neighbour(n, table, node, direction))
}

#[unsafe(no_mangle)]
pub extern "C" fn sheet_corner_leaf(n: u32, table: &[u32], node: u32, side: u32, corner: u32) -> u64
    ensures { FindsCornerLeaf n table.now node side corner result }
{
    answer::number(neighbour_corner::corner_leaf(n, table, node, side, corner))
}

#[unsafe(no_mangle)]
pub extern "C" fn sheet_diagonal_leaf(n: u32, table: &[u32], node: u32, corner: u32) -> u64
    ensures { FindsDiagonalLeaf n table.now node corner result }
{
    answer::number(neighbour_corner::diagonal_leaf(n, table, node, corner))
}

#[unsafe(no_mangle)]
pub extern "C" fn sheet_distance(n: u32, table: &[u32], distances: &mut [u32]) -> u64
    ensures { FindsDistances n table.now distances.old result distances.new }
{
    answer::number(distance_fill::distances(n, table, distances))
}

#[unsafe(no_mangle)]
pub extern "C" fn sheet_ponds(n: u32, table: &[u32], numbers: &mut [u32], reg: &mut [u32]) -> u64
    ensures { FindsPonds n table.now numbers.old reg.old result
        numbers.new reg.new }
{
    answer::number(ponds_find::in_words(n, table, numbers, reg))
}

#[unsafe(no_mangle)]
pub extern "C" fn sheet_read(file: &[u8], table: &mut [u32]) -> u64
    ensures { ReadsFile file.now table.old result table.new }
{
    answer::number(file_read::read(file, table))
}

#[unsafe(no_mangle)]
pub extern "C" fn sheet_write(n: u32, table: &[u32], file: &mut [u8]) -> u64
    ensures { WritesFile n table.now file.old result file.new }
{
    answer::number(file_write::write(n, table, file))
}

// East, north and step go by themselves, not as a Ground: the C interface.
#[unsafe(no_mangle)]
pub extern "C" fn sheet_centre(
    n: u32,
    table: &[u32],
    node: u32,
    east: f64,
    north: f64,
    step: f64,
    place: &mut [f64],
) -> u64
    ensures { FindsCentre n table.now node (ground_at east north step) place.old result
        place.new }
{
    let g = Ground { east, north, step };
    answer::number(ground_centre::centre(n, table, node, g, place))
}
