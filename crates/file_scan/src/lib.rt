// Reading a sheet file at speed: where its block ends, or nothing where something is wrong.
#![tactic(auto)]

ghost use Rattle.std.specs.Prelude.{◌≡◌, ◌+◌, ◌<◌, ◌≤◌, length, get_or};
ghost use Rattle.std.specs.Bool.{then_some};
ghost use Rattle.file.specs.File.{block_at, four_at};
ghost use Rattle.file.specs.Reading.{place_after, stands_at, FourBytes, pixel_types};

use file::{MARK, NODE};

// The type of the node record at a place.
pub fn type_at(file: &[u8], at: usize) -> usize
    requires { at + 3 ≤ length file.now }
    ensures { result ≡ get_or file.now (at + 2) 0 }
{
    usize::from(file[at + 2])
}

// Whether a whole node record stands at a place. Its marks are taken as one number. A truth, and the type is read behind
// it: an `Option` of the type, with `?`, took 4 % more time on full sheets.
#[tactic(auto, using(std::proofs::lemmas::Bool::Decides::nat_tests), unfolding(file::specs::Reading::stands_at))]
fn has_record(file: &[u8], at: usize) -> bool
    requires { at ≤ length file.now }
    ensures { result ≡ stands_at file.now at }
{
    file.len() - at >= 3
        && u16::from_le_bytes([file[at], file[at + 1]]) == u16::from_le_bytes([MARK, NODE])
        && quad::is_type(type_at(file, at))
}

// Four bytes as a number, the low byte first.
fn four_bytes(file: &[u8], at: usize) -> u32
    requires { at + 4 ≤ length file.now }
    ensures { FourBytes file.now at result }
{
    u32::from_le_bytes([file[at], file[at + 1], file[at + 2], file[at + 3]])
}

// Whether four types are those of a fork's four pixels: each is a colour, and they are not all alike.
#[tactic(auto, using(std::proofs::lemmas::Bool::Decides::nat_tests), unfolding(file::specs::Reading::pixel_types))]
fn are_pixels(nw: usize, ne: usize, sw: usize, se: usize) -> bool
    ensures { result ≡ pixel_types nw ne sw se }
{
    nw <= quad::TOP_COLOUR
        && ne <= quad::TOP_COLOUR
        && sw <= quad::TOP_COLOUR
        && se <= quad::TOP_COLOUR
        && !quad::like_leaves(nw, ne, sw, se)
}

// Whether four pixels stand at a place, one after the other. Their twelve bytes are taken as three numbers. A truth, and
// not the place after them: that would be picked, and the next read would wait for it (bench/SPEED.md).
fn pixels_stand(file: &[u8], at: usize) -> bool
    requires { at ≤ length file.now }
    ensures { place_after (four_at (block_at file.now 0) at) ≡ then_some result (at + 12) }
{
    if file.len() - at < 12 {
        return false;
    }
    let nw = file[at + 2];
    let ne = file[at + 5];
    let sw = file[at + 8];
    let se = file[at + 11];
    four_bytes(file, at) == u32::from_le_bytes([MARK, NODE, nw, MARK])
        && four_bytes(file, at + 4) == u32::from_le_bytes([NODE, ne, MARK, NODE])
        && four_bytes(file, at + 8) == u32::from_le_bytes([sw, MARK, NODE, se])
        && are_pixels(
            usize::from(nw),
            usize::from(ne),
            usize::from(sw),
            usize::from(se),
        )
}

// Four blocks of a level above 0, one after the other, read in the same way. A leaf, or a fork over four pixels, is
// read here, without a call, and each call hands on the one reference to the file.
fn scan(file: &&[u8], level: u32, at: usize) -> Option<usize>
    requires { (0 < level) × (at ≤ length file.now.now) × (length file.now.now < 18446744073709551616) }
    ensures { result ≡ place_after (four_at (block_at file.now.now level) at) }
{
    let mut next = at;
    let mut kinds = [0; 4];
    for q in 0..4 {
        if !has_record(*file, next) {
            return None;
        }
        let kind = type_at(*file, next);
        kinds[q] = kind;
        next += 3;
        if kind == quad::FORK {
            if level > 1 {
                next = scan(file, level - 1, next)?;
            } else if pixels_stand(*file, next) {
                next += 12;
            } else {
                return None;
            }
        }
    }
    if quad::like_leaves(kinds[0], kinds[1], kinds[2], kinds[3]) {
        return None;
    }
    Some(next)
}

// The block behind the header, read in the same way: the place after it.
pub fn scan_root(file: &[u8], level: u32) -> Option<usize>
    requires { 5 ≤ length file.now }
    ensures { result ≡ place_after (block_at file.now level 5) }
{
    if !has_record(file, 5) {
        return None;
    }
    if type_at(file, 5) != quad::FORK {
        return Some(8);
    }
    match level {
        0 => None,
        1 => pixels_stand(file, 8).then_some(20),
        _ => scan(&file, level - 1, 8),
    }
}
