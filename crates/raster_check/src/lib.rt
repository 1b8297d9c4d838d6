// The tests of a raster: its level, its length, its bytes.
#![tactic(auto)]

ghost use Rattle.std.specs.Prelude.{◌≡◌, ◌%◌, ◌≤◌, ◌^◌, nat_lt, position, length};
ghost use Rattle.quad.specs.Numbers.{top_level, top_colour};
ghost use Rattle.raster.specs.Raster.{raster_length, pixels_from};
ghost use Rattle.raster.specs.Blocks.{readable_of, NoneAbove};

use answer::{Outcome, Refusal};

// Whether a raster of level n has that many bytes.
pub fn raster_length(n: u32, bytes: usize) -> Outcome
    requires { n ≤ top_level }
    ensures { result ≡ raster_length n bytes }
{
    let across = quad::side(n) as usize;
    if bytes != across * across {
        return Err(Refusal::WrongLength { which: 1 });
    }
    Ok(0)
}

// A byte that no byte of a raster of four parts is above: the highest, found without a way out, so that many are looked
// at together, from all four parts.
fn highest(raster: &[u8]) -> u8
    requires { length raster.now % 4 ≡ 0 }
    ensures { NoneAbove result raster.now }
{
    let part = raster.len() / 4;
    let mut most = 0;
    for i in 0..part {
        let north = raster[i].max(raster[part + i]);
        let south = raster[2 * part + i].max(raster[3 * part + i]);
        most = most.max(north.max(south));
    }
    most
}

// The place of the first byte that is no colour.
fn first_bad(raster: &[u8]) -> Option<usize>
    ensures { result ≡ position (λ b. nat_lt top_colour b) raster.now }
{
    raster.iter().position(|b| quad::TOP_COLOUR < *b as usize)
}

// The first byte that is no colour, looked for only where the highest is none, or where there is one byte.
#[tactic(auto, using(raster::proofs::TestLaws::pixels_low))]
fn pixels(raster: &[u8]) -> Outcome
    requires { length raster.now ≤ 4 ^ top_level }
    ensures { result ≡ pixels_from raster.now 0 }
{
    if raster.len() % 4 == 0 && highest(raster) as usize <= quad::TOP_COLOUR {
        return Ok(0);
    }
    match first_bad(raster) {
        Some(i) => Err(Refusal::BadPixel { place: i as u32 }),
        None => Ok(0),
    }
}

// The tests for 1, 2 and 8.
pub fn readable(n: u32, raster: &[u8]) -> Outcome
    ensures { result ≡ readable_of n raster.now }
{
    if quad::TOP_LEVEL < n {
        return Err(Refusal::BadLevel { place: 0 });
    }
    raster_length(n, raster.len())?;
    pixels(raster)
}
