// The programs' read: 15 straight after the test of n.
#![tactic(auto)]

ghost use Rattle.std.specs.Prelude.{◌≡◌};
ghost use Rattle.file_load.specs.Load.{too_large, Loads};

use answer::{Outcome, Refusal};

// The highest level that a program prints.
const PRINTED: usize = 5;

// Whether the file's header names a level that a sheet may have, and that no program prints.
#[tactic(auto, using(std::proofs::lemmas::Bool::Decides::nat_tests), unfolding(crate::specs::Load::too_large))]
fn too_large(file: &[u8]) -> bool
    ensures { result ≡ too_large file.now }
{
    match file {
        [file::MARK, file::SHEET, level, ..] => {
            let level = usize::from(*level);
            PRINTED < level && level <= quad::TOP_LEVEL as usize
        }
        _ => false,
    }
}

// As `file_read::read`, with 15 at the level's byte for a level above the highest printed.
pub fn load(file: &[u8], table: &mut [u32]) -> Outcome
    ensures { Loads file.now table.old result table.new }
{
    if too_large(file) {
        return Err(Refusal::TooLarge { place: 2 });
    }
    file_read::read(file, table)
}
