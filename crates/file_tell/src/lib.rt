// Reading a sheet file byte by byte: the first fault, with its place. File and place stay two values, as a place is what
// is handed back, with a fault too.
#![tactic(auto)]

ghost use Rattle.std.specs.Prelude.{◌≡◌, ◌+◌, ◌<◌, ◌≤◌, length};
ghost use Rattle.file.specs.File.{block_at, four_at};
ghost use Rattle.file.specs.Reading.{byte_of, marks_of, record_of, told, Reaches, FourReach, header_of, count_of, closing_of};

use answer::{Outcome, Refusal};
use file::{Block, Contents, MARK, NODE, SHEET};

// The byte at a place, where it is there.
fn byte_at(file: &[u8], at: u32) -> Result<u8, Refusal>
    ensures { result ≡ byte_of file.now at }
{
    file.get(at as usize)
        .copied()
        .ok_or(Refusal::Absent { place: at })
}

// The two mark bytes at a place, or the first fault.
fn marks(file: &[u8], at: u32, second: u8) -> Result<(), Refusal>
    requires { at + 1 < 4294967296 }
    ensures { result ≡ marks_of file.now at second }
{
    if byte_at(file, at)? != MARK {
        return Err(Refusal::BadByte { place: at });
    }
    if byte_at(file, at + 1)? != second {
        return Err(Refusal::BadByte { place: at + 1 });
    }
    Ok(())
}

// A node record: the place after it and its type, or the first fault.
fn read_record(file: &[u8], at: u32) -> Result<Block, Refusal>
    requires { at + 3 < 4294967296 }
    ensures { result ≡ record_of file.now at }
{
    marks(file, at, NODE)?;
    let kind = usize::from(byte_at(file, at + 2)?);
    if !quad::is_type(kind) {
        return Err(Refusal::BadByte { place: at + 2 });
    }
    Ok(Block { next: at + 3, kind })
}

// A block: a leaf record, or a fork record followed by four blocks.
#[cycle(read_block_read_four)]
pub fn read_block(file: &[u8], level: u32, at: u32) -> Result<Block, Refusal>
    requires { Reaches level at }
    ensures { result ≡ told (block_at file.now level at) }
{
    let root = read_record(file, at)?;
    if root.kind != quad::FORK {
        return Ok(root);
    }
    if level == 0 {
        return Err(Refusal::TooDeep { at: at + 2 });
    }
    read_four(file, level - 1, root.next)
}

// Four blocks, one after the other.
#[cycle(read_block_read_four)]
fn read_four(file: &[u8], level: u32, at: u32) -> Result<Block, Refusal>
    requires { FourReach level at }
    ensures { result ≡ told (four_at (block_at file.now level) at) }
{
    let nw = read_block(file, level, at)?;
    let ne = read_block(file, level, nw.next)?;
    let sw = read_block(file, level, ne.next)?;
    let se = read_block(file, level, sw.next)?;
    if quad::like_leaves(nw.kind, ne.kind, sw.kind, se.kind) {
        return Err(Refusal::NeedlessFork { at: sw.next + 2 });
    }
    Ok(Block {
        next: se.next,
        kind: quad::FORK,
    })
}

// The header: its level as the answer, or the first fault.
pub fn read_header(file: &[u8]) -> Outcome
    ensures { result ≡ header_of file.now }
{
    marks(file, 0, SHEET)?;
    let level = u32::from(byte_at(file, 2)?);
    if quad::TOP_LEVEL < level {
        return Err(Refusal::BadLevel { place: 2 });
    }
    byte_at(file, 3)?;
    byte_at(file, 4)?;
    Ok(level)
}

// The node count that the header names.
fn header_count(file: &[u8]) -> u32
    requires { 5 ≤ length file.now }
    ensures { result ≡ count_of file.now }
{
    u32::from(u16::from_le_bytes([file[3], file[4]]))
}

// After the block, which ends before a place: the node count, then the bytes left over.
pub fn close(file: &[u8], level: u32, at: u32) -> Result<Contents, Refusal>
    requires { (5 ≤ at) × (5 ≤ length file.now) }
    ensures { result ≡ closing_of file.now level at }
{
    let count = (at - 5) / 3;
    if header_count(file) != count {
        return Err(Refusal::BadCount { place: 3 });
    }
    if (at as usize) < file.len() {
        return Err(Refusal::BadCount { place: at });
    }
    Ok(Contents { level, count })
}
