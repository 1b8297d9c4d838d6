// Quadtrees: a block's side, four like leaves, and document 000's four tables, read by direction and quadrant number.
#![tactic(auto)]

ghost use Rattle.std.specs.Prelude.{◌≡◌, cond, ◌<◌, ◌≤◌, ◌^◌, eqb};
ghost use Rattle.quad.specs.Numbers.{top_level, is_type};
ghost use Rattle.quad.specs.Direction.{adj_of, reflect_of, opquad_of, common_side_of};
ghost use Rattle.quad.specs.Tree.{like_types};

// The highest level of a sheet, and the most words of a table.
pub const TOP_LEVEL: u32 = 7;

pub const MAX_WORDS: usize = 131070;

// The types of a node are 0, white, to this, black, and a fork's. They stay numbers: they are words of a table, which C
// writes and reads.
pub const TOP_COLOUR: usize = 1;

pub const BLACK: usize = 1;

pub const FORK: usize = 2;

// "None", where a word names no node: a word too.
pub const NONE: usize = 4294967295;

// Rows are the sides N, E, S, W; columns the quadrants NW, NE, SW, SE. Both stay numbers: document 01 has these tables
// read by direction and quadrant number, and a quadrant is the place of a son's word and two digits of a block's place.
const ADJ: [[bool; 4]; 4] = [
    [true, true, false, false],
    [false, true, false, true],
    [false, false, true, true],
    [true, false, true, false],
];

const REFLECT: [[u8; 4]; 4] = [[2, 3, 0, 1], [1, 0, 3, 2], [2, 3, 0, 1], [1, 0, 3, 2]];

const OPQUAD: [u8; 4] = [3, 2, 1, 0];

// By two quadrants. 4, which is no side, stands where document 000 leaves it undefined; it stays a number, since
// `common_side_of`, which the table is proved against, has it.
const COMMONSIDE: [[u8; 4]; 4] = [[4, 0, 3, 4], [0, 4, 4, 1], [3, 4, 4, 2], [4, 1, 2, 4]];

// The side of a block, in pixels. A level stays a number: C gives it, and it falls by one with each link, so that a type
// with its bound would be made anew at each.
pub fn side(level: u32) -> u32
    requires { level ≤ top_level }
    ensures { result ≡ 2 ^ level }
{
    1 << level
}

// One number where two are the same, another where they differ; no branch is taken on which it is (for which a chain of
// `if` is no shorter).
pub fn pick(a: usize, b: usize, same: usize, other: usize) -> usize
    ensures { result ≡ cond (eqb a b) same other }
{
    if a == b { same } else { other }
}

// Whether four types are those of four like leaves, over which a fork is needless: none of the others differs from the
// first, and a fork's type does. They are counted and not tested in turn, as nothing tells beforehand which of them
// differs. Four numbers, as `like_types` has them, of which the laws speak.
pub fn like_leaves(nw: usize, ne: usize, sw: usize, se: usize) -> bool
    ensures { result ≡ like_types nw ne sw se }
{
    let differ = usize::from(nw != ne) + usize::from(nw != sw) + usize::from(nw != se);
    differ + 1 == usize::from(nw != FORK)
}

// Whether a number is a node's type: a colour, or a fork's.
pub fn is_type(kind: usize) -> bool
    ensures { result ≡ is_type kind }
{
    kind <= TOP_COLOUR || kind == FORK
}

// Whether the quadrant touches that side of its father's block.
pub fn adj(side: usize, quadrant: usize) -> bool
    requires { (side < 4) × (quadrant < 4) }
    ensures { result ≡ adj_of side quadrant }
{
    ADJ[side][quadrant]
}

// Which quadrant the block of equal size on that side of a quadrant is.
pub fn reflect(side: usize, quadrant: usize) -> usize
    requires { (side < 4) × (quadrant < 4) }
    ensures { result ≡ reflect_of side quadrant }
{
    usize::from(REFLECT[side][quadrant])
}

// The quadrant opposite.
pub fn opquad(quadrant: usize) -> usize
    requires { quadrant < 4 }
    ensures { result ≡ opquad_of quadrant }
{
    usize::from(OPQUAD[quadrant])
}

// The side of their father's block that two quadrants share; 4 where they share none.
#[tactic(auto, using(crate::proofs::TableLaws::common_side_rule))]
pub fn common_side(first: usize, second: usize) -> usize
    requires { (first < 4) × (second < 4) }
    ensures { result ≡ common_side_of first second }
{
    usize::from(COMMONSIDE[first][second])
}
