// Two sets joined, and a leaf labelled by what it touches.
#![tactic(auto)]

ghost use Rattle.std.specs.Prelude.{◌≡◌, ◌≤◌};
ghost use Rattle.ponds_sets.specs.Walk.{Facing, Meets, Nexts};
ghost use Rattle.ponds_sets.specs.Touch.{first_nonzero, black_of, Touching, LabelsAs, one_if_nonzero, differ_of};
ghost use Rattle.ponds_sets.specs.Sets.{Asking, Led, Shorter, Joining, Joined};

// From this number on a word is a leader's. It stays a number: the words are lent by the caller, and there is no other memory.
pub const LEADING: u32 = 2147483648;

// The leader of p's set: where the words from p end.
fn leader(words: &[u32], p: u32) -> u32
    requires { Asking words.now p }
    ensures { Led words.now p result }
{
    let mut q = p;
    let mut word = words[q as usize];
    while word < LEADING {
        q = word;
        word = words[q as usize];
    }
    q
}

// The leader of p's set; p's word leads there at once from now on.
fn root(words: &mut [u32], p: u32) -> u32
    requires { Asking words.old p }
    ensures { Shorter words.old p words.new result }
{
    let r = leader(words, p);
    if r != p {
        words[p as usize] = r;
    }
    r
}

// Joins the sets of p and q: the leader that begins later by rows goes under the other.
fn join(words: &mut [u32], p: u32, q: u32)
    requires { Joining words.old p q }
    ensures { Joined words.old p q words.new }
{
    let a = root(words, p);
    let b = root(words, q);
    if a == b {
        return;
    }
    if words[a as usize] < words[b as usize] {
        words[b as usize] = a;
        return;
    }
    words[a as usize] = b;
}

// The first of two numbers that is not 0.
#[tactic(auto, unfolding(ponds_sets::specs::Touch::first_nonzero))]
pub fn first_nonzero(a: u32, b: u32) -> u32
    ensures { result ≡ first_nonzero a b }
{
    if a == 0 { b } else { a }
}

// A number for a black leaf's type, else 0.
#[tactic(auto, unfolding(ponds_sets::specs::Touch::black_of))]
fn black_of(kind: usize, a: u32) -> u32
    ensures { result ≡ black_of kind a }
{
    if kind == quad::BLACK { a } else { 0 }
}

// 1 for a number that is not 0, else 0.
#[tactic(auto, unfolding(ponds_sets::specs::Touch::one_if_nonzero))]
fn one_if_nonzero(a: u32) -> usize
    ensures { (result ≡ one_if_nonzero a) × (result ≤ 1) }
{
    (a != 0) as usize
}

// 1 for two labels that differ, else 0.
#[tactic(auto, unfolding(ponds_sets::specs::Touch::differ_of))]
pub fn apart(a: u32, b: u32) -> usize
    ensures { (result ≡ differ_of a b) × (result ≤ 1) }
{
    (a != b) as usize
}

// The label of leaf p: of those north and west of its top left pixel the first that is not 0, or p itself; 0 for a
// white leaf. Where both are black leaves' and differ, their sets are joined; no test on the map comes before that.
// A label stays a word in which 0 is none, as the lines, fixed memory, hold it: many are compared at once (`Lines::quiet`).
pub fn touch(words: &mut [u32], kind: usize, p: usize, north: u32, west: u32, place: u32) -> u32
    requires { Touching words.old kind p north west place }
    ensures { LabelsAs words.old kind p north west place words.new result }
{
    let first = first_nonzero(north, west);
    let label = black_of(kind, first_nonzero(first, p as u32));
    words[p] = black_of(kind, first_nonzero(first, LEADING + place));
    if kind + one_if_nonzero(west) + apart(label, west) == 3 {
        join(words, label, west);
    }
    label
}

// Joins a label with another that is not 0.
fn meet(words: &mut [u32], label: u32, other: u32)
    requires { Facing words.old label other }
    ensures { Meets words.old label other words.new }
{
    if first_nonzero(other, label) != label {
        join(words, label, other);
    }
}

// Joins a label with the next one along a side; nothing is done where that is the one before, which it has met already.
pub fn next(words: &mut [u32], label: u32, other: u32, before: u32)
    requires { Facing words.old label other }
    ensures { Nexts words.old label other before words.new }
{
    if other == before {
        return;
    }
    meet(words, label, other);
}
