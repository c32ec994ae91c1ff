// Nodes of the arena: the two kinds of number, the places of a node's words, reading, and which pair of a full node rises.
#![tactic(auto)]

ghost use Rattle.std.specs.Prelude.{◌≡◌, ◌+◌, ◌<◌, ◌≤◌};
ghost use Rattle.model.specs.Lists.{part};
ghost use Rattle.model.specs.Layout.{base, most, node_size, state_word, length_word, parent_word, place_word, keys_word, values_word, edges_word, total_word, word_at};
ghost use Rattle.model.specs.Insert as model;
ghost use Rattle.node.specs.Reading.{Within, ascent_of, rising_of};

// No node: the parent of the root, the end of the free chain.
// Stays a number: the word that lies in the arena; `ascend` and `store::free_before` hand out options.
pub const NONE: u64 = 4_294_967_295;

// The words before the first node, and those of a node.
pub const HEADER: usize = 10;

pub const WORDS: usize = 39;

// The pairs that a node holds at most, and at least if it is not the root.
pub const CAPACITY: usize = 11;

pub const MIN_LEN: usize = 5;

// A node's state.
// Stays numbers: words of the arena; what the public `state` promises is the word itself, which in an arena not yet checked may be any.
pub const FREE: u64 = 0;

pub const LEAF: u64 = 1;

pub const INTERNAL: u64 = 2;

// The places of a node's words.
pub const STATE: usize = 0;

pub const LEN: usize = 1;

pub const PARENT: usize = 2;

pub const PARENT_IDX: usize = 3;

pub const KEYS: usize = 4;

pub const VALS: usize = 15;

pub const EDGES: usize = 26;

pub const TOTAL: usize = 38;

// The number of a node.
#[derive(Clone, Copy)]
pub struct NodeNo(pub usize);

// A place in a node: of a pair, or of an edge.
#[derive(Clone, Copy)]
pub struct Place(pub usize);

// A key and its value.
#[derive(Clone, Copy)]
pub struct Kv(pub u64, pub u64);

// Stays functions of the words and a number, each with its clause Within or Has, here and above: a view of a node would borrow the words and
// have to be made and proved again after each write.

// The index of a node's first word.
pub fn node_base(n: NodeNo) -> usize
    requires { base n.0 < 18446744073709551616 }
    ensures { result ≡ base n.0 }
{
    HEADER + WORDS * n.0
}

// The word k of a node.
fn word(a: &[u64], n: NodeNo, k: usize) -> u64
    requires { Within a.now n.0 × (k < node_size) }
    ensures { result ≡ word_at a.now n.0 k }
{
    let b = node_base(n);
    a[b + k]
}

// Free, leaf or internal.
pub fn state(a: &[u64], n: NodeNo) -> u64
    requires { Within a.now n.0 }
    ensures { result ≡ word_at a.now n.0 state_word }
{
    word(a, n, STATE)
}

// How many pairs a node holds.
pub fn len(a: &[u64], n: NodeNo) -> usize
    requires { Within a.now n.0 }
    ensures { result ≡ word_at a.now n.0 length_word }
{
    word(a, n, LEN) as usize
}

// How many pairs it and the nodes below it hold.
pub fn total(a: &[u64], n: NodeNo) -> u64
    requires { Within a.now n.0 }
    ensures { result ≡ word_at a.now n.0 total_word }
{
    word(a, n, TOTAL)
}

// The parent's number, or NONE; in a free node, the next free one or NONE.
pub fn parent(a: &[u64], n: NodeNo) -> u64
    requires { Within a.now n.0 }
    ensures { result ≡ word_at a.now n.0 parent_word }
{
    word(a, n, PARENT)
}

// The index of the parent's edge that leads here; 0 at the root.
pub fn parent_idx(a: &[u64], n: NodeNo) -> u64
    requires { Within a.now n.0 }
    ensures { result ≡ word_at a.now n.0 place_word }
{
    word(a, n, PARENT_IDX)
}

// The parent and its edge that lead to a node; the root has none.
pub fn ascend(a: &[u64], n: NodeNo) -> Option<(NodeNo, Place)>
    requires { Within a.now n.0 }
    ensures { result ≡ ascent_of (word_at a.now n.0 parent_word) (word_at a.now n.0 place_word) }
{
    let p = parent(a, n);
    if p == NONE {
        return None;
    }
    let i = parent_idx(a, n);
    Some((NodeNo(p as usize), Place(i as usize)))
}

// The part of the arena with just a node's keys.
pub fn keys(a: &[u64], n: NodeNo) -> &[u64]
    requires { Within a.now n.0 × (word_at a.now n.0 length_word ≤ most) }
    ensures { result.now ≡ part a.now (base n.0 + keys_word) (word_at a.now n.0 length_word) }
{
    let k = node_base(n) + KEYS;
    let e = k + len(a, n);
    &a[k..e]
}

// The key of a pair.
pub fn key(a: &[u64], n: NodeNo, at: Place) -> u64
    requires { Within a.now n.0 × (at.0 < most) }
    ensures { result ≡ word_at a.now n.0 (keys_word + at.0) }
{
    word(a, n, KEYS + at.0)
}

// Its value.
pub fn val(a: &[u64], n: NodeNo, at: Place) -> u64
    requires { Within a.now n.0 × (at.0 < most) }
    ensures { result ≡ word_at a.now n.0 (values_word + at.0) }
{
    word(a, n, VALS + at.0)
}

// The node that an edge leads to.
pub fn edge(a: &[u64], n: NodeNo, at: Place) -> NodeNo
    requires { Within a.now n.0 × (at.0 ≤ most) }
    ensures { result.0 ≡ word_at a.now n.0 (edges_word + at.0) }
{
    NodeNo(word(a, n, EDGES + at.0) as usize)
}

// One of two sides, with what it is there.
// Stays an enum: the Rust's own.
#[derive(Clone, Copy)]
pub enum LeftOrRight<T> {
    Left(T),
    Right(T),
}

// Which pair rises, and where the new one goes.
#[derive(Clone, Copy)]
pub struct Rising {
    pub middle: Place,
    pub insertion: LeftOrRight<Place>,
}

// Where a full node is split for an insertion at an edge.
pub fn splitpoint(edge: Place) -> Rising
    ensures { result ≡ rising_of (model.splitpoint edge.0) }
{
    let i = edge.0;
    match i {
        0..=4 => Rising {
            middle: Place(4),
            insertion: LeftOrRight::Left(Place(i)),
        },
        5 => Rising {
            middle: Place(5),
            insertion: LeftOrRight::Left(Place(5)),
        },
        6 => Rising {
            middle: Place(5),
            insertion: LeftOrRight::Right(Place(0)),
        },
        _ => Rising {
            middle: Place(6),
            insertion: LeftOrRight::Right(Place(i - 7)),
        },
    }
}
