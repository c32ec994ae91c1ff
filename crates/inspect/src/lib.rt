// The checker's tests of single parts: a node's own words, its children's links, the free chain, a key after another, the mark. They only read.
#![tactic(auto)]

ghost use Rattle.std.specs.Prelude.{◌≡◌, ℕ, ◌+◌, ◌≤◌, ◌<◌, fold, bit_or};
ghost use Rattle.model.specs.Layout.{least, most, node_size_by};
ghost use Rattle.model.specs.Words.{kind};
ghost use Rattle.model.specs.WellFormed.{UnusedZeroBy, FreeZeroBy, LinkedBy, ZerosBy, length_at_by, key_at_by, edges_used};
ghost use Rattle.model.specs.Shape.{OwnBy, ChainBy};
ghost use Rattle.inspect.specs.Tests.{Decides, HeadedBy, RestZeroBy, LeadsBy, Above, Marked, reached, ups, steps};

use formats::{Arena, Format};
use node::{
    CAPACITY, EDGES, INTERNAL, KEYS, LEAF, MIN_LEN, NONE, NodeNo, PARENT, PARENT_IDX, Place, STATE,
    TOTAL, VALS,
};

// How many words for keys have another one after them.
const STEPS: usize = 10;

// A node that an edge leads to: the levels below it, the fewest pairs it may hold, its number, the node and the edge that lead there.
// Stays a number, the parent: the word that the node must have there, NONE at the root.
#[derive(Clone, Copy)]
pub struct Visit {
    pub below: usize,
    pub fewest: usize,
    pub node: NodeNo,
    pub parent: u64,
    pub place: Place,
}

// All words ored: no branch comes between them.
fn ored(words: &[u64]) -> u64
    ensures { result ≡ fold bit_or 0 words.now }
{
    words.iter().fold(0, |all, word| all | *word)
}

// Whether the words of a node from `from` up to `to` are 0.
fn zeros<F: Format>(arena: &Arena<F>, node: NodeNo, from: usize, to: usize) -> bool
    requires { (node.0 < arena.now.count) × (from ≤ to) × (to ≤ node_size_by F.layout) }
    ensures { Decides result (ZerosBy F.layout arena.now.words.now node.0 from to) }
{
    let b = arena.base(node);
    ored(&arena.words[b + from..b + to]) == 0
}

// A word where it is not in use, and 0 where it is.
fn kept(x: u64, k: usize, from: usize) -> u64
    ensures { (from ≤ k → result ≡ x) × (k < from → result ≡ 0) }
{
    if k < from { 0 } else { x }
}

// Whether the words for keys and values that a node of n pairs, 5 or more, does not use are 0: `zeros`, with as many turns whatever n is.
fn rest_zero<F: Format>(arena: &Arena<F>, node: NodeNo, n: usize) -> bool
    requires { (node.0 < arena.now.count) × (least ≤ n) }
    ensures { Decides result (RestZeroBy F.layout arena.now.words.now node.0 n) }
{
    let b = arena.base(node);
    let mut all = 0;
    for i in MIN_LEN..CAPACITY {
        all |= kept(
            arena.words[b + (KEYS + i)] | arena.words[b + (VALS + i)],
            i,
            n,
        );
    }
    all == 0
}

// The state of a node with so many levels below it.
fn kind_of(below: usize) -> u64
    ensures { result ≡ kind below }
{
    if below == 0 { LEAF } else { INTERNAL }
}

// How many edge words are in use.
fn edges_used(below: usize, n: usize) -> usize
    requires { n ≤ most }
    ensures { result ≡ edges_used below n }
{
    if below == 0 { 0 } else { n + 1 }
}

// Whether the words that a node of n pairs does not use are 0.
fn unused<F: Format>(arena: &Arena<F>, v: Visit, n: usize) -> bool
    requires { (v.node.0 < arena.now.count) × (n ≡ length_at_by F.layout arena.now.words.now v.node.0) × (n ≤ most) }
    ensures { Decides result (UnusedZeroBy F.layout arena.now.words.now (reached v)) }
{
    zeros(arena, v.node, KEYS + n, VALS)
        && zeros(arena, v.node, VALS + n, EDGES)
        && zeros(arena, v.node, EDGES + edges_used(v.below, n), TOTAL)
}

// Whether parent and edge index agree with the edge that led here.
fn linked<F: Format>(arena: &Arena<F>, v: Visit) -> bool
    requires { v.node.0 < arena.now.count }
    ensures { Decides result (LinkedBy F.layout arena.now.words.now (reached v)) }
{
    arena.parent(v.node) == v.parent && arena.parent_idx(v.node) == v.place.0 as u64
}

// Whether there is the node, and its state, length and link are right.
fn headed<F: Format>(arena: &Arena<F>, v: Visit) -> bool
    ensures { Decides result (HeadedBy F.layout arena.now.words.now arena.now.count (reached v)) }
{
    if v.node.0 >= arena.count || arena.state(v.node) != kind_of(v.below) {
        return false;
    }
    let n = arena.len(v.node);
    v.fewest <= n && n <= CAPACITY && linked(arena, v)
}

// Whether a node's own words are right.
pub fn own<F: Format>(arena: &Arena<F>, v: Visit) -> bool
    ensures { Decides result (OwnBy F.layout arena.now.words.now arena.now.count (reached v)) }
{
    headed(arena, v) && unused(arena, v, arena.len(v.node))
}

// The same of a leaf that is not the root, with no turns by its length.
// Stays beside `own`, and `rest_zero` beside `zeros`: tried with `own` in its place, a check took two fifths more instructions.
pub fn own_leaf<F: Format>(arena: &Arena<F>, v: Visit) -> bool
    requires { (v.below ≡ 0) × (v.fewest ≡ least) }
    ensures { Decides result (OwnBy F.layout arena.now.words.now arena.now.count (reached v)) }
{
    headed(arena, v)
        && zeros(arena, v.node, EDGES, TOTAL)
        && rest_zero(arena, v.node, arena.len(v.node))
}

// Whether all edges of a node of n pairs lead to nodes whose parent it is. This is looked at before any of them is followed, so that the
// reads of the children overlap.
pub fn lead<F: Format>(arena: &Arena<F>, node: NodeNo, n: usize) -> bool
    requires { (node.0 < arena.now.count) × (n ≤ most) }
    ensures { Decides result ((i : ℕ) → i < n + 1 → LeadsBy F.layout arena.now.words.now arena.now.count node.0 i) }
{
    for i in 0..n + 1 {
        let child = arena.edge(node, Place(i));
        if child.0 >= arena.count || arena.parent(child) != node.0 as u64 {
            return false;
        }
    }
    true
}

// Whether a free node's words are right, all but the link.
fn own_free<F: Format>(arena: &Arena<F>, node: NodeNo) -> bool
    requires { node.0 < arena.now.count }
    ensures { Decides result (FreeZeroBy F.layout arena.now.words.now node.0) }
{
    zeros(arena, node, STATE, PARENT) && zeros(arena, node, PARENT_IDX, F::WORDS)
}

// Whether just `free` free nodes are chained from `first` on, in rising order.
pub fn chain<F: Format>(arena: &Arena<F>, first: u64, free: u64) -> bool
    ensures { Decides result (ChainBy F.layout arena.now.words.now arena.now.count free first) }
{
    let mut at = first;
    for _ in 0..free {
        if at >= arena.count as u64 {
            return false;
        }
        let node = NodeNo(at as usize);
        if !own_free(arena, node) {
            return false;
        }
        let next = arena.parent(node);
        if next <= at {
            return false;
        }
        at = next;
    }
    at == NONE
}

// Whether a key may come next.
pub fn above(last: Option<u64>, key: u64) -> bool
    ensures { Decides result (Above last key) }
{
    last.is_none_or(|k| k < key)
}

// How many of the words for keys, but the last, are below the next one.
pub fn ascents<F: Format>(arena: &Arena<F>, node: NodeNo) -> usize
    requires { node.0 < arena.now.count }
    ensures { result ≡ ups (key_at_by F.layout arena.now.words.now node.0) steps }
{
    let mut m = 0;
    for i in 0..STEPS {
        m += usize::from(arena.key(node, Place(i)) < arena.key(node, Place(i + 1)));
    }
    m
}

// Whether mark seen and mark suit the last of all keys.
pub fn marked(seen: u64, mark: u64, last: Option<u64>) -> bool
    ensures { Decides result (Marked seen mark last) }
{
    match last {
        None => seen == 1 || (seen == 0 && mark == 0),
        Some(k) => seen == 1 && k <= mark,
    }
}
