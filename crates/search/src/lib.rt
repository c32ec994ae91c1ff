// Search in the tree: of a key, and of the edges of a range (search.rs).
#![tactic(auto)]

ghost use Rattle.std.specs.Prelude.{◌≡◌, ◌≤◌, length, drop};
ghost use Rattle.model.specs.Search as model;
ghost use Rattle.model.specs.Range.{key_index, lower_edge, upper_edge, fork_of};
ghost use Rattle.model.specs.State.{State};
ghost use Rattle.model.specs.Lists.{Rises};
ghost use Rattle.model.specs.WellFormed.{WellFormed};
ghost use Rattle.model.specs.Promise.{Holds};
ghost use Rattle.node.specs.Reading.{Within};
ghost use Rattle.search.specs.Results.{spotted, indexed, edged, forked, Among};

use model::{Range, SearchBound};
use node::{NodeNo, Place, edge, keys, node_base};

// A pair's or an edge's place: its node, the levels below that, and the place in it.
#[derive(Clone, Copy)]
pub struct Handle {
    pub node: NodeNo,
    pub height: usize,
    pub at: Place,
}

// The pair's place, or else the leaf edge where the search stopped.
// Stays an enum, as IndexResult does: the Rust's own, by name.
#[derive(Clone, Copy)]
pub enum SearchResult {
    Found(Handle),
    GoDown(Handle),
}

// A pair's place in a node, or the edge where it belongs.
#[derive(Clone, Copy)]
pub enum IndexResult {
    Kv(Place),
    Edge(Place),
}

// The node where the edges of a range part, both edges, and the bounds for its children.
#[derive(Clone, Copy)]
pub struct Parting {
    pub node: NodeNo,
    pub height: usize,
    pub lower: Place,
    pub upper: Place,
    pub bounds: Range,
}

// Down from the root. Of a node, each further cache line is asked for before its keys are scanned; the answer does not depend on what they hold.
// Stays a labelled loop over the levels: a rule of the project (docs/DECISIONS.md 3, 53).
pub fn search_tree(a: &[u64], key: u64) -> SearchResult
    requires { WellFormed a.now }
    ensures { (s : State) → Holds a.now s → result ≡ spotted (model.search key s.whole) }
{
    let mut node = header::root(a);
    let mut height = header::height(a);
    'levels: loop {
        let part = keys(a, node);
        let n = part.len();
        if n == 0 {
            break 'levels SearchResult::GoDown(Handle {
                node,
                height,
                at: Place(0),
            });
        }
        let met = if spread(a, node) == u64::MAX {
            part[0]
        } else {
            part[n - 1]
        };
        match halve(part, key, Place(0), met) {
            IndexResult::Kv(at) => break 'levels SearchResult::Found(Handle { node, height, at }),
            IndexResult::Edge(at) => {
                if height == 0 {
                    break 'levels SearchResult::GoDown(Handle { node, height, at });
                }
                node = edge(a, node, at);
                height -= 1;
            }
        }
    }
}

// A word of each further cache line of a node: asked for at once, the lines come at once.
fn spread(a: &[u64], n: NodeNo) -> u64
    requires { Within a.now n.0 }
{
    let b = node_base(n);
    a[b + 8] & a[b + 15] & a[b + 22] & a[b + 30]
}

// The highest node where the lower edge is smaller than the upper one, or the leaf edge where they coincide. The children's bounds
// replace the range on the way down.
// Stays a loop: no plainer, since behind a `for` over the levels the same would stand once more for the leaf.
pub fn search_tree_for_bifurcation(a: &[u64], range: Range) -> Result<Parting, Handle>
    requires { WellFormed a.now }
    ensures { (s : State) → Holds a.now s → result ≡ forked (fork_of range s.whole) }
{
    let mut node = header::root(a);
    let mut height = header::height(a);
    let mut bounds = range;
    loop {
        let part = keys(a, node);
        let (lower, start) = find_lower_bound_index(part, bounds.start);
        let (upper, end) = find_upper_bound_index(part, bounds.end, lower);
        bounds = Range { start, end };
        if lower.0 < upper.0 {
            return Ok(Parting {
                node,
                height,
                lower,
                upper,
                bounds,
            });
        }
        if height == 0 {
            return Err(Handle {
                node,
                height: 0,
                at: lower,
            });
        }
        node = edge(a, node, lower);
        height -= 1;
    }
}

// The place of a key among a node's keys, or the edge where it belongs, from a place on.
// Stays a clause, that the keys rise, of each function that takes them: a type that says it would be made at every node of a search.
pub fn find_key_index(keys: &[u64], key: u64, start: Place) -> IndexResult
    requires { (start.0 ≤ length keys.now) × Rises keys.now }
    ensures { result ≡ indexed (key_index key start.0 (drop start.0 keys.now)) }
{
    let n = keys.len();
    if start.0 == n {
        return IndexResult::Edge(start);
    }
    halve(keys, key, start, keys[n - 1])
}

// The same where there are keys: halves them until one or two are left. Until a key is met that is not smaller, any of them stands for it.
// Stays a scan of its own: too slow, since with std's binary_search in its place a get took 1.6 times as long, with partition_point 1.9 times.
#[inline]
fn halve(keys: &[u64], key: u64, start: Place, any: u64) -> IndexResult
    requires { Among any start.0 keys.now × Rises keys.now }
    ensures { result ≡ indexed (key_index key start.0 (drop start.0 keys.now)) }
{
    let mut i = start.0;
    let mut k = any;
    let mut size = keys.len() - i;
    while 2 < size {
        let rest = size / 2;
        let half = size - rest;
        let x = keys[i + half - 1];
        if x < key {
            i += half;
        } else {
            k = x;
        }
        size = rest;
    }
    let low = i;
    let x = keys[low];
    let y = keys[low + size - 1];
    i = low + size;
    if key <= y {
        k = y;
        i = low + size - 1;
    }
    if key <= x {
        k = x;
        i = low;
    }
    if k == key {
        return IndexResult::Kv(Place(i));
    }
    IndexResult::Edge(Place(i))
}

// The edge of a start bound in a node, and the bound for the child there.
pub fn find_lower_bound_index(keys: &[u64], bound: SearchBound) -> (Place, SearchBound)
    requires { Rises keys.now }
    ensures { result ≡ edged (lower_edge bound keys.now) }
{
    match bound {
        SearchBound::Included(key) => match find_key_index(keys, key, Place(0)) {
            IndexResult::Kv(i) => (i, SearchBound::AllExcluded),
            IndexResult::Edge(p) => (p, bound),
        },
        SearchBound::Excluded(key) => match find_key_index(keys, key, Place(0)) {
            IndexResult::Kv(i) => (Place(i.0 + 1), SearchBound::AllIncluded),
            IndexResult::Edge(p) => (p, bound),
        },
        SearchBound::AllIncluded => (Place(0), SearchBound::AllIncluded),
        SearchBound::AllExcluded => (Place(keys.len()), SearchBound::AllExcluded),
    }
}

// The same of an end bound, from a place on.
// Stays beside find_lower_bound_index: the Rust's names and cases (rust/NOTICE).
pub fn find_upper_bound_index(
    keys: &[u64],
    bound: SearchBound,
    start: Place,
) -> (Place, SearchBound)
    requires { (start.0 ≤ length keys.now) × Rises keys.now }
    ensures { result ≡ edged (upper_edge bound start.0 keys.now) }
{
    match bound {
        SearchBound::Included(key) => match find_key_index(keys, key, start) {
            IndexResult::Kv(p) => (Place(p.0 + 1), SearchBound::AllExcluded),
            IndexResult::Edge(p) => (p, bound),
        },
        SearchBound::Excluded(key) => match find_key_index(keys, key, start) {
            IndexResult::Kv(p) => (p, SearchBound::AllIncluded),
            IndexResult::Edge(p) => (p, bound),
        },
        SearchBound::AllIncluded => (Place(keys.len()), SearchBound::AllIncluded),
        SearchBound::AllExcluded => (start, SearchBound::AllExcluded),
    }
}
