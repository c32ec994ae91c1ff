// Steps along the pairs, by parent words, and the leaf edge of a start bound (navigate.rs).
#![tactic(auto)]

ghost use Rattle.std.specs.Prelude.{◌≡◌};
ghost use Rattle.model.specs.Tree.{top};
ghost use Rattle.model.specs.Search.{sink};
ghost use Rattle.model.specs.Range.{starts};
ghost use Rattle.model.specs.Walk.{next_kv, back_kv, next_edge, back_edge};
ghost use Rattle.model.specs.State.{State};
ghost use Rattle.model.specs.WellFormed.{WellFormed};
ghost use Rattle.model.specs.Promise.{Holds};
ghost use Rattle.search.specs.Results.{leaf_edge};
ghost use Rattle.navigate.specs.Places.{In, EdgeAt, KvAt, stepped};

use model::SearchBound;
use node::{Place, ascend, edge, keys, len};
use search::{Handle, find_lower_bound_index};

// The pair right of a leaf edge, in its leaf or above.
// Stays a clause of each, that the handle is a place of the tree: a Handle holds no words, so it cannot say of which arena.
// Stays a loop, as the way back does: no index is counted, it climbs until a node has a pair on that side.
pub fn next_kv(a: &[u64], from: Handle) -> Option<Handle>
    requires { In a.now (λ s. EdgeAt s from) }
    ensures { (s : State) → Holds a.now s → (y : EdgeAt s from) → result ≡ stepped (next_kv y.way) }
{
    let mut edge = from;
    loop {
        if edge.at.0 < len(a, edge.node) {
            return Some(edge);
        }
        let (node, at) = ascend(a, edge.node)?;
        let height = edge.height + 1;
        edge = Handle { node, height, at };
    }
}

// The pair left of a leaf edge, in its leaf or above.
// Stays beside next_kv: the Rust's names (rust/NOTICE).
pub fn next_back_kv(a: &[u64], from: Handle) -> Option<Handle>
    requires { In a.now (λ s. EdgeAt s from) }
    ensures { (s : State) → Holds a.now s → (y : EdgeAt s from) → result ≡ stepped (back_kv y.way) }
{
    let mut edge = from;
    loop {
        if edge.at.0 > 0 {
            let at = Place(edge.at.0 - 1);
            return Some(Handle { at, ..edge });
        }
        let (node, at) = ascend(a, edge.node)?;
        let height = edge.height + 1;
        edge = Handle { node, height, at };
    }
}

// The leaf edge right of a pair: below its right edge, the first edge at each level.
pub fn next_leaf_edge(a: &[u64], kv: Handle) -> Handle
    requires { In a.now (λ s. KvAt s kv) }
    ensures { (s : State) → Holds a.now s → (y : KvAt s kv) → result ≡ leaf_edge (next_edge y.ctx y.no y.left y.hole y.item y.right) }
{
    let mut node = kv.node;
    let mut at = Place(kv.at.0 + 1);
    for _ in 0..kv.height {
        node = edge(a, node, at);
        at = Place(0);
    }
    Handle {
        node,
        height: 0,
        at,
    }
}

// The leaf edge left of a pair: below its left edge, the last edge at each level.
// Stays beside next_leaf_edge: the Rust's names (rust/NOTICE).
pub fn next_back_leaf_edge(a: &[u64], kv: Handle) -> Handle
    requires { In a.now (λ s. KvAt s kv) }
    ensures { (s : State) → Holds a.now s → (y : KvAt s kv) → result ≡ leaf_edge (back_edge y.ctx y.no y.left y.hole y.item y.right) }
{
    let mut node = kv.node;
    let mut at = kv.at;
    for _ in 0..kv.height {
        node = edge(a, node, at);
        at = Place(len(a, node));
    }
    Handle {
        node,
        height: 0,
        at,
    }
}

// The leaf edge before the first pair that a start bound admits. The child's bound replaces the bound on the way down.
pub fn lower_leaf_edge(a: &[u64], start: SearchBound) -> Handle
    requires { WellFormed a.now }
    ensures { (s : State) → Holds a.now s → result ≡ leaf_edge (sink (starts start) s.whole.height top s.whole.root) }
{
    let mut node = header::root(a);
    let mut bound = start;
    for _ in 0..header::height(a) {
        let (at, below) = find_lower_bound_index(keys(a, node), bound);
        bound = below;
        node = edge(a, node, at);
    }
    let (at, _) = find_lower_bound_index(keys(a, node), bound);
    Handle {
        node,
        height: 0,
        at,
    }
}
