// Removal of a pair (remove.rs), and delete behind a checked arena (map.rs's remove).
#![tactic(auto)]

ghost use Rattle.std.specs.Prelude.{true, ◌≡◌, ◌+◌, ◌≤◌, ◌<◌};
ghost use Rattle.model.specs.Layout.{most, word_at, length_word, keys_word};
ghost use Rattle.model.specs.State as model;
ghost use Rattle.model.specs.WellFormed.{WellFormed};
ghost use Rattle.model.specs.Promise.{Holds, Does};
ghost use Rattle.model.specs.Answer.{said_found};
ghost use Rattle.node.specs.Reading.{Within, pair_of};
ghost use Rattle.navigate.specs.Places.{In, KvAt};
ghost use Rattle.remove.specs.Removals.{TakeCall, LeafKv, without, InnerKv, removed};

use fix::fix_node_and_affected_ancestors;
use internal::pop_internal_level;
use leaf::replace_kv;
use navigate::next_back_leaf_edge;
use node::{Kv, NodeNo, Place, key, len};
use search::{Handle, SearchResult, search_tree};
use totals::settle;

// Takes a pair out of its leaf, and sets counts right.
fn take_pair(a: &mut [u64], n: NodeNo, at: Place) -> Kv
    requires { In a.old (λ s. LeafKv s (record { node = n; height = 0; at = at })) }
    ensures { TakeCall a.old a.new n at result }
{
    let old = leaf::remove(a, n, at);
    settle(a, n);
    old
}

// Takes a pair out of its leaf. The leaf and its ancestors are repaired, and an internal root left empty is taken off.
pub fn remove_leaf_kv(a: &mut [u64], kv: Handle) -> Kv
    requires { In a.old (λ s. LeafKv s kv) }
    ensures { (s : model.State) → Holds a.old s → (y : LeafKv s kv) → (pair_of result ≡ y.item.pair) × Holds a.new (without s y) }
{
    let old = take_pair(a, kv.node, kv.at);
    header::count_off(a);
    if !fix_node_and_affected_ancestors(a, kv.node) && header::height(a) > 0 {
        pop_internal_level(a);
    }
    old
}

// Takes a pair out of an internal node: the pair before it, the last of the left subtree, is taken from its leaf, and replaces it
// wherever it then stands.
pub fn remove_internal_kv(a: &mut [u64], kv: Handle) -> Kv
    requires { In a.old (λ s. InnerKv s kv) }
    ensures { (s : model.State) → Holds a.old s → (y : InnerKv s kv) → (pair_of result ≡ y.kv.item.pair) × Holds a.new (removed s y.kv) }
{
    let k = key(a, kv.node, kv.at);
    let edge = next_back_leaf_edge(a, kv);
    let left_kv = remove_leaf_kv(
        a,
        Handle {
            node: edge.node,
            height: 0,
            at: Place(edge.at.0 - 1),
        },
    );
    if has_key(a, kv.node, kv.at, k) {
        return replace_kv(a, kv.node, kv.at, left_kv);
    }
    // The node was merged or lent pairs: the pair is found again.
    let SearchResult::Found(internal) = search_tree(a, k) else {
        return left_kv;
    };
    replace_kv(a, internal.node, internal.at, left_kv)
}

// Whether a node has a key at a place.
fn has_key(a: &[u64], n: NodeNo, at: Place, k: u64) -> bool
    requires { Within a.now n.0 × (at.0 < most) }
    ensures { result ≡ true → (at.0 < word_at a.now n.0 length_word) × (word_at a.now n.0 (keys_word + at.0) ≡ k) }
{
    at.0 < len(a, n) && key(a, n, at) == k
}

// Takes a pair out of any node.
pub fn remove_kv_tracking(a: &mut [u64], kv: Handle) -> Kv
    requires { In a.old (λ s. KvAt s kv) }
    ensures { (s : model.State) → Holds a.old s → (y : KvAt s kv) → (pair_of result ≡ y.item.pair) × Holds a.new (removed s y) }
{
    if kv.height == 0 {
        remove_leaf_kv(a, kv)
    } else {
        remove_internal_kv(a, kv)
    }
}

// Takes the pair of a key out, if it is there, and answers its value.
pub fn delete(a: &mut [u64], key: u64) -> Option<u64>
    requires { WellFormed a.old }
    ensures { (s : model.State) → Holds a.old s → Does (model.delete key s) a.new (said_found (Ok result)) }
{
    let SearchResult::Found(kv) = search_tree(a, key) else {
        return None;
    };
    let old = remove_kv_tracking(a, kv);
    Some(old.1)
}
