// The pairs of nodes: of a leaf, or those of an internal node without its edges.
#![tactic(auto)]

ghost use Rattle.std.specs.Prelude.{◌≡◌, List, ℕ};
ghost use Rattle.model.specs.Layout.{NodeVal, Arena, nth};
ghost use Rattle.node.specs.Reading.{Has, pair_of, pair_at};
ghost use Rattle.model.specs.Nodes.{taken};
ghost use Rattle.store.specs.Links.{take_head};
ghost use Rattle.leaf.specs.Split.{CutReady, Cuttable, IsLeaf, Cut, split_nodes};
ghost use Rattle.leaf.specs.Pairs.{RoomAt, PairAt, LastReady, FirstReady, SplitReady, insert_pair, replace_pair, remove_pair, last_pairs, first_pairs, split_pairs};

use columns::{close_word, move_first, move_last, open_word, replace_word, set_len};
use node::{KEYS, Kv, LEAF, NodeNo, Place, VALS, len};
use store::take_node;

// A split: the pair that rises, and the node right of it.
#[derive(Clone, Copy)]
pub struct SplitResult {
    pub kv: Kv,
    pub right: NodeNo,
}

// Puts a pair in at an edge of a node that has room.
pub fn insert_fit(a: &mut [u64], n: NodeNo, at: Place, kv: Kv)
    requires { Has a.old (λ h ns. RoomAt ns n.0 at.0) }
    ensures { (h : List ℕ) (ns : List NodeVal) → RoomAt ns n.0 at.0 → Arena a.old h ns → Arena a.new h (insert_pair ns n.0 at.0 (pair_of kv)) }
{
    let count = len(a, n);
    let i = at.0;
    open_word(a, n, KEYS, i, kv.0);
    open_word(a, n, VALS, i, kv.1);
    set_len(a, n, count + 1);
}

// Puts a pair in the place of another, and hands that back.
pub fn replace_kv(a: &mut [u64], n: NodeNo, at: Place, kv: Kv) -> Kv
    requires { Has a.old (λ h ns. PairAt ns n.0 at.0) }
    ensures { (h : List ℕ) (ns : List NodeVal) → PairAt ns n.0 at.0 → Arena a.old h ns → (pair_of result ≡ pair_at (nth ns n.0).pairs at.0) × Arena a.new h (replace_pair ns n.0 at.0 (pair_of kv)) }
{
    let i = at.0;
    let key = replace_word(a, n, KEYS, i, kv.0);
    let val = replace_word(a, n, VALS, i, kv.1);
    Kv(key, val)
}

// Moves the pairs after a place to a new node, and takes the pair at the place out.
pub fn split_leaf_data(a: &mut [u64], n: NodeNo, new: NodeNo, at: Place) -> Kv
    requires { Has a.old (λ h ns. SplitReady ns n.0 new.0 at.0) }
    ensures { (h : List ℕ) (ns : List NodeVal) → SplitReady ns n.0 new.0 at.0 → Arena a.old h ns → (pair_of result ≡ pair_at (nth ns n.0).pairs at.0) × Arena a.new h (split_pairs ns n.0 new.0 at.0) }
{
    let i = at.0;
    move_last_pairs(a, n, new, Place(i + 1));
    remove(a, n, at)
}

// Splits a leaf at a pair, which rises; the pairs after it go to a new leaf.
pub fn split(a: &mut [u64], n: NodeNo, at: Place) -> SplitResult
    requires { Has a.old (λ h ns. Cuttable h ns n.0 at.0) }
    ensures { (h : List ℕ) (ns : List NodeVal) (free : List ℕ) → CutReady h ns free n.0 at.0 → IsLeaf (nth ns n.0) → Arena a.old h ns → Cut free ns n.0 at.0 result.right.0 (pair_of result.kv) × Arena a.new (take_head h free) (split_nodes ns n.0 (taken free) at.0) }
{
    let right = take_node(a, LEAF);
    let kv = split_leaf_data(a, n, right, at);
    SplitResult { kv, right }
}

// Takes the pair at a place out.
pub fn remove(a: &mut [u64], n: NodeNo, at: Place) -> Kv
    requires { Has a.old (λ h ns. PairAt ns n.0 at.0) }
    ensures { (h : List ℕ) (ns : List NodeVal) → PairAt ns n.0 at.0 → Arena a.old h ns → (pair_of result ≡ pair_at (nth ns n.0).pairs at.0) × Arena a.new h (remove_pair ns n.0 at.0) }
{
    let count = len(a, n);
    let i = at.0;
    let key = close_word(a, n, KEYS, i);
    let val = close_word(a, n, VALS, i);
    set_len(a, n, count - 1);
    Kv(key, val)
}

// Moves the pairs of the left node from a place on before those of the right one.
pub fn move_last_pairs(a: &mut [u64], left: NodeNo, right: NodeNo, from: Place)
    requires { Has a.old (λ h ns. LastReady ns left.0 right.0 from.0) }
    ensures { (h : List ℕ) (ns : List NodeVal) → LastReady ns left.0 right.0 from.0 → Arena a.old h ns → Arena a.new h (last_pairs ns left.0 right.0 from.0) }
{
    let i = from.0;
    let count = len(a, left) - i;
    let old = len(a, right);
    move_last(a, left, right, KEYS, i, count, old);
    move_last(a, left, right, VALS, i, count, old);
    set_len(a, left, i);
    set_len(a, right, old + count);
}

// Moves the first `count` pairs of the right node behind those of the left one.
// Stays beside move_last_pairs, as columns::move_first beside move_last.
pub fn move_first_pairs(a: &mut [u64], left: NodeNo, right: NodeNo, count: usize)
    requires { Has a.old (λ h ns. FirstReady ns left.0 right.0 count) }
    ensures { (h : List ℕ) (ns : List NodeVal) → FirstReady ns left.0 right.0 count → Arena a.old h ns → Arena a.new h (first_pairs ns left.0 right.0 count) }
{
    let i = len(a, left);
    let old = len(a, right);
    move_first(a, left, right, KEYS, i, count, old);
    move_first(a, left, right, VALS, i, count, old);
    set_len(a, left, i + count);
    set_len(a, right, old - count);
}
