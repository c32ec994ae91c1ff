// Internal nodes: a pair put in with the edge right of it, the split, and levels put on the tree and taken off.
#![tactic(auto)]

ghost use Rattle.std.specs.Prelude.{◌≡◌, List, ℕ};
ghost use Rattle.model.specs.Layout.{NodeVal, Arena};
ghost use Rattle.node.specs.Reading.{Has, pair_of};
ghost use Rattle.model.specs.Nodes.{taken};
ghost use Rattle.store.specs.Links.{take_head};
ghost use Rattle.leaf.specs.Split.{CutReady, Cuttable, Cut, split_nodes};
ghost use Rattle.internal.specs.Inner.{Branches, FitReady, fit_nodes, CrownReady, Crownable, crown_nodes, PushReady, Pushable, push_head, push_nodes, PopReady, Poppable, pop_head, pop_nodes};

use columns::{insert_word, move_last, remove_word};
use leaf::{SplitResult, split_leaf_data};
use node::{EDGES, INTERNAL, Kv, NodeNo, Place, len};
use store::{
    clear_parent_link, correct_childrens_parent_links, return_node, set_parent_link, take_node,
};

// Takes an internal node above a node that hangs nowhere, which becomes its only edge.
pub fn new_internal(a: &mut [u64], child: NodeNo) -> NodeNo
    requires { Has a.old (λ h ns. Crownable h ns child.0) }
    ensures { (h : List ℕ) (ns : List NodeVal) (free : List ℕ) → CrownReady h ns free child.0 → Arena a.old h ns → (result.0 ≡ taken free) × Arena a.new (take_head h free) (crown_nodes ns (taken free) child.0) }
{
    let top = take_node(a, INTERNAL);
    insert_word(a, top, EDGES, 0, 0, child.0 as u64);
    set_parent_link(a, child, top, Place(0));
    top
}

// Puts a new root above the root, with the old one as its only edge.
pub fn push_internal_level(a: &mut [u64]) -> NodeNo
    requires { Has a.old (λ h ns. Pushable h ns) }
    ensures { (h : List ℕ) (ns : List NodeVal) (free : List ℕ) → PushReady h ns free → Arena a.old h ns → (result.0 ≡ taken free) × Arena a.new (push_head h free) (push_nodes h free ns) }
{
    let old = header::root(a);
    let height = header::height(a) + 1;
    let top = new_internal(a, old);
    header::set_root(a, top, height);
    top
}

// Takes the root off, which has no pairs; its only child becomes the root.
pub fn pop_internal_level(a: &mut [u64])
    requires { Has a.old (λ h ns. Poppable h ns) }
    ensures { (h : List ℕ) (ns : List NodeVal) (free : List ℕ) → PopReady h ns free → Arena a.old h ns → Arena a.new (pop_head h free ns) (pop_nodes h free ns) }
{
    let top = header::root(a);
    let height = header::height(a) - 1;
    let child = NodeNo(remove_word(a, top, EDGES, 1, 0) as usize);
    clear_parent_link(a, child);
    return_node(a, top);
    header::set_root(a, child, height);
}

// Puts a pair in at an edge of an internal node that has room, and an edge right of it.
pub fn insert_fit(a: &mut [u64], n: NodeNo, at: Place, kv: Kv, right: NodeNo)
    requires { Has a.old (λ h ns. FitReady ns n.0 at.0 right.0) }
    ensures { (h : List ℕ) (ns : List NodeVal) → FitReady ns n.0 at.0 right.0 → Arena a.old h ns → Arena a.new h (fit_nodes ns n.0 at.0 (pair_of kv) right.0) }
{
    let next = at.0 + 1;
    let count = len(a, n) + 1;
    leaf::insert_fit(a, n, at, kv);
    insert_word(a, n, EDGES, count, next, right.0 as u64);
    correct_childrens_parent_links(a, n, next, count + 1);
}

// Splits an internal node at a pair, which rises; the pairs and edges after it go to a new node.
// Stays beside leaf::split: the Rust's names (rust/NOTICE).
pub fn split(a: &mut [u64], n: NodeNo, at: Place) -> SplitResult
    requires { Has a.old (λ h ns. Cuttable h ns n.0 at.0 × Branches ns n.0) }
    ensures { (h : List ℕ) (ns : List NodeVal) (free : List ℕ) → CutReady h ns free n.0 at.0 → Branches ns n.0 → Arena a.old h ns → Cut free ns n.0 at.0 result.right.0 (pair_of result.kv) × Arena a.new (take_head h free) (split_nodes ns n.0 (taken free) at.0) }
{
    let next = at.0 + 1;
    let count = len(a, n) - at.0;
    let right = take_node(a, INTERNAL);
    let kv = split_leaf_data(a, n, right, at);
    move_last(a, n, right, EDGES, next, count, 0);
    correct_childrens_parent_links(a, right, 0, count);
    SplitResult { kv, right }
}
