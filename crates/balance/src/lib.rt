// Two neighbours under one parent: merged, or pairs moved from one to the other.
#![tactic(auto)]

ghost use Rattle.std.specs.Prelude.{◌≡◌, List, ℕ, ◌+◌, ◌-◌, ◌≤◌, leb, length};
ghost use Rattle.model.specs.Layout.{state_word, length_word, most, word_at, NodeVal, Arena, nth};
ghost use Rattle.node.specs.Reading.{Within, Has};
ghost use Rattle.store.specs.Links.{return_head};
ghost use Rattle.balance.specs.Moves.{edges_with, MergeReady, Mergeable, merge_nodes, StealReady, move_nodes};

use columns::{move_first, move_last, remove_word};
use leaf::{insert_fit, move_first_pairs, move_last_pairs, remove, replace_kv};
use node::{CAPACITY, EDGES, INTERNAL, NodeNo, Place, len, state};
use store::{correct_childrens_parent_links, return_node};

// `k` where the node is internal, and 0 where it is a leaf, which has no edges.
#[tactic(auto, unfolding(crate::specs::Moves::edges_with))]
fn edges_with(a: &[u64], n: NodeNo, k: usize) -> usize
    requires { Within a.now n.0 }
    ensures { result ≡ edges_with (word_at a.now n.0 state_word) k }
{
    if state(a, n) == INTERNAL { k } else { 0 }
}

// Two neighbours, and the place of the pair between them in their parent.
#[derive(Clone, Copy)]
pub struct BalancingContext {
    pub parent: NodeNo,
    pub at: Place,
    pub left: NodeNo,
    pub right: NodeNo,
}

impl BalancingContext {
    // The pairs of both neighbours and the one between them fit into one node.
    pub fn can_merge(self, a: &[u64]) -> bool
        requires { Within a.now self.left.0 × Within a.now self.right.0 × (word_at a.now self.left.0 length_word ≤ most) × (word_at a.now self.right.0 length_word ≤ most) }
        ensures { result ≡ leb (word_at a.now self.left.0 length_word + 1 + word_at a.now self.right.0 length_word) most }
    {
        len(a, self.left) + 1 + len(a, self.right) <= CAPACITY
    }

    // Moves the parent's pair and all that the right child holds to the left child, and returns the right one.
    pub fn do_merge(self, a: &mut [u64])
        requires { Has a.old (λ h ns. Mergeable h ns self.parent.0 self.at.0 self.left.0 self.right.0) }
        ensures { (h : List ℕ) (ns : List NodeVal) (free : List ℕ) → MergeReady h ns free self.parent.0 self.at.0 self.left.0 self.right.0 → Arena a.old h ns → Arena a.new (return_head h free self.right.0) (merge_nodes free ns self.parent.0 self.at.0 self.left.0 self.right.0) }
    {
        let next = self.at.0 + 1;
        let old_parent_len = len(a, self.parent);
        let old_left_len = len(a, self.left);
        let right_len = len(a, self.right);
        let left_edges = edges_with(a, self.left, old_left_len + 1);
        let right_edges = edges_with(a, self.right, right_len + 1);
        let kv = remove(a, self.parent, self.at);
        insert_fit(a, self.left, Place(old_left_len), kv);
        move_first_pairs(a, self.left, self.right, right_len);
        remove_word(a, self.parent, EDGES, old_parent_len + 1, next);
        move_first(
            a,
            self.left,
            self.right,
            EDGES,
            left_edges,
            right_edges,
            right_edges,
        );
        correct_childrens_parent_links(a, self.left, left_edges, left_edges + right_edges);
        correct_childrens_parent_links(a, self.parent, next, old_parent_len);
        return_node(a, self.right);
    }

    // Moves `count` pairs from the left child to the right one, through the parent's pair.
    pub fn bulk_steal_left(self, a: &mut [u64], count: usize)
        requires { Has a.old (λ h ns. StealReady ns self.parent.0 self.at.0 self.left.0 self.right.0 self.left.0 self.right.0 count) }
        ensures { (h : List ℕ) (ns : List NodeVal) → StealReady ns self.parent.0 self.at.0 self.left.0 self.right.0 self.left.0 self.right.0 count → Arena a.old h ns → Arena a.new h (move_nodes ns self.parent.0 self.at.0 self.left.0 self.right.0 (length (nth ns self.left.0).pairs - count)) }
    {
        let new_left_len = len(a, self.left) - count;
        let old_right_len = len(a, self.right);
        let left_edges = edges_with(a, self.left, new_left_len + 1);
        let moved = edges_with(a, self.left, count);
        let right_edges = edges_with(a, self.right, old_right_len + 1);
        let up = remove(a, self.left, Place(new_left_len));
        let down = replace_kv(a, self.parent, self.at, up);
        insert_fit(a, self.right, Place(0), down);
        move_last_pairs(a, self.left, self.right, Place(new_left_len));
        move_last(
            a,
            self.left,
            self.right,
            EDGES,
            left_edges,
            moved,
            right_edges,
        );
        correct_childrens_parent_links(a, self.right, 0, right_edges + moved);
    }

    // Moves `count` pairs from the right child to the left one, through the parent's pair.
    // Stays beside bulk_steal_left, as the Rust's own pair: the words move by other calls, in another order, so one function for both sides
    // would be two bodies under a match, and no plainer.
    pub fn bulk_steal_right(self, a: &mut [u64], count: usize)
        requires { Has a.old (λ h ns. StealReady ns self.parent.0 self.at.0 self.left.0 self.right.0 self.right.0 self.left.0 count) }
        ensures { (h : List ℕ) (ns : List NodeVal) → StealReady ns self.parent.0 self.at.0 self.left.0 self.right.0 self.right.0 self.left.0 count → Arena a.old h ns → Arena a.new h (move_nodes ns self.parent.0 self.at.0 self.left.0 self.right.0 (length (nth ns self.left.0).pairs + count)) }
    {
        let old_left_len = len(a, self.left);
        let old_right_len = len(a, self.right);
        let left_edges = edges_with(a, self.left, old_left_len + 1);
        let moved = edges_with(a, self.left, count);
        let right_edges = edges_with(a, self.right, old_right_len + 1);
        let up = remove(a, self.right, Place(count - 1));
        let down = replace_kv(a, self.parent, self.at, up);
        insert_fit(a, self.left, Place(old_left_len), down);
        move_first_pairs(a, self.left, self.right, count - 1);
        move_first(
            a,
            self.left,
            self.right,
            EDGES,
            left_edges,
            moved,
            right_edges,
        );
        correct_childrens_parent_links(a, self.left, left_edges, left_edges + moved);
        correct_childrens_parent_links(a, self.right, 0, right_edges - moved);
    }
}
