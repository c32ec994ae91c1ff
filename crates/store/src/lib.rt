// Nodes taken and returned, and the links from children to their parent.
#![tactic(auto)]

ghost use Rattle.std.specs.Prelude.{◌≡◌, List, [], ℕ, ◌<◌, ◌≤◌, length, set};
ghost use Rattle.model.specs.Layout.{none, NodeVal, nth, Arena};
ghost use Rattle.model.specs.Nodes.{taken};
ghost use Rattle.model.specs.Words.{free_val};
ghost use Rattle.node.specs.Reading.{Within, Has};
ghost use Rattle.store.specs.Links.{node_if, TakeReady, Takeable, ReturnReady, Returnable, LinkReady, last_below, take_head, take_node, return_head, return_node, link, relink_from};

use node::{
    FREE, NONE, NodeNo, PARENT, PARENT_IDX, Place, STATE, TOTAL, edge, node_base, parent, state,
};

// Takes the first free node, the one with the lowest number, as an empty node of a state.
pub fn take_node(a: &mut [u64], state: u64) -> NodeNo
    requires { Has a.old (λ h ns. Takeable h ns) }
    ensures { (h : List ℕ) (ns : List NodeVal) (free : List ℕ) → TakeReady h ns free → Arena a.old h ns → (result.0 ≡ taken free) × Arena a.new (take_head h free) (take_node ns free state) }
{
    let n = NodeNo(header::first_free(a) as usize);
    let next = parent(a, n);
    let left = header::free_nodes(a) - 1;
    let b = node_base(n);
    a[b + STATE] = state;
    a[b + PARENT] = NONE;
    header::set_free_nodes(a, next, left);
    n
}

// The last free node before n. It is sought in turns along the chain and downwards from n, so that it costs no more than
// twice the nearer way.
fn free_before(a: &[u64], n: NodeNo) -> Option<NodeNo>
    requires { Has a.now (λ h ns. Returnable h ns n.0) }
    ensures { (h : List ℕ) (ns : List NodeVal) (free : List ℕ) → ReturnReady h ns free n.0 → Arena a.now h ns → result ≡ node_if (last_below n.0 none free) }
{
    let mut before = None;
    let mut next = header::first_free(a);
    for down in (0..n.0).rev() {
        if next >= n.0 as u64 {
            return before;
        }
        if state(a, NodeNo(down)) == FREE {
            return Some(NodeNo(down));
        }
        let low = NodeNo(next as usize);
        before = Some(low);
        next = parent(a, low);
    }
    before
}

// An empty node becomes a free one, with the next of the chain.
fn set_free(a: &mut [u64], n: NodeNo, next: u64)
    requires { Within a.old n.0 }
    ensures { (h : List ℕ) (ns : List NodeVal) → n.0 < length ns → (nth ns n.0).pairs ≡ [] → (nth ns n.0).edges ≡ [] → Arena a.old h ns → Arena a.new h (set ns n.0 (free_val next)) }
{
    let b = node_base(n);
    a[b + STATE] = FREE;
    a[b + PARENT] = next;
    a[b + PARENT_IDX] = 0;
    a[b + TOTAL] = 0;
}

// Returns an empty node to its place in the chain.
pub fn return_node(a: &mut [u64], n: NodeNo)
    requires { Has a.old (λ h ns. Returnable h ns n.0) }
    ensures { (h : List ℕ) (ns : List NodeVal) (free : List ℕ) → ReturnReady h ns free n.0 → Arena a.old h ns → Arena a.new (return_head h free n.0) (return_node ns free n.0) }
{
    let first = header::first_free(a);
    let left = header::free_nodes(a) + 1;
    let before = free_before(a, n);
    let Some(low) = before else {
        set_free(a, n, first);
        header::set_free_nodes(a, n.0 as u64, left);
        return;
    };
    let next = parent(a, low);
    set_free(a, n, next);
    set_free(a, low, n.0 as u64);
    header::set_free_nodes(a, first, left);
}

// Writes where a node hangs.
fn set_link(a: &mut [u64], child: NodeNo, parent: u64, idx: u64)
    requires { Within a.old child.0 }
    ensures { (h : List ℕ) (ns : List NodeVal) → child.0 < length ns → Arena a.old h ns → Arena a.new h (link ns child.0 parent idx) }
{
    let b = node_base(child);
    a[b + PARENT] = parent;
    a[b + PARENT_IDX] = idx;
}

// A node hangs at an edge of its parent.
pub fn set_parent_link(a: &mut [u64], child: NodeNo, parent: NodeNo, at: Place)
    requires { Within a.old child.0 }
    ensures { (h : List ℕ) (ns : List NodeVal) → child.0 < length ns → Arena a.old h ns → Arena a.new h (link ns child.0 parent.0 at.0) }
{
    set_link(a, child, parent.0 as u64, at.0 as u64);
}

// The children of node n, which has `end` edges, hang at the places where its edges are, from place `from` on.
pub fn correct_childrens_parent_links(a: &mut [u64], n: NodeNo, from: usize, end: usize)
    requires { (from ≤ end) × Has a.old (λ h ns. LinkReady ns n.0 end) }
    ensures { (h : List ℕ) (ns : List NodeVal) → LinkReady ns n.0 end → Arena a.old h ns → Arena a.new h (relink_from ns n.0 from) }
{
    for i in from..end {
        let child = edge(a, n, Place(i));
        set_parent_link(a, child, n, Place(i));
    }
}

// A node hangs nowhere: it is the root.
pub fn clear_parent_link(a: &mut [u64], n: NodeNo)
    requires { Within a.old n.0 }
    ensures { (h : List ℕ) (ns : List NodeVal) → n.0 < length ns → Arena a.old h ns → Arena a.new h (link ns n.0 none 0) }
{
    set_link(a, n, NONE, 0);
}
