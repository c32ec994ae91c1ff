// A tree cut along the way to a leaf edge, from the leaf up (split.rs): each node keeps what is left of the way.
#![tactic(auto)]

ghost use Rattle.std.specs.Prelude.{◌≡◌, List, ℕ, ◌+◌, ◌≤◌, ◌<◌, length, take};
ghost use Rattle.model.specs.Layout.{node_size, header, height_word, NodeVal, nth, Arena};
ghost use Rattle.node.specs.Fields.{Fields, Column, start_of, room_of, column, row, Stored};
ghost use Rattle.node.specs.Reading.{Within, Has};
ghost use Rattle.columns.specs.Columns.{put_column};
ghost use Rattle.cutting.specs.Trims.{shortened, cut_node, CutReady, Goal, Trims, TrimsIn, Trimmed};

use columns::set_len;
use node::{CAPACITY, EDGES, KEYS, NodeNo, Place, VALS, ascend, node_base};
use totals::set_right;

// Clears a column of a node from a place on.
fn clear_from(a: &mut [u64], n: NodeNo, col: usize, from: usize, end: usize)
    requires { Within a.old n.0 × (from ≤ end) × (col + end ≤ node_size) }
    ensures { (h : List ℕ) (fs : List Fields) (k : Column) → n.0 < length fs → col ≡ start_of k → end ≡ room_of k → Stored a.old h fs → Stored a.new h (put_column fs n.0 k (take from (column k (row fs n.0)))) }
{
    let b = node_base(n) + col;
    let s = b + from;
    let e = b + end;
    a[s..e].fill(0);
}

// A node keeps its pairs left of an edge, and the edges up to that one.
fn shorten(a: &mut [u64], n: NodeNo, at: Place)
    requires { Has a.old (λ h ns. CutReady ns n.0 at.0) }
    ensures { (h : List ℕ) (ns : List NodeVal) → CutReady ns n.0 at.0 → Arena a.old h ns → Arena a.new h (shortened ns n.0 at.0) }
{
    let i = at.0;
    clear_from(a, n, KEYS, i, CAPACITY);
    clear_from(a, n, VALS, i, CAPACITY);
    clear_from(a, n, EDGES, i + 1, CAPACITY + 1);
    set_len(a, n, i);
}

// The same, with a true count.
fn cut_node(a: &mut [u64], n: NodeNo, at: Place)
    requires { Has a.old (λ h ns. CutReady ns n.0 at.0) }
    ensures { (h : List ℕ) (ns : List NodeVal) → CutReady ns n.0 at.0 → Arena a.old h ns → Arena a.new h (cut_node ns n.0 at.0) }
{
    shorten(a, n, at);
    set_right(a, n);
}

// Cuts every node on the way from a leaf edge up to the root.
pub fn cut_along(a: &mut [u64], leaf: NodeNo, edge: Place)
    requires { TrimsIn a.old leaf.0 edge.0 }
    ensures { (hd : List ℕ) (g : Goal) → Trims a.old hd g leaf.0 edge.0 (header hd height_word) → Trimmed a.new hd g }
{
    let mut node = leaf;
    let mut at = edge;
    for _level in 0..=header::height(a) {
        cut_node(a, node, at);
        let Some((parent, place)) = ascend(a, node) else {
            return;
        };
        node = parent;
        at = place;
    }
}
