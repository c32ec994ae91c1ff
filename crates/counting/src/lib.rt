// The counts of a whole tree, whatever they were before: from the leaves up, each node's from those just below it.
#![tactic(auto)]

ghost use Rattle.std.specs.Prelude.{List, ℕ, suc};
ghost use Rattle.model.specs.Layout.{NodeVal, Arena};
ghost use Rattle.node.specs.Reading.{Has};
ghost use Rattle.counting.specs.Counting.{TreeIn, CountedIn, EdgesIn};

use node::{NodeNo, Place, edge, len};
use totals::{set_right, set_total};

// Sets the count of a leaf.
fn count_leaf(a: &mut [u64], n: NodeNo)
    requires { Has a.old (λ hd ns. TreeIn ns n.0 0) }
    ensures { (hd : List ℕ) (ns : List NodeVal) (t : TreeIn ns n.0 0) → Arena a.old hd ns → CountedIn a.new hd ns 0 t.tree }
{
    let t = len(a, n) as u64;
    set_total(a, n, t);
}

// Sets the counts of a node and of all below it, which has so many levels below it.
#[cycle(count_edges_count_node)]
pub fn count_node(a: &mut [u64], n: NodeNo, below: usize)
    requires { Has a.old (λ hd ns. TreeIn ns n.0 below) }
    ensures { (hd : List ℕ) (ns : List NodeVal) (t : TreeIn ns n.0 below) → Arena a.old hd ns → CountedIn a.new hd ns below t.tree }
{
    if below == 0 {
        count_leaf(a, n);
        return;
    }
    count_edges(a, n, below - 1);
    set_right(a, n);
}

// The same of the nodes that its edges lead to.
#[cycle(count_edges_count_node)]
fn count_edges(a: &mut [u64], n: NodeNo, below: usize)
    requires { Has a.old (λ hd ns. TreeIn ns n.0 (suc below)) }
    ensures { (hd : List ℕ) (ns : List NodeVal) (t : TreeIn ns n.0 (suc below)) → Arena a.old hd ns → EdgesIn a.new hd ns below t.tree }
{
    let last = len(a, n);
    for i in 0..=last {
        let child = edge(a, n, Place(i));
        count_node(a, child, below);
    }
}
