// One pass over all nodes, from the last: the nodes right of a cut, and those that were free before it, become the free chain.
#![tactic(auto)]

ghost use Rattle.std.specs.Prelude.{◌≡◌, List, ℕ, ◌≤◌, ◌<◌, length, set};
ghost use Rattle.model.specs.Layout.{node_size, node_words, largest_count, header, count_word, NodeVal, nth, Arena};
ghost use Rattle.model.specs.Words.{free_val};
ghost use Rattle.node.specs.Reading.{Within, Has};
ghost use Rattle.cutting.specs.Sweep as spec;
ghost use Rattle.cutting.specs.Sweep.{swept, swept_head};

use format::write_node;
use node::{FREE, NONE, NodeNo, Place, WORDS, key, len, node_base, state};

// Is a node free, or has it only keys from `least` on? (Those on the way of the cut have none such left.)
fn goes(a: &[u64], n: NodeNo, least: u64) -> bool
    requires { Within a.now n.0 }
    ensures { (h : List ℕ) (ns : List NodeVal) → n.0 < length ns → Arena a.now h ns → result ≡ spec.goes least (nth ns n.0) }
{
    if state(a, n) == FREE {
        return true;
    }
    if len(a, n) == 0 {
        return false;
    }
    least <= key(a, n, Place(0))
}

// A node becomes a free one, with the next of the chain.
// Stays beside store's set_free, which asks for an empty node: this one clears what the node held.
fn set_free(a: &mut [u64], n: NodeNo, next: u64)
    requires { Within a.old n.0 }
    ensures { (h : List ℕ) (ns : List NodeVal) → n.0 < length ns → Arena a.old h ns → Arena a.new h (set ns n.0 (free_val next)) }
{
    let b = node_base(n);
    let e = b + WORDS;
    write_node(&mut a[b..e], FREE, next);
}

// The nodes that go become the free chain.
// Stays with free counted in the loop: it writes as it goes, and a chain would go over the nodes twice.
pub fn sweep(a: &mut [u64], least: u64)
    requires { Has a.old (λ h ns. (header h count_word ≡ length ns) × (length ns ≤ largest_count)) }
    ensures { (h : List ℕ) (ns : List NodeVal) → header h count_word ≡ length ns → Arena a.old h ns → Arena a.new (swept_head least h ns) (swept least 0 ns) }
{
    let mut first = NONE;
    let mut free = 0;
    for n in (0..header::count(a)).rev() {
        if goes(a, NodeNo(n), least) {
            set_free(a, NodeNo(n), first);
            first = n as u64;
            free += 1;
        }
    }
    header::set_free_nodes(a, first, free);
}
