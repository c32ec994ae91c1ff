// The counts of the pairs below each node: added up from the nodes just below, and set right.
#![tactic(auto)]

ghost use Rattle.std.specs.Prelude.{◌≡◌, List, ℕ, ◌+◌, ◌-◌, ◌≤◌, ◌<◌, length};
ghost use Rattle.model.specs.Layout.{most, header, height_word, state_word, length_word, total_word, word_at, NodeVal, nth, Arena};
ghost use Rattle.node.specs.Reading.{Within, Has};
ghost use Rattle.store.specs.Links.{LinkReady};
ghost use Rattle.standing.specs.Totals.{due, put_total, recount};
ghost use Rattle.balance.specs.Moves.{edges_with, Shaped};
ghost use Rattle.totals.specs.Settling.{Lifts, Settles, Settled};

use node::{INTERNAL, NodeNo, Place, TOTAL, ascend, edge, len, node_base, state, total};

// What the count of a node should be: its own pairs and the counts of the nodes that its `end` edges lead to.
fn tally(a: &[u64], n: NodeNo, end: usize) -> u64
    requires { Has a.now (λ h ns. LinkReady ns n.0 end × (due ns n.0 < 18446744073709551616)) }
    ensures { (h : List ℕ) (ns : List NodeVal) → LinkReady ns n.0 end → Arena a.now h ns → result ≡ due ns n.0 }
{
    let mut t = len(a, n) as u64;
    for i in 0..end {
        let child = edge(a, n, Place(i));
        t += total(a, child);
    }
    t
}

// How many edges a node has.
// Stays beside balance's edges_with: edges_with(a, n, len(a, n) + 1) in its place would be no plainer.
fn edge_count(a: &[u64], n: NodeNo) -> usize
    requires { Within a.now n.0 × (word_at a.now n.0 length_word ≤ most) }
    ensures { result ≡ edges_with (word_at a.now n.0 state_word) (word_at a.now n.0 length_word + 1) }
{
    if state(a, n) == INTERNAL {
        return len(a, n) + 1;
    }
    0
}

// What the count of a node should be.
fn due_of(a: &[u64], n: NodeNo) -> u64
    requires { Has a.now (λ h ns. Shaped ns n.0 × (due ns n.0 < 18446744073709551616)) }
    ensures { (h : List ℕ) (ns : List NodeVal) → Shaped ns n.0 → Arena a.now h ns → result ≡ due ns n.0 }
{
    let end = edge_count(a, n);
    tally(a, n, end)
}

// Writes the count of a node.
pub fn set_total(a: &mut [u64], n: NodeNo, total: u64)
    requires { Within a.old n.0 }
    ensures { (h : List ℕ) (ns : List NodeVal) → n.0 < length ns → Arena a.old h ns → Arena a.new h (put_total ns n.0 total) }
{
    let b = node_base(n);
    a[b + TOTAL] = total;
}

// A count changed as `was` is to `is`.
fn change(a: &mut [u64], n: NodeNo, was: u64, is: u64)
    requires { Within a.old n.0 × (word_at a.old n.0 total_word + is < 18446744073709551616) × (was ≤ word_at a.old n.0 total_word + is) }
    ensures { (h : List ℕ) (ns : List NodeVal) → n.0 < length ns → Arena a.old h ns → Arena a.new h (put_total ns n.0 ((nth ns n.0).total + is - was)) }
{
    let t = total(a, n) + is - was;
    set_total(a, n, t);
}

// The count of a node is set right.
pub fn set_right(a: &mut [u64], n: NodeNo)
    requires { Has a.old (λ h ns. Shaped ns n.0 × (due ns n.0 < 18446744073709551616)) }
    ensures { (h : List ℕ) (ns : List NodeVal) → Shaped ns n.0 → Arena a.old h ns → Arena a.new h (recount ns n.0) }
{
    let t = due_of(a, n);
    set_total(a, n, t);
}

// The count of a node and of all above it changed as `was` is to `is`.
fn lift(a: &mut [u64], n: NodeNo, was: u64, is: u64)
    requires { Has a.old (λ h ns. Lifts ns n.0 (header h height_word) was is) }
    ensures { (h : List ℕ) (ns : List NodeVal) → Lifts ns n.0 (header h height_word) was is → Arena a.old h ns → Settled a.new h ns }
{
    let mut node = n;
    for _ in 0..=header::height(a) {
        change(a, node, was, is);
        let Some((parent, _)) = ascend(a, node) else {
            return;
        };
        node = parent;
    }
}

// The count of a node is set right, and by as much those above it.
pub fn settle(a: &mut [u64], n: NodeNo)
    requires { Has a.old (λ h ns. Settles h ns n.0) }
    ensures { (h : List ℕ) (ns : List NodeVal) → Settles h ns n.0 → Arena a.old h ns → Settled a.new h ns }
{
    let was = total(a, n);
    let is = due_of(a, n);
    lift(a, n, was, is);
}
