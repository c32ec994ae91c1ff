// The pairs of two trees merged in order (append.rs, MergeIter): one walk over both; of a key in both the second's pair.
#![tactic(auto)]

ghost use Rattle.std.specs.Prelude.{◌≡◌, List, ◌*◌, length};
ghost use Rattle.model.specs.Tree.{Pair};
ghost use Rattle.model.specs.State.{State, list};
ghost use Rattle.model.specs.WellFormed.{WellFormed};
ghost use Rattle.model.specs.Promise.{Holds, laid};
ghost use Rattle.model.specs.Merge.{merge};
ghost use Rattle.model.specs.Join.{joined_run};
ghost use Rattle.navigate.specs.Places.{In};
ghost use Rattle.listing.specs.Heads.{HeadOf};
ghost use Rattle.merging.specs.Heads.{HeadIn, MergedOf, Fits};

use header::pairs;
use listing::{Head, peek};
use model::SearchBound;
use navigate::lower_leaf_edge;
use node::Kv;
use std::cmp::Ordering;

// The first pair.
fn first(a: &[u64]) -> Head
    requires { WellFormed a.now }
    ensures { (s : State) → Holds a.now s → HeadOf s (list s) result }
{
    peek(a, lower_leaf_edge(a, SearchBound::AllIncluded))
}

// The next pair of both walks, and where they stand after it.
type Merged = Option<(Kv, Head, Head)>;

// The smaller of both heads; of two with one key the second's, and both walks go on.
fn merge_next(a: &[u64], b: &[u64], x: Head, y: Head) -> Merged
    requires { In a.now (λ s. HeadIn s x) × In b.now (λ t. HeadIn t y) }
    ensures { (s t : State) → Holds a.now s → Holds b.now t → (ps qs : List Pair) → HeadOf s ps x → HeadOf t qs y → MergedOf s t (merge ps qs) result }
{
    match (x, y) {
        (None, None) => None,
        (Some((p, i)), None) => Some((p, peek(a, i), y)),
        (None, Some((q, j))) => Some((q, x, peek(b, j))),
        (Some((p, i)), Some((q, j))) => match p.0.cmp(&q.0) {
            Ordering::Less => Some((p, peek(a, i), y)),
            Ordering::Equal => Some((q, peek(a, i), peek(b, j))),
            Ordering::Greater => Some((q, x, peek(b, j))),
        },
    }
}

// How many pairs the merged run has: no more than both together.
pub fn merge_count(a: &[u64], b: &[u64]) -> usize
    requires { WellFormed a.now × WellFormed b.now }
    ensures { (s t : State) → Holds a.now s → Holds b.now t → result ≡ length (joined_run s t) }
{
    let most = (pairs(a) + pairs(b)) as usize;
    let mut x = first(a);
    let mut y = first(b);
    for n in 0..most {
        let Some((_, f, g)) = merge_next(a, b, x, y) else {
            return n;
        };
        x = f;
        y = g;
    }
    most
}

// Writes the merged run, key and value in turn, over the first words; answers how many pairs.
// Stays beside merge_count, which has no words to write to: one walk for both would take a closure, and its clause would be longer than the loop.
pub fn merge_into(a: &[u64], b: &[u64], out: &mut [u64]) -> usize
    requires { WellFormed a.now × WellFormed b.now × Fits a.now b.now out.old }
    ensures { (s t : State) → Holds a.now s → Holds b.now t → (out.new ≡ laid (joined_run s t) out.old) × (result ≡ length (joined_run s t)) }
{
    let room = out.len() / 2;
    let mut x = first(a);
    let mut y = first(b);
    for n in 0..room {
        let Some((pair, f, g)) = merge_next(a, b, x, y) else {
            return n;
        };
        out[2 * n] = pair.0;
        out[2 * n + 1] = pair.1;
        x = f;
        y = g;
    }
    room
}
