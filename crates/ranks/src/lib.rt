// How many keys are smaller, how many pairs a range has, and which pair is at a rank: each by a descent along the counts.
#![tactic(auto)]

ghost use Rattle.std.specs.Prelude.{◌≡◌, ℕ, suc, ◌≤◌, ◌<◌, [], length};
ghost use Rattle.model.specs.Answer.{said_counted, said_picked};
ghost use Rattle.model.specs.Layout.{header, pairs_word};
ghost use Rattle.model.specs.Tree.{top, flat, lefts, before};
ghost use Rattle.model.specs.Search.{sink};
ghost use Rattle.model.specs.Range.{open_at, starts, beyond};
ghost use Rattle.model.specs.State.{State, At};
ghost use Rattle.model.specs.WellFormed.{WellFormed};
ghost use Rattle.model.specs.Promise.{Holds};
ghost use Rattle.model.specs.Public.{Promised};
ghost use Rattle.model.specs.Public as promise;
ghost use Rattle.navigate.specs.Places.{In};
ghost use Rattle.ranks.specs.Picks.{EdgeIn, NodeIn, Passing, Picking};

use checker::check;
use listing::bad_range;
use model::{Range, Refused, SearchBound};
use node::{NodeNo, Place, edge, key, keys, len, total, val};
use search::{Handle, find_lower_bound_index};

// Where a rank leads in a node: to a pair of it, or below an edge, with the rank that is left there.
// Stays an enum: neither way is a failure, as in search::IndexResult.
#[derive(Clone, Copy)]
pub enum Lead {
    Kv(Place),
    Edge(Place, u64),
}

// The pairs of a node, and below it, that are left of one of its edges.
// Stays beside totals' tally: one function for both would take the number that it begins with, and be no plainer than the loop.
fn left_of(a: &[u64], node: NodeNo, at: Place) -> u64
    requires { In a.now (λ s. EdgeIn s node.0 at.0) }
    ensures { (s : State) → Holds a.now s → (h : ℕ) (p : At s node.0 (suc h)) → at.0 ≤ length p.tree.rest → result ≡ length (lefts (flat (suc h)) (open_at at.0 [] p.tree.first p.tree.rest).left) }
{
    let mut sum = at.0 as u64;
    for i in 0..at.0 {
        sum += total(a, edge(a, node, Place(i)));
    }
    sum
}

// How many pairs are before the first that a start bound admits. The child's bound replaces the bound on the way down.
// Stays beside navigate::lower_leaf_edge, the same way down: that one begins each listing, and would add up counts for nothing.
pub fn passed(a: &[u64], start: SearchBound) -> u64
    requires { WellFormed a.now }
    ensures { (s : State) → Holds a.now s → result ≡ length (before (sink (starts start) s.whole.height top s.whole.root)) }
{
    let mut node = header::root(a);
    let mut bound = start;
    let mut sum = 0;
    for _ in 0..header::height(a) {
        let (at, below) = find_lower_bound_index(keys(a, node), bound);
        sum += left_of(a, node, at);
        bound = below;
        node = edge(a, node, at);
    }
    let (at, _) = find_lower_bound_index(keys(a, node), bound);
    sum + at.0 as u64
}

// The start bound that admits just what an end bound does not.
// Stays a match: no plainer as a conversion, which goes from one type to another.
fn beyond(end: SearchBound) -> SearchBound
    ensures { result ≡ beyond end }
{
    match end {
        SearchBound::Included(k) => SearchBound::Excluded(k),
        SearchBound::Excluded(k) => SearchBound::Included(k),
        SearchBound::AllIncluded => SearchBound::AllExcluded,
        SearchBound::AllExcluded => SearchBound::AllIncluded,
    }
}

// How many keys are smaller than a key, which need not be there.
pub fn rank(a: &[u64], key: u64) -> Result<u64, Refused>
    ensures { Promised (promise.rank key) a.now a.now tt (said_counted result) }
{
    check(a)?;
    Ok(passed(a, SearchBound::Included(key)))
}

// How many pairs a range has: those that its end admits, less those that its start leaves out.
pub fn count(a: &[u64], range: Range) -> Result<u64, Refused>
    ensures { Promised (promise.count range) a.now a.now tt (said_counted result) }
{
    check(a)?;
    if bad_range(range) {
        return Err(Refused::BadRange);
    }
    let low = passed(a, range.start);
    let high = passed(a, beyond(range.end));
    Ok(high.saturating_sub(low))
}

// Passes the edges and pairs of a node until a rank falls on one of them.
fn pass_edges(a: &[u64], node: NodeNo, rank: u64) -> Lead
    requires { In a.now (λ s. NodeIn s node.0 rank) }
    ensures { (s : State) → Holds a.now s → (h : ℕ) (p : At s node.0 (suc h)) → rank < length (flat (suc (suc h)) p.tree) → Passing (suc h) p.tree rank result }
{
    let n = len(a, node);
    let mut rest = rank;
    for i in 0..n {
        let below = total(a, edge(a, node, Place(i)));
        if rest < below {
            return Lead::Edge(Place(i), rest);
        }
        rest -= below;
        if rest == 0 {
            return Lead::Kv(Place(i));
        }
        rest -= 1;
    }
    Lead::Edge(Place(n), rest)
}

// The place of the pair at a rank.
fn pick(a: &[u64], rank: u64) -> Handle
    requires { WellFormed a.now × (rank < header a.now pairs_word) }
    ensures { (s : State) → Holds a.now s → Picking s rank result }
{
    let mut node = header::root(a);
    let mut rest = rank;
    for height in (1..=header::height(a)).rev() {
        match pass_edges(a, node, rest) {
            Lead::Kv(at) => return Handle { node, height, at },
            Lead::Edge(at, below) => {
                rest = below;
                node = edge(a, node, at);
            }
        }
    }
    Handle {
        node,
        height: 0,
        at: Place(rest as usize),
    }
}

// The pair that so many pairs are before.
pub fn at(a: &[u64], rank: u64) -> Result<Option<(u64, u64)>, Refused>
    ensures { Promised (promise.at rank) a.now a.now tt (said_picked result) }
{
    check(a)?;
    if rank >= header::pairs(a) {
        return Ok(None);
    }
    let kv = pick(a, rank);
    let k = key(a, kv.node, kv.at);
    Ok(Some((k, val(a, kv.node, kv.at))))
}
