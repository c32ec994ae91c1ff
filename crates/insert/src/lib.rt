// Insertion: the climb from a leaf edge, and put behind a checked arena (node.rs's insert_recursing, map.rs's insert).
#![tactic(auto)]

ghost use Rattle.std.specs.Prelude.{◌≡◌, List, ℕ, suc};
ghost use Rattle.model.specs.Nodes.{Grown};
ghost use Rattle.model.specs.Tree.{Pair};
ghost use Rattle.model.specs.Insert.{rise, needed};
ghost use Rattle.model.specs.State as model;
ghost use Rattle.model.specs.WellFormed.{WellFormed};
ghost use Rattle.model.specs.Promise.{Holds, Does};
ghost use Rattle.model.specs.Answer.{said_former};
ghost use Rattle.model.specs.Layout.{NodeVal, Arena};
ghost use Rattle.node.specs.Reading.{Has, pair_of};
ghost use Rattle.navigate.specs.Places.{In, EdgeAt};
ghost use Rattle.standing.specs.Heads.{Rest, rest_of, ClosedIn};
ghost use Rattle.growing.specs.Steps.{FitsAt, fit_at};
ghost use Rattle.growing.specs.Climbs.{Gap, Climbing};
ghost use Rattle.insert.specs.Inserts.{target_of, level, number, RawOutcome, Outcome, Unsettled, GapAt, ClimbIn, AtRoot, Roomy, PutIn};

use internal::push_internal_level;
use leaf::{SplitResult, replace_kv};
use model::Refused;
use node::{CAPACITY, Kv, LeftOrRight, NodeNo, Place, ascend, len, splitpoint};
use search::{Handle, SearchResult, search_tree};
use totals::{set_right, settle};

// The edge where the new pair goes, in the left half or in the right one.
fn insertion_edge(insertion: LeftOrRight<Place>, left: NodeNo, right: NodeNo) -> (NodeNo, Place)
    ensures { result ≡ target_of insertion left right }
{
    match insertion {
        LeftOrRight::Left(at) => (left, at),
        LeftOrRight::Right(at) => (right, at),
    }
}

// Puts a pair in where there is room: at a leaf edge, or at an edge of an internal node, with the node right of it.
#[inline(always)]
fn insert_fit(a: &mut [u64], n: NodeNo, at: Place, kv: Kv, child: Option<NodeNo>)
    requires { (k : ℕ) × Has a.old (λ h ns. FitsAt (level child k) ns n.0 at.0 (number child)) }
    ensures { (k : ℕ) (h : List ℕ) (ns : List NodeVal) → FitsAt (level child k) ns n.0 at.0 (number child) → Arena a.old h ns → Arena a.new h (fit_at (level child k) ns n.0 at.0 (pair_of kv) (number child)) }
{
    match child {
        None => leaf::insert_fit(a, n, at, kv),
        Some(right) => internal::insert_fit(a, n, at, kv, right),
    }
}

// The same at any edge: a full node is split. Counts are left as they were.
#[inline(always)]
fn insert_or_split(
    a: &mut [u64],
    n: NodeNo,
    at: Place,
    kv: Kv,
    child: Option<NodeNo>,
) -> Option<SplitResult>
    requires { GapAt a.old n.0 at.0 child }
    ensures { (k : ℕ) (s : Gap a.old (level child k) n.0 at.0 (number child)) → RawOutcome s (pair_of kv) a.new result }
{
    if len(a, n) < CAPACITY {
        insert_fit(a, n, at, kv, child);
        return None;
    }
    let point = splitpoint(at);
    let split = match child {
        None => leaf::split(a, n, point.middle),
        Some(_) => internal::split(a, n, point.middle),
    };
    let (half, i) = insertion_edge(point.insertion, n, split.right);
    insert_fit(a, half, i, kv, child);
    Some(split)
}

// Sets right the counts that an insertion in a node has left: of its right half, which no edge leads to yet, and of the node and all above it.
fn settle_inserted(a: &mut [u64], n: NodeNo, split: Option<SplitResult>)
    requires { Unsettled a.old n.0 split }
    ensures { (w : List ℕ) (h at child : ℕ) (s : Gap w h n.0 at child) (p : Pair) → RawOutcome s p a.old split → Outcome s p a.new split }
{
    if let Some(half) = split {
        set_right(a, half.right);
    }
    settle(a, n);
}

// The same, and counts set right.
#[inline(always)]
fn insert(a: &mut [u64], n: NodeNo, at: Place, kv: Kv, child: Option<NodeNo>) -> Option<SplitResult>
    requires { GapAt a.old n.0 at.0 child }
    ensures { (k : ℕ) (s : Gap a.old (level child k) n.0 at.0 (number child)) → Outcome s (pair_of kv) a.new result }
{
    let split = insert_or_split(a, n, at, kv, child);
    settle_inserted(a, n, split);
    split
}

// The root was split: a new root above it takes the pair.
fn split_root(a: &mut [u64], split: SplitResult)
    requires { AtRoot a.old split }
    ensures { (g : Rest) (t : Grown) → ClimbIn a.old g split t → ClosedIn a.new g t }
{
    let top = push_internal_level(a);
    internal::insert_fit(a, top, Place(0), split.kv, split.right);
    settle(a, top);
}

// Puts a new pair in at a leaf edge; splits go up by parent words. There are nodes enough.
// Stays a while: no index is counted, it climbs as long as nodes are split.
pub fn insert_recursing(a: &mut [u64], edge: Handle, kv: Kv)
    requires { In a.old (λ s. Roomy s edge) }
    ensures { (s : model.State) → Holds a.old s → (y : Roomy s edge) → ClosedIn a.new (rest_of s) (rise y.edge.way tt (pair_of kv) tt s.free) }
{
    let mut node = edge.node;
    let mut split = insert(a, node, edge.at, kv, None);
    while let Some(up) = split {
        let Some((parent, idx)) = ascend(a, node) else {
            split_root(a, up);
            return;
        };
        node = parent;
        split = insert(a, node, idx, up.kv, Some(up.right));
    }
}

// How many nodes a new pair at this leaf edge takes: the run of full nodes upwards, and 1 if it includes the root.
// Stays a counted walk: the count is the answer, and a for over the levels would need an answer after its end as well, which no tree comes to.
pub fn nodes_needed(a: &[u64], edge: Handle) -> usize
    requires { In a.now (λ s. EdgeAt s edge) }
    ensures { (s : model.State) → Holds a.now s → (y : EdgeAt s edge) → result ≡ needed y.way }
{
    let mut node = edge.node;
    let mut count = 0;
    while len(a, node) >= CAPACITY {
        let Some((parent, _)) = ascend(a, node) else {
            return count + 2;
        };
        node = parent;
        count += 1;
    }
    count
}

// Puts a pair where it belongs, and answers the former value. A present key's value is replaced only; an absent key lacks nodes, or
// comes in at its leaf edge.
fn put_pair(a: &mut [u64], kv: Kv) -> Result<Option<u64>, Refused>
    requires { WellFormed a.old }
    ensures { (s : model.State) → Holds a.old s → PutIn kv.0 s (model.put kv.0 kv.1 s) a.old a.new result }
{
    match search_tree(a, kv.0) {
        SearchResult::Found(place) => {
            let old = replace_kv(a, place.node, place.at, kv);
            Ok(Some(old.1))
        }
        SearchResult::GoDown(edge) => {
            let free = header::free_nodes(a);
            let need = nodes_needed(a, edge);
            if free < need {
                return Err(Refused::NoRoom);
            }
            insert_recursing(a, edge, kv);
            Ok(None)
        }
    }
}

// Put behind a checked arena: an accepted one is counted if its key is new, and its key is spent. Answers the former value.
pub fn put(a: &mut [u64], key: u64, val: u64) -> Result<Option<u64>, Refused>
    requires { WellFormed a.old }
    ensures { (s : model.State) → Holds a.old s → Does (model.put key val s) a.new (said_former result) }
{
    let former = put_pair(a, Kv(key, val))?;
    if former.is_none() {
        header::count_on(a);
    }
    header::raise_mark(a, key);
    Ok(former)
}
