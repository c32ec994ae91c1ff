// Loading a sorted run, pair by pair (append.rs): the last leaf is filled, then the next pair goes up to the lowest node with room, with an
// empty right side after it. No count is kept on the way; the end sets them all.
#![tactic(auto)]

ghost use Rattle.std.specs.Prelude.{◌≡◌, List, length, set, ℕ, suc, ◌≤◌};
ghost use Rattle.model.specs.Tree.{Pair, Whole};
ghost use Rattle.model.specs.Lists.{All};
ghost use Rattle.model.specs.Layout.{header, header_size, root_word, pairs_word, seen_word, mark_word, most, word_at, length_word, NodeVal, Arena};
ghost use Rattle.model.specs.Mark.{Mark, Covers, seen_of, mark_of};
ghost use Rattle.model.specs.Sound.{Sound};
ghost use Rattle.model.specs.Map.{Rising};
ghost use Rattle.model.specs.Words.{words_of};
ghost use Rattle.node.specs.Reading.{Has, pair_of};
ghost use Rattle.model.specs.Load as load;
ghost use Rattle.model.specs.Load.{pairs_of, Even};
ghost use Rattle.model.specs.Room.{nodes_for};
ghost use Rattle.leaf.specs.Pairs.{RoomAt, insert_pair};
ghost use Rattle.internal.specs.Inner.{FitReady, fit_nodes};
ghost use Rattle.standing.specs.Heads.{Rest, ClosedBy, Uncounted};
ghost use Rattle.inspect.specs.Tests.{Decides};
ghost use Rattle.appending.specs.Pushes as pushes;
ghost use Rattle.header.specs.Headers.{marked};
ghost use Rattle.appending.specs.Runs.{Begun, BegunIn, Ended, EndedIn, Tells, Loads, LoadsIn};
ghost use Rattle.appending.specs.Stocks.{Stocks, StocksIn, Pushed, PushedIn};

use balance::BalancingContext;
use columns::{insert_word, set_len};
use counting::count_node;
use header::{MARK, PAIRS, SEEN};
use internal::{new_internal, push_internal_level};
use node::{CAPACITY, EDGES, KEYS, Kv, LEAF, MIN_LEN, NodeNo, Place, VALS, ascend, edge, len};
use store::{correct_childrens_parent_links, take_node};

// An empty right side: its top, and its leaf.
#[derive(Clone, Copy)]
pub struct RightSide {
    pub top: NodeNo,
    pub leaf: NodeNo,
}

// Takes the nodes of an empty right side of so many levels, the leaf first.
fn right_side(a: &mut [u64], levels: usize) -> RightSide
    requires { pushes.Place a.old levels }
    ensures { (s : pushes.Place a.old levels) → (result.leaf.0 ≡ s.next) × pushes.Building a.new s.rest s.way s.tree s.next levels result.top.0 }
{
    let leaf = take_node(a, LEAF);
    let mut top = leaf;
    for _level in 1..levels {
        top = new_internal(a, top);
    }
    RightSide { top, leaf }
}

// A node with room, and the levels below it.
#[derive(Clone, Copy)]
pub struct Opening {
    pub node: NodeNo,
    pub levels: usize,
}

// The lowest node above a full leaf that has room; if there is none, a new root.
// Stays a loop: it climbs to the node that it looks for, and the levels below that are its answer.
fn open_node(a: &mut [u64], leaf: NodeNo) -> Opening
    requires { pushes.RisingIn a.old leaf.0 1 }
    ensures { (g : Rest) (p : Pair) (t : load.Loading) → pushes.Rising a.old g leaf.0 1 p t → pushes.Roomy a.new g result.node.0 result.levels p t }
{
    let mut node = leaf;
    let mut levels = 1;
    loop {
        let Some((parent, _)) = ascend(a, node) else {
            let root = push_internal_level(a);
            return Opening { node: root, levels };
        };
        if len(a, parent) < CAPACITY {
            return Opening {
                node: parent,
                levels,
            };
        }
        node = parent;
        levels += 1;
    }
}

// Puts a pair behind the `count` pairs of a node that has room.
// Stays beside leaf::insert_fit: too slow, since with it a load took 1.5 times the instructions.
fn push_pair(a: &mut [u64], n: NodeNo, count: usize, kv: Kv)
    requires { Has a.old (λ h ns. RoomAt ns n.0 count) × (count ≡ word_at a.old n.0 length_word) }
    ensures { (h : List ℕ) (ns : List NodeVal) → RoomAt ns n.0 count → Arena a.old h ns → Arena a.new h (insert_pair ns n.0 count (pair_of kv)) }
{
    insert_word(a, n, KEYS, count, count, kv.0);
    insert_word(a, n, VALS, count, count, kv.1);
    set_len(a, n, count + 1);
}

// The same with an edge right of it, in an internal node.
// Stays beside internal::insert_fit: too slow, since that one writes eleven words of two columns, and a load took 1.5 times the instructions.
fn push_edge(a: &mut [u64], n: NodeNo, count: usize, kv: Kv, right: NodeNo)
    requires { Has a.old (λ h ns. FitReady ns n.0 count right.0) × (count ≡ word_at a.old n.0 length_word) }
    ensures { (h : List ℕ) (ns : List NodeVal) → FitReady ns n.0 count right.0 → Arena a.old h ns → Arena a.new h (fit_nodes ns n.0 count (pair_of kv) right.0) }
{
    let next = count + 1;
    push_pair(a, n, count, kv);
    insert_word(a, n, EDGES, next, next, right.0 as u64);
    correct_childrens_parent_links(a, n, next, next + 1);
}

// Puts a pair after all others, where the last leaf is full. Answers the last leaf then, which is empty.
fn push_up(a: &mut [u64], leaf: NodeNo, kv: Kv) -> NodeNo
    requires { pushes.PushIn a.old leaf.0 (pair_of kv) × (most ≤ word_at a.old leaf.0 length_word) }
    ensures { (g : Rest) (l : load.Loading) → pushes.LoadIn a.old g leaf.0 l → (load.push (pair_of kv) l).next ≤ g.size → pushes.LoadIn a.new g result.0 (load.push (pair_of kv) l) }
{
    let open = open_node(a, leaf);
    let right = right_side(a, open.levels);
    let count = len(a, open.node);
    push_edge(a, open.node, count, kv, right.top);
    right.leaf
}

// The last leaf, and how many pairs it has.
#[derive(Clone, Copy)]
pub struct LastLeaf {
    pub leaf: NodeNo,
    pub count: usize,
}

// Puts a pair after all others; the last leaf has so many pairs.
// Stays leaf and count side by side: push knows the leaf alone, and reads the count for this call.
fn push_on(a: &mut [u64], leaf: NodeNo, count: usize, kv: Kv) -> LastLeaf
    requires { pushes.PushIn a.old leaf.0 (pair_of kv) × (count ≡ word_at a.old leaf.0 length_word) }
    ensures { (g : Rest) (l : load.Loading) → pushes.LoadIn a.old g leaf.0 l → (load.push (pair_of kv) l).next ≤ g.size → pushes.LoadIn a.new g result.leaf.0 (load.push (pair_of kv) l) × (result.count ≡ pushes.last_long (load.push (pair_of kv) l).way) }
{
    if count < CAPACITY {
        push_pair(a, leaf, count, kv);
        return LastLeaf {
            leaf,
            count: count + 1,
        };
    }
    let last = push_up(a, leaf, kv);
    LastLeaf {
        leaf: last,
        count: 0,
    }
}

// Puts a pair after all others; leaf is the last leaf. Answers the last leaf then.
pub fn push(a: &mut [u64], leaf: NodeNo, kv: Kv) -> NodeNo
    requires { pushes.PushIn a.old leaf.0 (pair_of kv) }
    ensures { (g : Rest) (l : load.Loading) → pushes.LoadIn a.old g leaf.0 l → (load.push (pair_of kv) l).next ≤ g.size → pushes.LoadIn a.new g result.0 (load.push (pair_of kv) l) }
{
    let n = len(a, leaf);
    push_on(a, leaf, n, kv).leaf
}

// A node's last child is stocked to 5 from its left neighbour. Answers the last child.
// Stays a context made here: border's consider_for_balancing, made public with its edits, and a crate more to use would be no plainer.
fn stock_right_child(a: &mut [u64], node: NodeNo) -> NodeNo
    requires { StocksIn a.old node.0 }
    ensures { (h : ℕ) (g : Rest) (t : Whole) (free : List ℕ) → Stocks a.old g node.0 (suc h) t free → Stocks a.new g result.0 h t free }
{
    let n = len(a, node);
    let at = n - 1;
    let left = edge(a, node, Place(at));
    let right = edge(a, node, Place(n));
    let k = len(a, right);
    if k >= MIN_LEN {
        return right;
    }
    let context = BalancingContext {
        parent: node,
        at: Place(at),
        left,
        right,
    };
    context.bulk_steal_left(a, MIN_LEN - k);
    right
}

// Stocks up the right border from the top down; the nodes left of it are full.
pub fn fix_right_border_of_plentiful(a: &mut [u64])
    requires { PushedIn a.old }
    ensures { (g : Rest) (t : Whole) (free : List ℕ) → Pushed a.old g t free → ClosedBy Uncounted a.new g (record { whole = load.plenty t; free = free }) }
{
    let mut node = header::root(a);
    for _height in (0..header::height(a)).rev() {
        node = stock_right_child(a, node);
    }
}

// How many nodes a load of so many pairs takes.
// Stays a while: no index is counted, each turn divides by 12.
pub fn nodes_for(pairs: usize) -> usize
    ensures { result ≡ nodes_for pairs }
{
    let mut left = pairs / 12;
    let mut nodes = left + 1;
    while left > 0 {
        left = left / 12;
        nodes += left + 1;
    }
    nodes
}

// Pushes every pair of a run, key and value in turn, into an empty tree with nodes enough.
pub fn bulk_push(a: &mut [u64], run: &[u64])
    requires { BegunIn a.old run.now }
    ensures { (g : Rest) → Begun a.old g (header a.old root_word) run.now → Ended a.new g (load.push_all (pairs_of run.now) load.begun) }
{
    let mut last = LastLeaf {
        leaf: header::root(a),
        count: 0,
    };
    let (pairs, _) = run.as_chunks::<2>();
    for &[key, val] in pairs {
        last = push_on(a, last.leaf, last.count, Kv(key, val));
    }
}

// Writes the pair count, and that a mark was seen.
fn tell(a: &mut [u64], pairs: u64, seen: u64, mark: u64)
    requires { header_size ≤ length a.old }
    ensures { (h : List ℕ) (ns : List NodeVal) → Arena a.old h ns → Arena a.new (set (set (set h pairs_word pairs) seen_word seen) mark_word mark) ns }
{
    a[PAIRS] = pairs;
    a[SEEN] = seen;
    a[MARK] = mark;
}

// Ends a load: stocks the right border, sets the counts and writes the header.
// Stays two words, the flag seen and the mark: docs/ARCHITECTURE.md names it, and it took any two.
pub fn finish(a: &mut [u64], pairs: u64, seen: u64, mark: u64)
    requires { EndedIn a.old }
    ensures { (g : Rest) (ps : List Pair) (m : Mark) → Ended a.old g (load.push_all ps load.begun) → Tells m ps pairs seen mark → Sound (load.loaded_with m g.size ps) → a.new ≡ words_of (load.loaded_with m g.size ps) }
{
    fix_right_border_of_plentiful(a);
    let root = header::root(a);
    let below = header::height(a);
    count_node(a, root, below);
    tell(a, pairs, seen, mark);
}

// Loads a run that rises into a formatted arena with nodes enough, with a mark that no key exceeds.
// Stays two words, the flag seen and the mark: docs/ARCHITECTURE.md names it, and it took any two.
pub fn load_marked(a: &mut [u64], run: &[u64], seen: u64, mark: u64)
    requires { LoadsIn a.old run.now }
    ensures { (n : ℕ) (m : Mark) → Loads n a.old run.now → All (λ (p : Pair). Covers m p.key) (pairs_of run.now) → seen ≡ seen_of m → mark ≡ mark_of m → a.new ≡ words_of (load.loaded_with m n (pairs_of run.now)) }
{
    bulk_push(a, run);
    let n = run.len();
    finish(a, (n / 2) as u64, seen, mark);
}

// The last key of a run, which is its mark.
fn last_key(run: &[u64]) -> Option<u64>
    requires { Even (length run.now) }
    ensures { marked result ≡ load.last_mark (pairs_of run.now) }
{
    match run {
        [.., key, _] => Some(*key),
        _ => None,
    }
}

// Loads it with its last key as the mark.
pub fn load_formatted(a: &mut [u64], run: &[u64])
    requires { LoadsIn a.old run.now }
    ensures { (n : ℕ) → Loads n a.old run.now → a.new ≡ words_of (load.loaded n (pairs_of run.now)) }
{
    let mark = last_key(run);
    load_marked(a, run, u64::from(mark.is_some()), mark.unwrap_or(0));
}

// Whether the keys of a run rise strictly.
pub fn rises(run: &[u64]) -> bool
    requires { Even (length run.now) }
    ensures { Decides result (Rising (pairs_of run.now)) }
{
    let (pairs, _) = run.as_chunks::<2>();
    pairs.is_sorted_by(|pair, next| pair[0] < next[0])
}
