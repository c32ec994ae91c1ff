// The checker: whether words are a well-formed arena. One walk down the tree in the order of its keys, then the free chain.
// It only reads, ends on any words, and meets at most as many nodes as there are.
#![tactic(auto)]

ghost use Rattle.std.specs.Prelude.{◌≡◌, ◌-◌, ◌<◌, ◌≤◌, MatchOption, OnOk, OnErr, IfErr};
ghost use Rattle.model.specs.Layout.{Counts, header, count_word, least, most, total_word, word_at_by};
ghost use Rattle.model.specs.WellFormed.{WellFormedBy, WellFormed, root_fewest};
ghost use Rattle.model.specs.Public.{Promised};
ghost use Rattle.model.specs.Public as promise;
ghost use Rattle.model.specs.Answer.{said_done};
ghost use Rattle.inspect.specs.Tests.{Decides, reached};
ghost use Rattle.checker.specs.Walks.{Said, Tells, key_task, keys_task, child_of, edges_task, node_task};
ghost use Rattle.checker.specs.Whole.{HeadingBy, tree, start, FinishedBy};

use formats::{Arena, Format, Format1, Format2, base_of};
use header::{HIGHEST, LARGEST};
use inspect::{Visit, above, ascents, chain, lead, marked, own, own_leaf};
use model::{Layout, Refused};
use node::{HEADER, MIN_LEN, NONE, NodeNo, Place};
use std::marker::PhantomData;

// What is left to be met, nodes and pairs, and the last key. It falls, so that hostile words cost no more than the nodes there are.
#[derive(Clone, Copy)]
pub struct Walk {
    pub nodes: usize,
    pub pairs: usize,
    pub last: Option<u64>,
}

// Passes one pair.
fn pass_key(w: Walk, key: u64) -> Option<Walk>
    ensures { Said (key_task key) w result }
{
    if w.pairs == 0 || !above(w.last, key) {
        return None;
    }
    Some(Walk {
        nodes: w.nodes,
        pairs: w.pairs - 1,
        last: Some(key),
    })
}

// The n keys of a root that is a leaf.
fn check_keys<F: Format>(arena: &Arena<F>, node: NodeNo, n: usize, before: Walk) -> Option<Walk>
    requires { (node.0 < arena.now.count) × (n ≤ most) }
    ensures { Said (keys_task F.layout arena.now.words.now node.0 n) before result }
{
    let mut w = before;
    for i in 0..n {
        w = pass_key(w, arena.key(node, Place(i)))?;
    }
    Some(w)
}

// The node that an edge leads to, one level lower.
fn child<F: Format>(arena: &Arena<F>, node: NodeNo, at: Place, below: usize) -> Visit
    requires { (node.0 < arena.now.count) × (at.0 ≤ most) }
    ensures { reached result ≡ child_of F.layout arena.now.words.now below node.0 at.0 }
{
    Visit {
        below,
        fewest: MIN_LEN,
        node: arena.edge(node, at),
        parent: node.0 as u64,
        place: at,
    }
}

// Whether a node's count is so many pairs; format 1 has no counts.
fn counted<F: Format>(arena: &Arena<F>, node: NodeNo, pairs: usize) -> bool
    requires { node.0 < arena.now.count }
    ensures { Decides result (Counts F.layout → word_at_by F.layout arena.now.words.now node.0 total_word ≡ pairs) }
{
    arena.total(node).is_none_or(|total| total == pairs as u64)
}

// A leaf that is not the root, with no turns by its length: the words not in use are 0, and nothing is below 0, so that all ascents lie among its
// keys. They rise strictly when there is one ascent less than there are keys.
fn check_leaf<F: Format>(arena: &Arena<F>, v: Visit, before: Walk) -> Option<Walk>
    requires { (v.below ≡ 0) × (v.fewest ≡ least) }
    ensures { Said (node_task F.layout arena.now.words.now arena.now.count (reached v)) before result }
{
    if before.nodes == 0 || !own_leaf(arena, v) {
        return None;
    }
    let node = v.node;
    let n = arena.len(node);
    if before.pairs < n
        || !above(before.last, arena.key(node, Place(0)))
        || ascents(arena, node) + 1 != n
        || !counted(arena, node, n)
    {
        return None;
    }
    Some(Walk {
        nodes: before.nodes - 1,
        pairs: before.pairs - n,
        last: Some(arena.key(node, Place(n - 1))),
    })
}

// What was passed in a node and below it, where its count says as much.
fn told<F: Format>(arena: &Arena<F>, node: NodeNo, before: Walk, after: Walk) -> Option<Walk>
    requires { (node.0 < arena.now.count) × (after.pairs ≤ before.pairs) }
    ensures { Tells F.layout (word_at_by F.layout arena.now.words.now node.0 total_word) before after result }
{
    if !counted(arena, node, before.pairs - after.pairs) {
        return None;
    }
    Some(after)
}

// A node is sound when its edges are.
#[cycle(check_edges_check_node)]
fn check_node<F: Format>(arena: &Arena<F>, v: Visit, before: Walk) -> Option<Walk>
    ensures { Said (node_task F.layout arena.now.words.now arena.now.count (reached v)) before result }
{
    if before.nodes == 0 || !own(arena, v) {
        return None;
    }
    let w = Walk {
        nodes: before.nodes - 1,
        pairs: before.pairs,
        last: before.last,
    };
    let node = v.node;
    let n = arena.len(node);
    if v.below == 0 {
        return told(arena, node, before, check_keys(arena, node, n, w)?);
    }
    if !lead(arena, node, n) {
        return None;
    }
    told(
        arena,
        node,
        before,
        check_edges(arena, node, n, v.below - 1, w)?,
    )
}

// The node that an edge leads to.
#[cycle(check_edges_check_node)]
fn check_child<F: Format>(arena: &Arena<F>, v: Visit, before: Walk) -> Option<Walk>
    requires { v.fewest ≡ least }
    ensures { Said (node_task F.layout arena.now.words.now arena.now.count (reached v)) before result }
{
    if v.below == 0 {
        check_leaf(arena, v, before)
    } else {
        check_node(arena, v, before)
    }
}

// An edge is sound when the node below is; the keys stand between the edges. There is one call for all edges, which the compiler then puts
// in its place: with a call before the loop and one in it, a check took a fifth more instructions.
#[cycle(check_edges_check_node)]
fn check_edges<F: Format>(
    arena: &Arena<F>,
    node: NodeNo,
    n: usize,
    below: usize,
    before: Walk,
) -> Option<Walk>
    requires { (node.0 < arena.now.count) × (n ≤ most) }
    ensures { Said (edges_task F.layout arena.now.words.now arena.now.count below node.0 n) before result }
{
    let mut w = before;
    for i in 0..n + 1 {
        w = check_child(arena, child(arena, node, Place(i), below), w)?;
        if i == n {
            break;
        }
        w = pass_key(w, arena.key(node, Place(i)))?;
    }
    Some(w)
}

// The fewest pairs of a root.
fn root_fewest(height: usize) -> usize
    ensures { result ≡ root_fewest height }
{
    if height == 0 { 0 } else { 1 }
}

// The arena, where the header's first words are right, the height not too high and the free nodes not too many.
fn heading<F: Format>(words: &[u64]) -> Option<Arena<'_, F>>
    ensures { MatchOption result (HeadingBy F.layout words.now → ⊥) (λ arena. HeadingBy F.layout words.now × (arena.words.now ≡ words.now) × (arena.count ≡ header words.now count_word)) }
{
    if words.len() < HEADER {
        return None;
    }
    let count = header::count(words);
    if header::format(words) != F::NUMBER
        || count == 0
        || count > LARGEST
        || words.len() != base_of::<F>(NodeNo(count))
        || header::offset(words) != HEADER
        || header::height(words) > HIGHEST
        || header::free_nodes(words) > count
    {
        return None;
    }
    Some(Arena {
        words,
        count,
        format: PhantomData,
    })
}

// Whether the walk met all nodes and pairs, and the free chain and the mark are right.
fn finished<F: Format>(arena: &Arena<F>, end: Walk) -> bool
    requires { HeadingBy F.layout arena.now.words.now × (arena.now.count ≡ header arena.now.words.now count_word) }
    ensures { Decides result (FinishedBy F.layout arena.now.words.now end) }
{
    let words = arena.words;
    end.nodes == 0
        && end.pairs == 0
        && chain(
            arena,
            header::first_free(words),
            header::free_nodes(words) as u64,
        )
        && marked(header::seen(words), header::mark(words), end.last)
}

// The walk over the whole tree, from the root on.
fn walk_tree<F: Format>(arena: &Arena<F>) -> Option<Walk>
    requires { HeadingBy F.layout arena.now.words.now × (arena.now.count ≡ header arena.now.words.now count_word) }
    ensures { Said (tree F.layout arena.now.words.now) (start arena.now.words.now) result }
{
    let words = arena.words;
    let height = header::height(words);
    let root = Visit {
        below: height,
        fewest: root_fewest(height),
        node: header::root(words),
        parent: NONE,
        place: Place(0),
    };
    let start = Walk {
        nodes: arena.count - header::free_nodes(words),
        pairs: header::pairs(words) as usize,
        last: None,
    };
    check_node(arena, root, start)
}

// Whether the words are a well-formed arena of a format: a copy of the code for each.
fn is_formed<F: Format>(a: &[u64]) -> bool
    ensures { Decides result (WellFormedBy F.layout a.now) }
{
    let Some(arena) = heading::<F>(a) else {
        return false;
    };
    let Some(end) = walk_tree(&arena) else {
        return false;
    };
    finished(&arena, end)
}

// The same of the format that is told.
// Stays a match on a value: the function is public (docs/ARCHITECTURE.md), and its clause takes the format as a value.
pub fn well_formed_by(f: Layout, a: &[u64]) -> bool
    ensures { Decides result (WellFormedBy f a.now) }
{
    match f {
        Layout::Format1 => is_formed::<Format1>(a),
        Layout::Format2 => is_formed::<Format2>(a),
    }
}

// Of format 2.
pub fn well_formed(a: &[u64]) -> bool
    ensures { Decides result (WellFormed a.now) }
{
    is_formed::<Format2>(a)
}

// Refuses words that are no well-formed arena.
// Stays a clause, WellFormed, of each function behind the check: the words are lent, and the first store of a put or delete breaks it, so a
// type would hold for the reading calls alone.
pub fn check(a: &[u64]) -> Result<(), Refused>
    ensures promise { Promised promise.check a.now a.now tt (said_done result) }
    ensures ok { OnOk result (WellFormed a.now) }
    ensures err { OnErr result (WellFormed a.now → ⊥) }
    ensures bad { IfErr result (λ r. r ≡ Refused.BadArena) }
{
    if !well_formed(a) {
        return Err(Refused::BadArena);
    }
    Ok(())
}
