// The upper part cut off (split.rs): the pairs from a key on go in order into a second slice, and leave the first arena.
#![tactic(auto)]

ghost use Rattle.std.specs.Prelude.{◌≡◌, List};
ghost use Rattle.model.specs.Tree.{Pair};
ghost use Rattle.model.specs.State.{State};
ghost use Rattle.model.specs.Words.{words_of};
ghost use Rattle.model.specs.Load.{push_all, begun, loaded_with};
ghost use Rattle.model.specs.Parting.{cut_off, part_off};
ghost use Rattle.model.specs.WellFormed.{WellFormed};
ghost use Rattle.model.specs.Promise.{Holds};
ghost use Rattle.model.specs.Answer.{said_done};
ghost use Rattle.model.specs.Public.{Promised};
ghost use Rattle.model.specs.Public as promise;
ghost use Rattle.standing.specs.Heads.{Rest};
ghost use Rattle.appending.specs.Runs.{Ended};
ghost use Rattle.cutting.specs.Halves.{half};
ghost use Rattle.cut.specs.Moves.{Moving, MovingIn, Upper, UpperIn};

use append::{finish, nodes_for, push};
use border::fix_right_border;
use checker::check;
use format::write_all;
use header::{PAIRS, node_count};
use listing::peek;
use model::{Refused, SearchBound};
use navigate::lower_leaf_edge;
use node::{NodeNo, total};
use ranks::passed;
use search::Handle;
use split::cut_along;
use sweep::sweep;

// The pairs from a key on go, and the nodes right of its way are free; the border is still short.
fn cut_half(a: &mut [u64], key: u64)
    requires { WellFormed a.old }
    ensures { (s : State) → Holds a.old s → a.new ≡ words_of (half key s) }
{
    let edge = lower_leaf_edge(a, SearchBound::Included(key));
    cut_along(a, edge.node, edge.at);
    sweep(a, key);
    a[PAIRS] = total(a, header::root(a));
}

// The pairs from a key on go.
pub fn cut_first(a: &mut [u64], key: u64)
    requires { WellFormed a.old }
    ensures { (s : State) → Holds a.old s → Holds a.new (cut_off key s) }
{
    cut_half(a, key);
    fix_right_border(a);
}

// Pushes the pairs right of a leaf edge, so many, into the empty tree of a formatted arena.
fn push_after(a: &[u64], b: &mut [u64], from: Handle, pairs: usize)
    requires { MovingIn a.now b.old 0 pairs from }
    ensures { (s : State) → Holds a.now s → (g : Rest) (all : List Pair) → Moving s g all b.old 0 pairs from → Ended b.new g (push_all all begun) }
{
    let mut leaf = NodeNo(0);
    let mut at = from;
    for _ in 0..pairs {
        let Some((kv, next)) = peek(a, at) else {
            return;
        };
        leaf = push(b, leaf, kv);
        at = next;
    }
}

// Formats a slice for so many nodes and loads the pairs from a key on, so many, with the mark of their arena.
fn load_upper(a: &[u64], b: &mut [u64], key: u64, pairs: usize, nodes: usize)
    requires { UpperIn key a.now b.old pairs nodes }
    ensures { (s : State) → Holds a.now s → Upper key s b.old pairs nodes → b.new ≡ words_of (loaded_with s.mark nodes (part_off key s)) }
{
    let from = lower_leaf_edge(a, SearchBound::Included(key));
    write_all(b, nodes);
    push_after(a, b, from, pairs);
    finish(b, pairs as u64, header::seen(a), header::mark(a));
}

// Cuts the pairs from a key on off the first arena, into the second slice, whose words do not matter.
pub fn cut(first: &mut [u64], second: &mut [u64], key: u64) -> Result<(), Refused>
    ensures { Promised (promise.cut key second.old) first.old first.new second.new (said_done result) }
{
    let nodes = node_count(second.len()).ok_or(Refused::BadSize)?;
    check(first)?;
    let pairs = (header::pairs(first) - passed(first, SearchBound::Included(key))) as usize;
    if nodes_for(pairs) > nodes {
        return Err(Refused::NoRoom);
    }
    load_upper(first, second, key, pairs, nodes);
    cut_first(first, key);
    Ok(())
}
