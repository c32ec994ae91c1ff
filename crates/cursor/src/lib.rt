// The walking cursor (map.rs, Cursor): a small value that goes from pair to pair, both ways. Each call checks the arena first.
#![tactic(auto)]

ghost use Rattle.std.specs.Prelude.{◌≡◌, ℕ, Err};
ghost use Rattle.model.specs.Search.{Spot};
ghost use Rattle.model.specs.State.{State, At};
ghost use Rattle.model.specs.WellFormed.{WellFormed};
ghost use Rattle.model.specs.Promise.{Holds};
ghost use Rattle.model.specs.Answer.{said_picked};
ghost use Rattle.model.specs.Public.{Promised};
ghost use Rattle.model.specs.Public as promise;
ghost use Rattle.model.specs.Cursor as on;
ghost use Rattle.inspect.specs.Tests.{Decides};
ghost use Rattle.navigate.specs.Places.{In, InTree, stepped};
ghost use Rattle.walking.specs.Arrived.{arrived};
ghost use Rattle.cursor.specs.Cursors.{stop_of, stand_of, cursor_of, moved_of, standing, Stepping, InNode, Ready, Checked};

use checker::check;
use model::{Refused, SearchBound};
use navigate::{lower_leaf_edge, next_back_kv, next_back_leaf_edge, next_kv, next_leaf_edge};
use node::{FREE, INTERNAL, NodeNo, Place, edge, key, len, state, val};
use search::Handle;

// Where a cursor stands: before the first pair, at a pair, or past the last.
#[derive(Clone, Copy)]
pub enum Stand {
    Before,
    At(NodeNo, Place),
    Past,
}

// The count of changes that it was made or moved with, and where it stands.
#[derive(Clone, Copy)]
pub struct Cursor {
    pub changes: u64,
    pub stand: Stand,
}

// What a call finds, key and value: the pair that the cursor has come to, or none at an end.
pub type Found = Result<Option<(u64, u64)>, Refused>;

// Where a move leads, and the pair there.
type Moved = (Stand, Option<(u64, u64)>);

// The pair that a step leads to, or the end.
fn arrive(a: &[u64], end: Stand, to: Option<Handle>) -> Moved
    requires { In a.now (λ s. Stepping s to) }
    ensures { (s : State) → Holds a.now s → (p : Spot) → InTree s.whole p → to ≡ stepped p → (n : ℕ) → moved_of n result ≡ arrived n (stand_of end) p }
{
    match to {
        Some(kv) => (
            Stand::At(kv.node, kv.at),
            Some((key(a, kv.node, kv.at), val(a, kv.node, kv.at))),
        ),
        None => (end, None),
    }
}

// To the first pair that a start bound admits.
fn from_start(a: &[u64], start: SearchBound) -> Moved
    requires { WellFormed a.now }
    ensures { (s : State) → Holds a.now s → (n : ℕ) → moved_of n result ≡ on.seek n start s }
{
    let edge = lower_leaf_edge(a, start);
    let to = next_kv(a, edge);
    arrive(a, Stand::Past, to)
}

// To the last pair: behind it is the edge of a bound that admits none.
// Stays beside from_start, as step_back beside step_on and previous beside next: each way has the Rust's own steps, and one function over both would be a switch.
fn from_end(a: &[u64]) -> Moved
    requires { WellFormed a.now }
    ensures { (s : State) → Holds a.now s → (n : ℕ) → moved_of n result ≡ on.last n s }
{
    let edge = lower_leaf_edge(a, SearchBound::AllExcluded);
    let to = next_back_kv(a, edge);
    arrive(a, Stand::Before, to)
}

// Whether a place holds a pair: its node is one of the arena's and not free, and the place is below its length.
fn holds_pair(a: &[u64], node: NodeNo, at: Place) -> bool
    requires { WellFormed a.now }
    ensures { Decides result (on.PairAt a.now (stop_of node at)) }
{
    node.0 < header::count(a) && state(a, node) != FREE && at.0 < len(a, node)
}

// The levels below a node, counted down its first edges.
fn height_of(a: &[u64], node: NodeNo) -> usize
    requires { In a.now (λ s. InNode s node.0) }
    ensures { (s : State) → Holds a.now s → (h : ℕ) → At s node.0 h → result ≡ h }
{
    let top = header::height(a);
    let mut below = node;
    for height in 0..top {
        if state(a, below) != INTERNAL {
            return height;
        }
        below = edge(a, below, Place(0));
    }
    top
}

// The pair after the one at a place.
fn step_on(a: &[u64], node: NodeNo, at: Place) -> Moved
    requires { WellFormed a.now × on.PairAt a.now (stop_of node at) }
    ensures { (s : State) → Holds a.now s → (n : ℕ) → moved_of n result ≡ on.next n (standing n node at) s }
{
    let height = height_of(a, node);
    let edge = next_leaf_edge(a, Handle { node, height, at });
    let to = next_kv(a, edge);
    arrive(a, Stand::Past, to)
}

// The pair before it.
fn step_back(a: &[u64], node: NodeNo, at: Place) -> Moved
    requires { WellFormed a.now × on.PairAt a.now (stop_of node at) }
    ensures { (s : State) → Holds a.now s → (n : ℕ) → moved_of n result ≡ on.previous n (standing n node at) s }
{
    let height = height_of(a, node);
    let edge = next_back_leaf_edge(a, Handle { node, height, at });
    arrive(a, Stand::Before, next_back_kv(a, edge))
}

impl Stand {
    // Where a step on leads; past the last pair it stays.
    fn next(self, a: &[u64]) -> Moved
        requires { WellFormed a.now × Ready a.now self }
        ensures { (s : State) → Holds a.now s → (n : ℕ) → moved_of n result ≡ on.next n (record { changes = n; stand = stand_of self }) s }
    {
        match self {
            Stand::Before => from_start(a, SearchBound::AllIncluded),
            Stand::At(node, at) => step_on(a, node, at),
            Stand::Past => (Stand::Past, None),
        }
    }

    // Where a step back leads; before the first pair it stays.
    fn previous(self, a: &[u64]) -> Moved
        requires { WellFormed a.now × Ready a.now self }
        ensures { (s : State) → Holds a.now s → (n : ℕ) → moved_of n result ≡ on.previous n (record { changes = n; stand = stand_of self }) s }
    {
        match self {
            Stand::Before => (Stand::Before, None),
            Stand::At(node, at) => step_back(a, node, at),
            Stand::Past => from_end(a),
        }
    }
}

// A cursor at the first pair.
pub fn first(a: &[u64], changes: u64) -> (Cursor, Found)
    ensures { Promised (promise.first changes) a.now a.now (cursor_of result.0) (said_picked result.1) }
{
    let stand = Stand::Past;
    Cursor { changes, stand }.seek(a, changes, SearchBound::AllIncluded)
}

// A cursor at the last pair.
pub fn last(a: &[u64], changes: u64) -> (Cursor, Found)
    ensures { Promised (promise.last changes) a.now a.now (cursor_of result.0) (said_picked result.1) }
{
    if let Err(refused) = check(a) {
        let stand = Stand::Before;
        return (Cursor { changes, stand }, Err(refused));
    }
    let (stand, found) = from_end(a);
    (Cursor { changes, stand }, Ok(found))
}

// Stays by value: each step takes the cursor and hands back the moved one, a rule of the project (docs/DECISIONS.md 97).
impl Cursor {
    // To the first pair that a start bound admits, wherever the cursor stood and whatever its count was. Refused, it stands past the last pair.
    pub fn seek(self, a: &[u64], changes: u64, start: SearchBound) -> (Cursor, Found)
        ensures { Promised (promise.seek changes start) a.now a.now (cursor_of result.0) (said_picked result.1) }
    {
        if let Err(refused) = check(a) {
            let stand = Stand::Past;
            return (Cursor { changes, stand }, Err(refused));
        }
        let (stand, found) = from_start(a, start);
        (Cursor { changes, stand }, Ok(found))
    }

    // Where it stands, unless a step from there is refused: the count must be the cursor's, and a place must still hold a pair.
    fn checked(&self, a: &[u64], changes: u64) -> Result<Stand, Refused>
        ensures { Checked a.now changes self.now result }
    {
        check(a)?;
        if changes != self.changes {
            return Err(Refused::StaleCursor);
        }
        match self.stand {
            Stand::At(node, at) if !holds_pair(a, node, at) => Err(Refused::StaleCursor),
            stand => Ok(stand),
        }
    }

    // A refused step: the cursor stays where it was.
    fn refused(self, refusal: Refused) -> (Cursor, Found)
        ensures { result ≡ (self, Err refusal) }
    {
        (self, Err(refusal))
    }

    // To the next pair.
    pub fn next(self, a: &[u64], changes: u64) -> (Cursor, Found)
        ensures { Promised (promise.next changes (cursor_of self)) a.now a.now (cursor_of result.0) (said_picked result.1) }
    {
        match self.checked(a, changes) {
            Ok(here) => {
                let (stand, found) = here.next(a);
                (Cursor { changes, stand }, Ok(found))
            }
            Err(refusal) => self.refused(refusal),
        }
    }

    // To the pair before.
    pub fn previous(self, a: &[u64], changes: u64) -> (Cursor, Found)
        ensures { Promised (promise.previous changes (cursor_of self)) a.now a.now (cursor_of result.0) (said_picked result.1) }
    {
        match self.checked(a, changes) {
            Ok(here) => {
                let (stand, found) = here.previous(a);
                (Cursor { changes, stand }, Ok(found))
            }
            Err(refusal) => self.refused(refusal),
        }
    }
}
