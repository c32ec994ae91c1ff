// The listing of a range (map.rs, range): the first pairs, rising, as many as the output has room for.
#![tactic(auto)]

ghost use Rattle.std.specs.Prelude.{◌≡◌};
ghost use Rattle.model.specs.Range.{bad_range, to_end};
ghost use Rattle.model.specs.Tree.{after};
ghost use Rattle.model.specs.State.{State};
ghost use Rattle.model.specs.Promise.{Holds};
ghost use Rattle.model.specs.Answer.{said_listed};
ghost use Rattle.model.specs.Public.{Promised};
ghost use Rattle.model.specs.Public as promise;
ghost use Rattle.navigate.specs.Places.{In, EdgeAt};
ghost use Rattle.listing.specs.Heads.{HeadOf, HeadUpTo};
ghost use Rattle.listing.specs.Written.{Written};

use checker::check;
use model::{Page, Range, Refused, SearchBound};
use navigate::{lower_leaf_edge, next_kv, next_leaf_edge};
use node::{Kv, key, val};
use search::Handle;

// Where the Rust panics: both bounds closed and start above end, or equal and both excluded.
pub fn bad_range(range: Range) -> bool
    ensures { result ≡ bad_range range }
{
    match (range.start, range.end) {
        (SearchBound::Excluded(s), SearchBound::Excluded(e)) => s >= e,
        (
            SearchBound::Included(s) | SearchBound::Excluded(s),
            SearchBound::Included(e) | SearchBound::Excluded(e),
        ) => s > e,
        _ => false,
    }
}

// Whether an end bound admits a key.
fn within_end(end: SearchBound, key: u64) -> bool
    ensures { result ≡ to_end end key }
{
    match end {
        SearchBound::Included(e) => key <= e,
        SearchBound::Excluded(e) => key < e,
        SearchBound::AllIncluded => true,
        SearchBound::AllExcluded => false,
    }
}

// The next pair of a walk, and the leaf edge after it.
pub type Head = Option<(Kv, Handle)>;

// The pair right of a leaf edge.
pub fn peek(a: &[u64], from: Handle) -> Head
    requires { In a.now (λ s. EdgeAt s from) }
    ensures { (s : State) → Holds a.now s → (y : EdgeAt s from) → HeadOf s (after y.way) result }
{
    let kv = next_kv(a, from)?;
    let pair = Kv(key(a, kv.node, kv.at), val(a, kv.node, kv.at));
    Some((pair, next_leaf_edge(a, kv)))
}

// The same, if the end admits it.
fn peek_within(a: &[u64], from: Handle, end: SearchBound) -> Head
    requires { In a.now (λ s. EdgeAt s from) }
    ensures { (s : State) → Holds a.now s → (y : EdgeAt s from) → HeadUpTo end s (after y.way) result }
{
    peek(a, from).filter(|head| within_end(end, head.0.0))
}

// Writes the pairs from a leaf edge up to the end, or up to the room.
// Stays with words at 2 * wrote: the count of pairs is the answer, and would be counted beside chunks all the same.
fn write_from(a: &[u64], from: Handle, end: SearchBound, out: &mut [u64]) -> Page
    requires { In a.now (λ s. EdgeAt s from) }
    ensures { (s : State) → Holds a.now s → (y : EdgeAt s from) → Written end y.way out.old out.new result }
{
    let room = out.len() / 2;
    let mut edge = from;
    for wrote in 0..room {
        let Some((pair, next)) = peek_within(a, edge, end) else {
            return Page { wrote, more: false };
        };
        out[2 * wrote] = pair.0;
        out[2 * wrote + 1] = pair.1;
        edge = next;
    }
    Page {
        wrote: room,
        more: peek_within(a, edge, end).is_some(),
    }
}

// Seeks the first pair of a range and walks on from there.
pub fn list(a: &[u64], range: Range, out: &mut [u64]) -> Result<Page, Refused>
    ensures { Promised (promise.list range out.old) a.now a.now out.new (said_listed result) }
{
    check(a)?;
    if bad_range(range) {
        return Err(Refused::BadRange);
    }
    Ok(write_from(a, lower_leaf_edge(a, range.start), range.end, out))
}
