// The library that Rust and C link: the public calls under C's names, u64 throughout, a slice as its pointer and its length. A call returns
// its answer's number; what comes with the number is written through a pointer to one word.
#![tactic(auto)]

ghost use Rattle.std.specs.Prelude.{◌≡◌};
ghost use Rattle.model.specs.Public.{Promised};
ghost use Rattle.model.specs.Public as promise;
ghost use Rattle.batch.specs.Orders.{order_of};
ghost use Rattle.kept.specs.Kept.{Making, Stepping};
ghost use Rattle.model.specs.Answer.{numbers_of, said_listed, said_counted, said_picked};
ghost use Rattle.cuffgarnet.specs.Exported.{Numbered, Worded, Told, Summed, Paired, meant_by, bound_of, Spanned, IsRefusal, Between, CountBetween, SeekBy};

use batch::{batch, order};
use checker::check;
use cursor::Found;
use cut::cut;
use format::format;
use join::join;
use kept::{keep_first, keep_last, keep_next, keep_none, keep_previous, keep_seek};
use listing::list;
use load::load;
use map::{delete, get, put, reserve};
use model::{Answer, Counted, Listed, Page, Picked, Range, Refused, SearchBound};
use ranks::{at, count, rank};
use restore::restore;
use upgrade::upgrade;

// Writes an answer's second word out; its number.
fn hand_word(answer: Answer, second: &mut u64) -> u64
    ensures number { result ≡ (numbers_of answer).number }
    ensures word { second.new ≡ (numbers_of answer).word }
{
    *second = answer.word();
    answer.number()
}

// Writes a number that was told out; the answer's number.
fn hand_number(counted: Counted, second: &mut u64) -> u64
    ensures number { result ≡ (numbers_of counted.answer).number }
    ensures told { second.new ≡ counted.number }
{
    *second = counted.number;
    counted.answer.number()
}

// Writes a pair out; the answer's number.
fn hand_pair(picked: Picked, key: &mut u64, value: &mut u64) -> u64
    ensures number { result ≡ (numbers_of picked.answer).number }
    ensures key { key.new ≡ picked.key }
    ensures value { value.new ≡ (numbers_of picked.answer).word }
{
    *key = picked.key;
    hand_word(picked.answer, value)
}

// Formats the words.
#[unsafe(no_mangle)]
pub extern "C" fn cuffgarnet_format(arena: &mut [u64]) -> u64
    ensures { Numbered (Promised promise.format arena.old arena.new tt) result }
{
    Answer::from(format(arena)).number()
}

// Whether the words are a well-formed arena.
#[unsafe(no_mangle)]
pub extern "C" fn cuffgarnet_check(arena: &[u64]) -> u64
    ensures { Numbered (Promised promise.check arena.now arena.now tt) result }
{
    Answer::from(check(arena)).number()
}

// The value of a key.
#[unsafe(no_mangle)]
pub extern "C" fn cuffgarnet_get(arena: &[u64], key: u64, second: &mut u64) -> u64
    ensures { Worded (Promised (promise.get key) arena.now arena.now tt) result second.new }
{
    hand_word(Answer::found(get(arena, key)), second)
}

// Puts a pair.
#[unsafe(no_mangle)]
pub extern "C" fn cuffgarnet_put(arena: &mut [u64], key: u64, value: u64, second: &mut u64) -> u64
    ensures { Worded (Promised (promise.put key value) arena.old arena.new tt) result second.new }
{
    hand_word(Answer::former(put(arena, key, value)), second)
}

// Takes the pair of a key out.
#[unsafe(no_mangle)]
pub extern "C" fn cuffgarnet_delete(arena: &mut [u64], key: u64, second: &mut u64) -> u64
    ensures { Worded (Promised (promise.delete key) arena.old arena.new tt) result second.new }
{
    hand_word(Answer::found(delete(arena, key)), second)
}

// Spends a key above the mark, with no pair put.
#[unsafe(no_mangle)]
pub extern "C" fn cuffgarnet_reserve(arena: &mut [u64], key: u64) -> u64
    ensures { Numbered (Promised (promise.reserve key) arena.old arena.new tt) result }
{
    Answer::from(reserve(arena, key)).number()
}

// Runs one order by its code.
#[unsafe(no_mangle)]
pub extern "C" fn cuffgarnet_order(
    arena: &mut [u64],
    code: u64,
    key: u64,
    value: u64,
    second: &mut u64,
) -> u64
    ensures { Worded (Promised (promise.order (order_of code key value)) arena.old arena.new tt) result second.new }
{
    hand_word(order(arena, code, key, value), second)
}

// The bound of a kind.
// Stays a match on a number: C's interface.
fn bound_of(kind: u64, key: u64) -> Option<SearchBound>
    ensures { result ≡ bound_of kind key }
{
    match kind {
        0 => Some(SearchBound::AllIncluded),
        1 => Some(SearchBound::Included(key)),
        2 => Some(SearchBound::Excluded(key)),
        _ => None,
    }
}

// The range between two bounds; one of no kind is refused, behind a bad arena.
fn range_between(
    arena: &[u64],
    start: Option<SearchBound>,
    end: Option<SearchBound>,
) -> Result<Range, Refused>
    ensures { Spanned arena.now (λ q. result ≡ Ok q) (IsRefusal result) start end }
{
    match (start, end) {
        (Some(start), Some(end)) => Ok(Range { start, end }),
        _ => {
            check(arena)?;
            Err(Refused::BadRange)
        }
    }
}

// The listing between two bounds.
fn list_between(
    arena: &[u64],
    start: Option<SearchBound>,
    end: Option<SearchBound>,
    out: &mut [u64],
) -> Result<Page, Refused>
    ensures { Between start end arena.now out.old out.new (said_listed result) }
{
    list(arena, range_between(arena, start, end)?, out)
}

// Lists a range into a lent output.
#[unsafe(no_mangle)]
pub extern "C" fn cuffgarnet_list(
    arena: &[u64],
    start_kind: u64,
    start: u64,
    end_kind: u64,
    end: u64,
    out: &mut [u64],
    written: &mut u64,
    more: &mut u64,
) -> u64
    ensures { Told (Between (bound_of start_kind start) (bound_of end_kind end) arena.now out.old out.new) result written.new more.new }
{
    let listed = Listed::from(list_between(
        arena,
        bound_of(start_kind, start),
        bound_of(end_kind, end),
        out,
    ));
    *written = listed.wrote as u64;
    *more = u64::from(listed.more);
    listed.answer.number()
}

// Runs a batch of orders.
#[unsafe(no_mangle)]
pub extern "C" fn cuffgarnet_batch(arena: &mut [u64], orders: &[u64], answers: &mut [u64]) -> u64
    ensures { Numbered (Promised (promise.batch orders.now answers.old) arena.old arena.new answers.new) result }
{
    Answer::from(batch(arena, orders, answers)).number()
}

// Restores an image; the mark stays. An older image is meant where the last word is 1, and not where it is any other.
#[unsafe(no_mangle)]
pub extern "C" fn cuffgarnet_restore(arena: &mut [u64], image: &[u64], older: u64) -> u64
    ensures { Numbered (Promised (promise.restore (meant_by older) image.now) arena.old arena.new tt) result }
{
    Answer::from(restore(arena, image, older == 1)).number()
}

// How many keys are smaller than a key.
#[unsafe(no_mangle)]
pub extern "C" fn cuffgarnet_rank(arena: &[u64], key: u64, second: &mut u64) -> u64
    ensures { Summed (Promised (promise.rank key) arena.now arena.now tt) result second.new }
{
    hand_number(Counted::from(rank(arena, key)), second)
}

// How many pairs lie between two bounds.
fn count_between(
    arena: &[u64],
    start: Option<SearchBound>,
    end: Option<SearchBound>,
) -> Result<u64, Refused>
    ensures { CountBetween start end arena.now (said_counted result) }
{
    count(arena, range_between(arena, start, end)?)
}

// How many pairs a range has.
#[unsafe(no_mangle)]
pub extern "C" fn cuffgarnet_count(
    arena: &[u64],
    start_kind: u64,
    start: u64,
    end_kind: u64,
    end: u64,
    second: &mut u64,
) -> u64
    ensures { Summed (CountBetween (bound_of start_kind start) (bound_of end_kind end) arena.now) result second.new }
{
    let counted = count_between(arena, bound_of(start_kind, start), bound_of(end_kind, end));
    hand_number(Counted::from(counted), second)
}

// The pair that so many pairs are before.
#[unsafe(no_mangle)]
pub extern "C" fn cuffgarnet_at(arena: &[u64], rank: u64, key: &mut u64, value: &mut u64) -> u64
    ensures { Paired (Promised (promise.at rank) arena.now arena.now tt) result key.new value.new }
{
    hand_pair(Picked::from(at(arena, rank)), key, value)
}

// A cursor at the first pair.
#[unsafe(no_mangle)]
pub extern "C" fn cuffgarnet_first(
    arena: &[u64],
    changes: u64,
    cursor: &mut [u64],
    key: &mut u64,
    value: &mut u64,
) -> u64
    ensures { Paired (Making (Promised (promise.first changes) arena.now arena.now) cursor.old cursor.new) result key.new value.new }
{
    hand_pair(Picked::from(keep_first(arena, changes, cursor)), key, value)
}

// A cursor at the last pair.
#[unsafe(no_mangle)]
pub extern "C" fn cuffgarnet_last(
    arena: &[u64],
    changes: u64,
    cursor: &mut [u64],
    key: &mut u64,
    value: &mut u64,
) -> u64
    ensures { Paired (Making (Promised (promise.last changes) arena.now arena.now) cursor.old cursor.new) result key.new value.new }
{
    hand_pair(Picked::from(keep_last(arena, changes, cursor)), key, value)
}

// A seek by the kind of its bound.
fn seek_by(arena: &[u64], changes: u64, start: Option<SearchBound>, cursor: &mut [u64]) -> Found
    ensures { SeekBy start changes arena.now cursor.old cursor.new (said_picked result) }
{
    match start {
        Some(start) => keep_seek(arena, changes, start, cursor),
        None => keep_none(arena, changes, cursor),
    }
}

// A cursor at the first pair that a start bound admits.
#[unsafe(no_mangle)]
pub extern "C" fn cuffgarnet_seek(
    arena: &[u64],
    changes: u64,
    kind: u64,
    bound: u64,
    cursor: &mut [u64],
    key: &mut u64,
    value: &mut u64,
) -> u64
    ensures { Paired (SeekBy (bound_of kind bound) changes arena.now cursor.old cursor.new) result key.new value.new }
{
    let found = seek_by(arena, changes, bound_of(kind, bound), cursor);
    hand_pair(Picked::from(found), key, value)
}

// The cursor steps to the next pair.
#[unsafe(no_mangle)]
pub extern "C" fn cuffgarnet_next(
    arena: &[u64],
    changes: u64,
    cursor: &mut [u64],
    key: &mut u64,
    value: &mut u64,
) -> u64
    ensures { Paired (Stepping (λ c. Promised (promise.next changes c) arena.now arena.now) cursor.old cursor.new) result key.new value.new }
{
    hand_pair(Picked::from(keep_next(arena, changes, cursor)), key, value)
}

// The cursor steps to the pair before.
#[unsafe(no_mangle)]
pub extern "C" fn cuffgarnet_previous(
    arena: &[u64],
    changes: u64,
    cursor: &mut [u64],
    key: &mut u64,
    value: &mut u64,
) -> u64
    ensures { Paired (Stepping (λ c. Promised (promise.previous changes c) arena.now arena.now) cursor.old cursor.new) result key.new value.new }
{
    hand_pair(
        Picked::from(keep_previous(arena, changes, cursor)),
        key,
        value,
    )
}

// Reads a format 1 arena into a second slice.
#[unsafe(no_mangle)]
pub extern "C" fn cuffgarnet_upgrade(source: &[u64], target: &mut [u64]) -> u64
    ensures { Numbered (Promised (promise.upgrade source.now) target.old target.new tt) result }
{
    Answer::from(upgrade(source, target)).number()
}

// Loads a sorted run into words that it formats.
#[unsafe(no_mangle)]
pub extern "C" fn cuffgarnet_load(arena: &mut [u64], run: &[u64]) -> u64
    ensures { Numbered (Promised (promise.load run.now) arena.old arena.new tt) result }
{
    Answer::from(load(arena, run)).number()
}

// Cuts the pairs from a key on off the first arena, into a second slice.
#[unsafe(no_mangle)]
pub extern "C" fn cuffgarnet_cut(arena: &mut [u64], key: u64, upper: &mut [u64]) -> u64
    ensures { Numbered (Promised (promise.cut key upper.old) arena.old arena.new upper.new) result }
{
    Answer::from(cut(arena, upper, key)).number()
}

// Joins a second arena to the first; the joined run is written to a third slice.
#[unsafe(no_mangle)]
pub extern "C" fn cuffgarnet_join(first: &mut [u64], second: &mut [u64], run: &mut [u64]) -> u64
    ensures { Numbered (Promised (promise.join second.old run.old) first.old first.new (second.new, run.new)) result }
{
    Answer::from(join(first, second, run)).number()
}
