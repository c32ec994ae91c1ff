// Replays the records of standard input, 24 bytes each, on an index of 150 nodes: orders, listings and forks. All words of the arena are
// mixed into one number after each change, so that node shapes are compared as well. What it must write was written by the Rust's own
// btree code: oracle/README.md says how, and oracle/src/replay.rs what each record is.
#![tactic(auto)]

ghost use Rattle.std.specs.Prelude.{◌≡◌, ℕ, IfOk, OnErr};
ghost use Rattle.replay.specs.Records.{ListingMixed, Replays, Says, read_bound, bound_key, bound_kind, read_range};

use batch::order;
use checker::check;
use format::format;
use listing::list;
use model::{Answer, Listed, Range, SearchBound};
use search::{Handle, Parting, search_tree_for_bifurcation};
use std::io;
use telling::{RECORD, each_record, mix_words, say, say_answer, say_last, say_words, word_at};

// The words of 150 nodes.
const LONG: usize = 5860;

// Stays numbers: a record's words are numbers, and the conversion below makes a Record of them.
// The codes of records that are no orders; those of listings and forks have the kinds of both bounds in their lowest four bits.
const FORMAT: u64 = 256;

const LISTING: u64 = 512;

const FORK: u64 = 1024;

const TELL: u64 = 2048;

// What a record asks for.
#[derive(Clone, Copy)]
enum Record {
    Format,
    Listing(Range),
    Fork(Range),
    Tell,
    Order(u64, u64, u64),
}

// Of its three words.
impl From<(u64, u64, u64)> for Record {
    ghost from_gives = { Says };

    fn from((code, k, v): (u64, u64, u64)) -> Record {
        match code {
            FORMAT => Record::Format,
            TELL => Record::Tell,
            _ if code / 16 == LISTING / 16 => Record::Listing(range_of(code, k, v)),
            _ if code / 16 == FORK / 16 => Record::Fork(range_of(code, k, v)),
            _ => Record::Order(code, k, v),
        }
    }
}

// A bound of its kind.
// Stays a match on a number: a record's words are numbers, as oracle/src/replay.rs has them.
fn bound(kind: u64, key: u64) -> SearchBound
    ensures { result ≡ read_bound kind key }
{
    match kind {
        0 => SearchBound::AllIncluded,
        1 => SearchBound::Included(key),
        2 => SearchBound::Excluded(key),
        _ => SearchBound::AllExcluded,
    }
}

// The range of a listing or a fork.
fn range_of(code: u64, k: u64, v: u64) -> Range
    ensures { result ≡ read_range code k v }
{
    let start = bound(code / 4 % 4, k);
    let end = bound(code % 4, v);
    Range { start, end }
}

// A bound's kind and its key, 0 where it has none.
fn spelled(b: SearchBound) -> (u64, u64)
    ensures { result ≡ (bound_kind b, bound_key b) }
{
    match b {
        SearchBound::AllIncluded => (0, 0),
        SearchBound::Included(k) => (1, k),
        SearchBound::Excluded(k) => (2, k),
        SearchBound::AllExcluded => (3, 0),
    }
}

// Lists a range into eight pairs' room and a word; what the output then holds is mixed in.
fn listing(rt: &impl Print, a: &[u64], range: Range, mix: u64) -> io::Result<u64>
    ensures ok { IfOk result (λ now. ListingMixed range mix a.now now) }
    ensures err { OnErr result ((now : ℕ) × ListingMixed range mix a.now now) }
{
    let mut out = [9; 17];
    let listed = Listed::from(list(a, range, &mut out));
    let now = mix_words(mix, &out);
    let number = listed.answer.number();
    let more = u64::from(listed.more);
    println!(rt; "{number} {} {more} {now}", listed.wrote)?;
    Ok(now)
}

// Node, both edges and the children's bounds; or node and edge.
fn say_fork(rt: &impl Print, f: Result<Parting, Handle>) -> io::Result<()> {
    match f {
        Err(edge) => println!(rt; "{} {}", edge.node.0, edge.at.0),
        Ok(parted) => {
            let (start, first) = spelled(parted.bounds.start);
            let (end, last) = spelled(parted.bounds.end);
            println!(rt;
                "{} {} {} {start} {first} {end} {last}",
                parted.node.0, parted.lower.0, parted.upper.0
            )
        }
    }
}

// Where the edges of a range part, or the leaf edge where they do not.
fn fork(rt: &impl Print, a: &[u64], range: Range) -> io::Result<()> {
    match check(a) {
        Ok(()) => say_fork(rt, search_tree_for_bifurcation(a, range)),
        Err(refusal) => say_answer(rt, Answer::from(refusal)),
    }
}

// The mix so far and the header.
fn tell(rt: &impl Print, mix: u64, a: &[u64; LONG]) -> io::Result<()> {
    say(rt, mix)?;
    say_words(rt, &a[..9])?;
    say_last(rt, a[9])
}

// One record; the mix after it. Where it can't be told, it is done all the same.
fn run(rt: &impl Print, a: &mut [u64; LONG], code: u64, k: u64, v: u64, mix: u64) -> io::Result<u64>
    ensures ok { IfOk result (λ now. Replays code k v mix a.old a.new now) }
    ensures err { OnErr result ((now : ℕ) × Replays code k v mix a.old a.new now) }
{
    match Record::from((code, k, v)) {
        Record::Format => {
            say_answer(rt, Answer::from(format(a)))?;
            Ok(mix_words(mix, a))
        }
        Record::Listing(range) => listing(rt, a, range, mix),
        Record::Fork(range) => {
            fork(rt, a, range)?;
            Ok(mix)
        }
        Record::Tell => {
            tell(rt, mix, a)?;
            Ok(mix)
        }
        Record::Order(code, k, v) => {
            say_answer(rt, order(a, code, k, v))?;
            Ok(mix_words(mix, a))
        }
    }
}

// All records to the end of the input; a short last one is none.
fn run_all(rt: &(impl Input + Print), a: &mut [u64; LONG]) -> io::Result<()> {
    let mut mix = 0;
    each_record(&mut rt.reader(), |b| {
        if b.len() == RECORD {
            mix = run(rt, a, word_at(b, 0), word_at(b, 8), word_at(b, 16), mix)?;
        }
        Ok(())
    })
}

fn main(rt: HostRuntime) -> io::Result<()> {
    let mut a = [0; LONG];
    let _ = format(&mut a);
    run_all(&rt, &mut a)
}
