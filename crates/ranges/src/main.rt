// Gets keys and lists ranges on three arenas, empty, of one leaf and of three levels: every kind of bound at keys around the borders of
// the nodes, with room for three pairs and with room for all. docs/oracle/ranges.rs says how the stored list was made.
#![tactic(auto)]

ghost use Rattle.std.specs.Prelude.{◌≡◌, ◌+◌, ◌*◌, ◌<◌, ◌≤◌, length};
ghost use Rattle.ranges.specs.Bounds.{tried_bounds};

use format::format;
use listing::list;
use map::get;
use model::{Answer, Listed, Range, SearchBound};
use node::NONE;
use std::io;
use telling::{say, say_line};

// The words of fifteen nodes.
const LONG: usize = 595;

// The bounds at either end, in the order in which they are tried.
fn bounds() -> [SearchBound; 13]
    ensures { result ≡ tried_bounds }
{
    [
        SearchBound::Included(1),
        SearchBound::Included(5),
        SearchBound::Included(6),
        SearchBound::Included(70),
        SearchBound::Included(72),
        SearchBound::Included(142),
        SearchBound::Excluded(1),
        SearchBound::Excluded(5),
        SearchBound::Excluded(6),
        SearchBound::Excluded(70),
        SearchBound::Excluded(72),
        SearchBound::Excluded(142),
        SearchBound::AllIncluded,
    ]
}

// Five pairs in a node, or fewer, the keys in even steps.
fn pairs(a: &mut [u64; LONG], n: usize, len: usize, first: u64, step: u64)
    requires { (n < 15) × (len ≤ 5) × (first < 1000) × (step < 100) }
{
    let b = 10 + 39 * n;
    let mut key = first;
    for i in 0..len {
        a[b + 4 + i] = key;
        a[b + 15 + i] = key + 1000;
        key += step;
    }
}

fn leaf(a: &mut [u64; LONG], n: usize, parent: u64, place: u64, first: u64, step: u64)
    requires { (n < 15) × (first < 1000) × (step < 100) }
{
    let b = 10 + 39 * n;
    a[b..b + 4].copy_from_slice(&[1, 5, parent, place]);
    a[b + 38] = 5;
    pairs(a, n, 5, first, step);
}

// An internal node below the root, with six leaves from node `child` on.
fn inner(a: &mut [u64; LONG], n: usize, place: u64, first: u64, child: usize)
    requires { (n < 15) × (first < 100) × (child < 10) }
{
    let b = 10 + 39 * n;
    a[b..b + 4].copy_from_slice(&[2, 5, 0, place]);
    a[b + 38] = 35;
    pairs(a, n, 5, first + 10, 12);
    for j in 0..6 {
        a[b + 26 + j] = (child + j) as u64;
        leaf(a, child + j, n as u64, j as u64, first + 12 * j as u64, 2);
    }
}

// The keys 2, 4, .. 142 at three levels.
fn three_levels(a: &mut [u64; LONG]) {
    a[4..10].copy_from_slice(&[2, 71, NONE, 0, 1, 142]);
    a[10..14].copy_from_slice(&[2, 1, NONE, 0]);
    pairs(a, 0, 1, 72, 0);
    a[36..38].copy_from_slice(&[1, 2]);
    a[48] = 71;
    inner(a, 1, 0, 2, 3);
    inner(a, 2, 1, 74, 9);
}

// The keys 3 to 7 in the root.
fn one_leaf(a: &mut [u64; LONG]) {
    a[5] = 5;
    a[8..10].copy_from_slice(&[1, 7]);
    leaf(a, 0, NONE, 0, 3, 1);
}

// Lists a range into an output, and tells all that is answered and what the output then holds.
fn tell(rt: &impl Print, a: &[u64], range: Range, out: &mut [u64]) -> io::Result<()> {
    let listed = Listed::from(list(a, range, out));
    let number = listed.answer.number();
    let more = u64::from(listed.more);
    print!(rt; "{number} {} {more} ", listed.wrote)?;
    say_line(rt, out)
}

// The range with these bounds, with room for three pairs and one word over.
fn both(rt: &impl Print, a: &[u64], start: SearchBound, end: SearchBound) -> io::Result<()> {
    let mut out = [9; 7];
    tell(rt, a, Range { start, end }, &mut out)
}

fn ends(rt: &impl Print, a: &[u64], start: SearchBound) -> io::Result<()> {
    for end in bounds() {
        both(rt, a, start, end)?;
    }
    Ok(())
}

fn starts(rt: &impl Print, a: &[u64]) -> io::Result<()> {
    for start in bounds() {
        ends(rt, a, start)?;
    }
    Ok(())
}

// Every key up to 150, in a row of answers.
fn gets(rt: &impl Print, a: &[u64]) -> io::Result<()> {
    for key in 0..150 {
        let r = Answer::found(get(a, key));
        say(rt, r.number())?;
        say(rt, r.word())?;
    }
    println!(rt)
}

// All pairs, with room for just as many, for one fewer and for none.
fn whole(rt: &impl Print, a: &[u64]) -> io::Result<()> {
    let range = Range {
        start: SearchBound::AllIncluded,
        end: SearchBound::AllIncluded,
    };
    let mut enough = [9; 142];
    tell(rt, a, range, &mut enough)?;
    let mut short = [9; 140];
    tell(rt, a, range, &mut short)?;
    let mut none = [9; 1];
    tell(rt, a, range, &mut none)
}

fn all(rt: &impl Print, a: &[u64]) -> io::Result<()> {
    gets(rt, a)?;
    whole(rt, a)?;
    starts(rt, a)
}

fn main(rt: HostRuntime) -> io::Result<()> {
    let mut a = [7; LONG];
    all(&rt, &a)?;
    let _ = format(&mut a);
    all(&rt, &a)?;
    one_leaf(&mut a);
    all(&rt, &a)?;
    let _ = format(&mut a);
    three_levels(&mut a);
    all(&rt, &a)
}
