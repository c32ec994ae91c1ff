// Runs the checker on arenas damaged in one word at a time, for every word of a formatted arena and of a tree of three nodes with two
// free ones, and on three arenas that are wrong in one count alone; and formatting at every length. It prints each answer's number:
// docs/oracle/damage.py says how the stored list was made.
#![tactic(auto)]

ghost use Rattle.std.specs.Prelude.{◌≡◌, ◌+◌, ◌<◌, ◌≤◌, length, slice_index};
ghost use Rattle.model.specs.Answer.{numbers_of, said_done};
ghost use Rattle.damage.specs.Kinds.{digit_of, wrongs};

use checker::check;
use format::format;
use model::Refused;
use node::NONE;
use std::io;
use telling::say_line;

// The words of five nodes.
const LONG: usize = 205;

// How many values each word is damaged with.
const KINDS: usize = 14;

// Done, BadArena and BadSize by their numbers.
fn digit(r: Result<(), Refused>) -> u8
    ensures { result ≡ digit_of (numbers_of (said_done r)).number }
{
    match r {
        Ok(()) => b'0',
        Err(Refused::BadArena) => b'4',
        Err(Refused::BadSize) => b'7',
        Err(_) => b'?',
    }
}

// The values that v is replaced with.
fn wrongs(v: u64) -> [u64; KINDS]
    ensures { result ≡ wrongs v }
{
    let more = v.wrapping_add(1);
    let less = v.wrapping_sub(1);
    [more, less, 0, 1, 2, 3, 4, 5, 6, 7, 11, 12, NONE, u64::MAX]
}

// The answers for the arena with its word i damaged in each way; the word is then what it was.
fn damage(rt: &impl Print, a: &mut [u64], i: usize) -> io::Result<()>
    requires { i < length a.old }
{
    let v = a[i];
    let mut line = [b'\n'; KINDS + 1];
    for (j, wrong) in wrongs(v).iter().enumerate() {
        a[i] = *wrong;
        line[j] = digit(check(a));
    }
    a[i] = v;
    rt.write_all(&line)
}

// The header from the root's number on, and the free nodes 1 and 2.
fn head(a: &mut [u64; LONG]) {
    a[3..10].copy_from_slice(&[3, 1, 12, 1, 2, 1, 12]);
    a[51] = 2;
    a[90] = NONE;
}

// 7 in node 3, between nodes 0 and 4.
fn root(a: &mut [u64; LONG]) {
    a[127..132].copy_from_slice(&[2, 1, NONE, 0, 7]);
    a[142] = 107;
    a[153..155].copy_from_slice(&[0, 4]);
    a[165] = 12;
}

// 1-6 in node 0, 8-12 in node 4.
fn leaves(a: &mut [u64; LONG]) {
    a[10..20].copy_from_slice(&[1, 6, 3, 0, 1, 2, 3, 4, 5, 6]);
    a[25..31].copy_from_slice(&[101, 102, 103, 104, 105, 106]);
    a[48] = 6;
    a[166..175].copy_from_slice(&[1, 5, 3, 1, 8, 9, 10, 11, 12]);
    a[181..186].copy_from_slice(&[108, 109, 110, 111, 112]);
    a[204] = 5;
}

// Formats words that are no arena at every length up to theirs, each time followed by a check: two answers a line.
fn sizes(rt: &impl Print, a: &mut [u64; LONG]) -> io::Result<()> {
    for k in 0..=LONG {
        let f = digit(format(&mut a[..k]));
        let c = digit(check(&a[..k]));
        rt.write_all(&[f, c, b'\n'])?;
    }
    Ok(())
}

// The answers for each word.
fn every_word(rt: &impl Print, a: &mut [u64]) -> io::Result<()> {
    for i in 0..a.len() {
        damage(rt, a, i)?;
    }
    Ok(())
}

// The answer for the arena as it is.
fn say(rt: &impl Print, a: &[u64]) -> io::Result<()> {
    let c = digit(check(a));
    rt.write_all(&[c, b'\n'])
}

// A leaf of 4 pairs, all else true of it.
fn short_leaf(rt: &impl Print, a: &mut [u64; LONG]) -> io::Result<()> {
    a[5] = 11;
    a[165..168].copy_from_slice(&[11, 1, 4]);
    a[174] = 0;
    a[185] = 0;
    a[204] = 4;
    say(rt, a)
}

// Node 2 neither reached nor in the chain.
fn lost_node(rt: &impl Print, a: &mut [u64; LONG]) -> io::Result<()> {
    a[6..8].copy_from_slice(&[1, 1]);
    a[51] = NONE;
    say(rt, a)
}

// The internal root empty, over node 0 alone; node 4 is free.
fn empty_root(rt: &impl Print, a: &mut [u64; LONG]) -> io::Result<()> {
    a[127..].fill(0);
    a[5..8].copy_from_slice(&[6, 1, 3]);
    a[90] = 4;
    a[127..130].copy_from_slice(&[2, 0, NONE]);
    a[165] = 6;
    a[168] = NONE;
    say(rt, a)
}

// The free nodes 2 and 1, a falling chain.
fn falling(rt: &impl Print, a: &mut [u64; LONG]) -> io::Result<()> {
    a[6] = 2;
    a[51] = NONE;
    a[90] = 1;
    say(rt, a)
}

// A count one too many and one too few, the root's true.
fn shifted_counts(rt: &impl Print, a: &mut [u64; LONG]) -> io::Result<()> {
    a[48] = 7;
    a[204] = 4;
    say(rt, a)
}

// The tree of three nodes.
fn tree(a: &mut [u64; LONG]) {
    head(a);
    root(a);
    leaves(a);
}

// The two formatted arenas.
fn formats(rt: &impl Print) -> io::Result<()> {
    let mut two = [7; 88];
    let _ = format(&mut two);
    say_line(rt, &two)?;
    let mut one = [7; 49];
    let _ = format(&mut one);
    every_word(rt, &mut one)
}

// The three arenas that are wrong in one count, the falling chain, and two nodes' counts.
fn counts(rt: &impl Print, a: &mut [u64; LONG]) -> io::Result<()> {
    short_leaf(rt, a)?;
    tree(a);
    lost_node(rt, a)?;
    tree(a);
    empty_root(rt, a)?;
    tree(a);
    falling(rt, a)?;
    tree(a);
    shifted_counts(rt, a)
}

fn main(rt: HostRuntime) -> io::Result<()> {
    formats(&rt)?;
    let mut a = [7; LONG];
    sizes(&rt, &mut a)?;
    tree(&mut a);
    every_word(&rt, &mut a)?;
    counts(&rt, &mut a)
}
