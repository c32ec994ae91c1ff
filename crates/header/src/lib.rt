// The header of an arena: its words by name, and the sizes that an arena may have.
#![tactic(auto)]

ghost use Rattle.std.specs.Prelude.{◌≡◌, ◌+◌, ◌-◌, ◌<◌, ◌≤◌, length, set};
ghost use Rattle.model.specs.Layout.{header_size, header, format_word, count_word, offset_word, root_word, height_word, pairs_word, first_free_word, free_word, seen_word, mark_word};
ghost use Rattle.model.specs.Mark.{stored_mark};
ghost use Rattle.header.specs.Headers.{Counted, marked, raised};

use node::{HEADER, NodeNo, WORDS};

// Stays a function a word: a struct over the words would be made anew at each call between two writes, for the one fact that they are ten.

// The places of its words.
pub const FORMAT: usize = 0;

pub const COUNT: usize = 1;

pub const OFFSET: usize = 2;

pub const ROOT: usize = 3;

pub const HEIGHT: usize = 4;

pub const PAIRS: usize = 5;

pub const FIRST_FREE: usize = 6;

pub const FREE_NODES: usize = 7;

pub const SEEN: usize = 8;

pub const MARK: usize = 9;

// The most nodes, and the greatest height that so many can have.
pub const LARGEST: usize = 1_048_575;

pub const HIGHEST: usize = 8;

// How many nodes a slice of so many words is an arena of; None if of none.
pub fn node_count(long: usize) -> Option<usize>
    ensures { Counted long result }
{
    if long < HEADER {
        return None;
    }
    let count = (long - HEADER) / WORDS;
    if count == 0 || count > LARGEST || HEADER + WORDS * count != long {
        return None;
    }
    Some(count)
}

// The number of the format.
pub fn format(a: &[u64]) -> u64
    requires { header_size ≤ length a.now }
    ensures { result ≡ header a.now format_word }
{
    a[FORMAT]
}

// How many nodes there are.
pub fn count(a: &[u64]) -> usize
    requires { header_size ≤ length a.now }
    ensures { result ≡ header a.now count_word }
{
    a[COUNT] as usize
}

// Where the first node begins.
pub fn offset(a: &[u64]) -> usize
    requires { header_size ≤ length a.now }
    ensures { result ≡ header a.now offset_word }
{
    a[OFFSET] as usize
}

pub fn root(a: &[u64]) -> NodeNo
    requires { header_size ≤ length a.now }
    ensures { result.0 ≡ header a.now root_word }
{
    NodeNo(a[ROOT] as usize)
}

// The levels above the leaves.
pub fn height(a: &[u64]) -> usize
    requires { header_size ≤ length a.now }
    ensures { result ≡ header a.now height_word }
{
    a[HEIGHT] as usize
}

// The root and the height of a tree that has grown or lost a level.
pub fn set_root(a: &mut [u64], root: NodeNo, height: usize)
    requires { header_size ≤ length a.old }
    ensures { a.new ≡ set (set a.old root_word root.0) height_word height }
{
    a[ROOT] = root.0 as u64;
    a[HEIGHT] = height as u64;
}

// How many pairs there are.
pub fn pairs(a: &[u64]) -> u64
    requires { header_size ≤ length a.now }
    ensures { result ≡ header a.now pairs_word }
{
    a[PAIRS]
}

// A pair is counted, and one is counted off.
// Stays two functions: one for both would take the direction and match on it, and each asks something else of the count.
pub fn count_on(a: &mut [u64])
    requires { (header_size ≤ length a.old) × (header a.old pairs_word + 1 < 18446744073709551616) }
    ensures { a.new ≡ set a.old pairs_word (header a.old pairs_word + 1) }
{
    a[PAIRS] += 1;
}

pub fn count_off(a: &mut [u64])
    requires { (header_size ≤ length a.old) × (1 ≤ header a.old pairs_word) }
    ensures { a.new ≡ set a.old pairs_word (header a.old pairs_word - 1) }
{
    a[PAIRS] -= 1;
}

// The first free node, or NONE, and how many are free.
// Stays a number: the word that begins the chain, which the checker follows before it knows of any node.
pub fn first_free(a: &[u64]) -> u64
    requires { header_size ≤ length a.now }
    ensures { result ≡ header a.now first_free_word }
{
    a[FIRST_FREE]
}

pub fn free_nodes(a: &[u64]) -> usize
    requires { header_size ≤ length a.now }
    ensures { result ≡ header a.now free_word }
{
    a[FREE_NODES] as usize
}

pub fn set_free_nodes(a: &mut [u64], first: u64, nodes: usize)
    requires { header_size ≤ length a.old }
    ensures { a.new ≡ set (set a.old first_free_word first) free_word nodes }
{
    a[FIRST_FREE] = first;
    a[FREE_NODES] = nodes as u64;
}

// 1 if a mark was seen, and the mark, which is 0 until then.
// Stays two words: the checker reads them before they are known to be a mark, cut hands both on; others read stored_mark.
pub fn seen(a: &[u64]) -> u64
    requires { header_size ≤ length a.now }
    ensures { result ≡ header a.now seen_word }
{
    a[SEEN]
}

pub fn mark(a: &[u64]) -> u64
    requires { header_size ≤ length a.now }
    ensures { result ≡ header a.now mark_word }
{
    a[MARK]
}

// A key is spent: the mark rises to it if that is larger or nothing was seen.
pub fn raise_mark(a: &mut [u64], key: u64)
    requires { header_size ≤ length a.old }
    ensures { a.new ≡ raised key a.old }
{
    a[MARK] = a[MARK].max(key);
    a[SEEN] = 1;
}

// The mark as a value: None until one was seen. An Option's own order is that of marks.
pub fn stored_mark(a: &[u64]) -> Option<u64>
    requires { header_size ≤ length a.now }
    ensures { marked result ≡ stored_mark a.now }
{
    if a[SEEN] == 0 {
        return None;
    }
    Some(a[MARK])
}
