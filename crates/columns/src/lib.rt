// Moves of words in the columns of nodes: one function for keys, values and edges.
#![tactic(auto)]

ghost use Rattle.std.specs.Prelude.{◌≡◌, ◌≢◌, List, [], ◌∷◌, ◌++◌, ℕ, ◌+◌, ◌<◌, ◌≤◌, length, take, drop, get_or, set};
ghost use Rattle.model.specs.Lists.{insert_at};
ghost use Rattle.model.specs.Layout.{node_size, most};
ghost use Rattle.slices.specs.Words.{remove_at};
ghost use Rattle.node.specs.Fields.{Fields, Column, start_of, room_of, column, row, Stored};
ghost use Rattle.node.specs.Reading.{Within};
ghost use Rattle.columns.specs.Columns.{In, put_column, put_columns, with_count};

use node::{CAPACITY, LEN, NodeNo, node_base};
use slices::{move_words, slice_insert, slice_remove, slice_shl, slice_shr};

// Writes how many pairs a node holds.
pub fn set_len(a: &mut [u64], n: NodeNo, len: usize)
    requires { Within a.old n.0 }
    ensures { (h : List ℕ) (fs : List Fields) → n.0 < length fs → Stored a.old h fs → Stored a.new h (set fs n.0 (with_count len (row fs n.0))) }
{
    let b = node_base(n);
    a[b + LEN] = len as u64;
}

// Puts a word in at a place of a column that has `count` words in use and room for one more.
// Stays a node and its column side by side, here and below: a record of both would be made at each call and taken apart in its first line.
pub fn insert_word(a: &mut [u64], n: NodeNo, col: usize, count: usize, at: usize, x: u64)
    requires { Within a.old n.0 × (col + count < node_size) × (at ≤ count) }
    ensures { (h : List ℕ) (fs : List Fields) (k : Column) → In fs n.0 k col count → count < room_of k → Stored a.old h fs → Stored a.new h (put_column fs n.0 k (insert_at (column k (row fs n.0)) at x)) }
{
    let s = node_base(n) + col;
    let e = s + (count + 1);
    slice_insert(&mut a[s..e], at, x);
}

// Puts a word in the place of another in a column, and hands that back.
pub fn replace_word(a: &mut [u64], n: NodeNo, col: usize, at: usize, x: u64) -> u64
    requires { Within a.old n.0 × (col + at < node_size) }
    ensures { (h : List ℕ) (fs : List Fields) (k : Column) → n.0 < length fs → col ≡ start_of k → at < length (column k (row fs n.0)) → Stored a.old h fs → (result ≡ get_or (column k (row fs n.0)) at 0) × Stored a.new h (put_column fs n.0 k (set (column k (row fs n.0)) at x)) }
{
    let p = col + at;
    let i = node_base(n) + p;
    let old = a[i];
    a[i] = x;
    old
}

// Takes the word at a place out of a column that has `count` words in use.
pub fn remove_word(a: &mut [u64], n: NodeNo, col: usize, count: usize, at: usize) -> u64
    requires { Within a.old n.0 × (col + count ≤ node_size) × (at < count) }
    ensures { (h : List ℕ) (fs : List Fields) (k : Column) → In fs n.0 k col count → Stored a.old h fs → (result ≡ get_or (column k (row fs n.0)) at 0) × Stored a.new h (put_column fs n.0 k (remove_at (column k (row fs n.0)) at)) }
{
    let s = node_base(n) + col;
    let e = s + count;
    slice_remove(&mut a[s..e], at)
}

// Puts a word in at a place of a column of eleven words that has room for one more, in a fixed number of turns.
// Stays beside insert_word: by that one, a put or delete mispredicts once more (callgrind); by this one, a load would move ten words for none.
pub fn open_word(a: &mut [u64], n: NodeNo, col: usize, at: usize, x: u64)
    requires { Within a.old n.0 × (col + most ≤ node_size) × (at < most) }
    ensures { (h : List ℕ) (fs : List Fields) (k : Column) (count : ℕ) → In fs n.0 k col count → count < most → at ≤ count → Stored a.old h fs → Stored a.new h (put_column fs n.0 k (insert_at (column k (row fs n.0)) at x)) }
{
    let s = node_base(n) + col;
    let e = s + CAPACITY;
    open_words(&mut a[s..e], at, x);
}

// Takes the word at a place out of a column of eleven words, in a fixed number of turns.
// Stays beside remove_word, as open_word does.
pub fn close_word(a: &mut [u64], n: NodeNo, col: usize, at: usize) -> u64
    requires { Within a.old n.0 × (col + most ≤ node_size) × (at < most) }
    ensures { (h : List ℕ) (fs : List Fields) (k : Column) (count : ℕ) → In fs n.0 k col count → count ≤ most → at < count → Stored a.old h fs → (result ≡ get_or (column k (row fs n.0)) at 0) × Stored a.new h (put_column fs n.0 k (remove_at (column k (row fs n.0)) at)) }
{
    let s = node_base(n) + col;
    let e = s + CAPACITY;
    close_words(&mut a[s..e], at)
}

// As slice_insert, of eleven words: each is written, from the last on.
fn open_words(s: &mut [u64], at: usize, x: u64)
    requires { (length s.old ≡ most) × (at < most) }
    ensures { s.new ≡ take (length s.old) (insert_at s.old at x) }
{
    for j in (1..CAPACITY).rev() {
        let from = if at < j { j - 1 } else { j };
        s[j] = s[from];
    }
    s[at] = x;
}

// As slice_remove, of eleven words: each is written, from the first on.
// Stays beside open_words: the words move the other way, in the other order, so one function would be two bodies under a match.
fn close_words(s: &mut [u64], at: usize) -> u64
    requires { (length s.old ≡ most) × (at < most) }
    ensures { (result ≡ get_or s.old at 0) × (s.new ≡ remove_at s.old at ++ 0 ∷ []) }
{
    let x = s[at];
    for j in 0..CAPACITY - 1 {
        let from = if at <= j { j + 1 } else { j };
        s[j] = s[from];
    }
    s[CAPACITY - 1] = 0;
    x
}

// Moves the last `count` words of the left node's column, from a place on, before those of the right node's, which has `len`.
pub fn move_last(
    a: &mut [u64],
    left: NodeNo,
    right: NodeNo,
    col: usize,
    from: usize,
    count: usize,
    len: usize,
)
    requires within { Within a.old left.0 × Within a.old right.0 × (left.0 ≢ right.0) }
    requires count_bound { (col + (from + count) ≤ node_size) × (col + (len + count) ≤ node_size) }
    ensures { (h : List ℕ) (fs : List Fields) (k : Column) → In fs left.0 k col (from + count) → In fs right.0 k col len → len + count ≤ room_of k → Stored a.old h fs → Stored a.new h (put_columns fs left.0 right.0 k (take from (column k (row fs left.0))) (drop from (column k (row fs left.0)) ++ column k (row fs right.0))) }
{
    let s = node_base(right) + col;
    let e = s + (len + count);
    slice_shr(&mut a[s..e], count);
    let f = node_base(left) + (col + from);
    move_words(a, f, s, count);
}

// Moves the first `count` words of the right node's column, which has `len`, behind those of the left node's, which has `at`.
// Stays beside move_last: there room is made before the words move, here it is closed after, so one function would be two bodies under a match.
pub fn move_first(
    a: &mut [u64],
    left: NodeNo,
    right: NodeNo,
    col: usize,
    at: usize,
    count: usize,
    len: usize,
)
    requires within { Within a.old left.0 × Within a.old right.0 × (left.0 ≢ right.0) }
    requires count_bound { (col + (at + count) ≤ node_size) × (col + len ≤ node_size) × (count ≤ len) }
    ensures { (h : List ℕ) (fs : List Fields) (k : Column) → In fs left.0 k col at → In fs right.0 k col len → at + count ≤ room_of k → Stored a.old h fs → Stored a.new h (put_columns fs left.0 right.0 k (column k (row fs left.0) ++ take count (column k (row fs right.0))) (drop count (column k (row fs right.0)))) }
{
    let s = node_base(right) + col;
    let t = node_base(left) + (col + at);
    move_words(a, s, t, count);
    let e = s + len;
    slice_shl(&mut a[s..e], count);
}
