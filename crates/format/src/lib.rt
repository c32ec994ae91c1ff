// Formatting: node 0 becomes an empty leaf root, and 1, 2, .. N-1 are chained in rising order.
#![tactic(auto)]

ghost use Rattle.std.specs.Prelude.{◌≡◌, ◌-◌, ◌<◌, ◌≤◌, ◌++◌, length, take};
ghost use Rattle.model.specs.Layout.{Sized, base, cells, header_size, largest_count, node_size, node_words};
ghost use Rattle.model.specs.State.{formatted};
ghost use Rattle.model.specs.Words.{first_or, header_of, words_of};
ghost use Rattle.model.specs.Answer.{said_done};
ghost use Rattle.model.specs.Public.{Promised};
ghost use Rattle.model.specs.Public as promise;
ghost use Rattle.format.specs.Formatting.{chain_after, empty_node, free_nodes};

use header::{COUNT, FIRST_FREE, FORMAT, FREE_NODES, OFFSET, node_count};
use model::Refused;
use node::{FREE, HEADER, LEAF, NONE, NodeNo, PARENT, STATE, WORDS, node_base};

// The node after n in the chain, or NONE.
// Stays a number: the word that is written.
fn next(n: usize, count: usize) -> u64
    requires { (n < count) × (count ≤ largest_count) }
    ensures { result ≡ first_or (chain_after n count) }
{
    if n + 1 == count {
        return NONE;
    }
    (n + 1) as u64
}

// The header's words.
fn write_header(s: &mut [u64], count: usize)
    requires { (length s.old ≡ header_size) × (1 ≤ count) × (count ≤ largest_count) }
    ensures { s.new ≡ header_of (formatted count) }
{
    let first = next(0, count);
    let free = count - 1;
    s.fill(0);
    s[FORMAT] = 2;
    s[COUNT] = count as u64;
    s[OFFSET] = HEADER as u64;
    s[FIRST_FREE] = first;
    s[FREE_NODES] = free as u64;
}

// The words of a node with no pairs.
pub fn write_node(s: &mut [u64], state: u64, link: u64)
    requires { length s.old ≡ node_size }
    ensures { s.new ≡ node_words (empty_node state link) }
{
    s.fill(0);
    s[STATE] = state;
    s[PARENT] = link;
}

// The free nodes 1, 2, .. N-1, each with the next one.
// Stays with the count beside the words, here, in write_all and in the upgrade's copies: each would have to divide to find it again.
fn write_chain(a: &mut [u64], count: usize)
    requires { Sized count (length a.old) }
    ensures { a.new ≡ take (base 1) a.old ++ cells (free_nodes 1 (count - 1)) }
{
    for i in 1..count {
        let b = node_base(NodeNo(i));
        let e = b + WORDS;
        write_node(&mut a[b..e], FREE, next(i, count));
    }
}

// All words, whatever they were.
pub fn write_all(a: &mut [u64], count: usize)
    requires { Sized count (length a.old) }
    ensures { a.new ≡ words_of (formatted count) }
{
    let b = HEADER;
    let e = b + WORDS;
    write_header(&mut a[0..b], count);
    write_node(&mut a[b..e], LEAF, NONE);
    write_chain(a, count);
}

// Formats the words; BadSize for a length that no arena has.
pub fn format(a: &mut [u64]) -> Result<(), Refused>
    ensures { Promised promise.format a.old a.new tt (said_done result) }
{
    let count = node_count(a.len()).ok_or(Refused::BadSize)?;
    write_all(a, count);
    Ok(())
}
