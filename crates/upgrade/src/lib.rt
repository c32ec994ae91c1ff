// The upgrade: the words of a format 1 arena into a slice of format 2, the same nodes at the same numbers, and the counts below each node.
#![tactic(auto)]

ghost use Rattle.std.specs.Prelude.{◌≡◌, [], ◌∷◌, ◌++◌, length, take, set};
ghost use Rattle.model.specs.declared.Layout.TheVariants.{Format1};
ghost use Rattle.model.specs.Layout.{Sized, SizedBy, header_size, node_size, format_number, format_word, total_word};
ghost use Rattle.model.specs.Public.{Promised};
ghost use Rattle.model.specs.Public as promise;
ghost use Rattle.model.specs.Answer.{said_done};
ghost use Rattle.upgrade.specs.Copies.{copies};

use checker::well_formed_by;
use counting::count_node;
use header::FORMAT;
use model::{Layout, Refused};
use node::{HEADER, NodeNo, TOTAL, WORDS, node_base};
use slices::copy_from_slice;

// The header's words, with the number of format 2.
fn copy_header(to: &mut [u64], from: &[u64])
    requires { (length from.now ≡ header_size) × (length to.old ≡ header_size) }
    ensures { to.new ≡ set from.now format_word format_number }
{
    copy_from_slice(to, from);
    to[FORMAT] = 2;
}

// A node's words, with a count of 0.
fn copy_node(to: &mut [u64], from: &[u64])
    requires { (length from.now ≡ total_word) × (length to.old ≡ node_size) }
    ensures { to.new ≡ from.now ++ (0 ∷ []) }
{
    copy_from_slice(&mut to[..TOTAL], from);
    to[TOTAL] = 0;
}

// All nodes' words.
fn copy_nodes(to: &mut [u64], from: &[u64], count: usize)
    requires { Sized count (length to.old) × SizedBy Format1 count (length from.now) }
    ensures { to.new ≡ take header_size to.old ++ copies from.now 0 count }
{
    for i in 0..count {
        let b = node_base(NodeNo(i));
        let c = b - i;
        copy_node(&mut to[b..b + WORDS], &from[c..c + TOTAL]);
    }
}

// All words, with no counts.
fn copy_all(to: &mut [u64], from: &[u64], count: usize)
    requires { Sized count (length to.old) × SizedBy Format1 count (length from.now) }
    ensures { to.new ≡ set (take header_size from.now) format_word format_number ++ copies from.now 0 count }
{
    copy_header(&mut to[..HEADER], &from[..HEADER]);
    copy_nodes(to, from, count);
}

// The upgrade. The source is only read; the target's words do not matter, only how many there are.
// Stays a test of its own: `check` is of format 2.
pub fn upgrade(source: &[u64], target: &mut [u64]) -> Result<(), Refused>
    ensures { Promised (promise.upgrade source.now) target.old target.new tt (said_done result) }
{
    if !well_formed_by(Layout::Format1, source) {
        return Err(Refused::BadArena);
    }
    let count = header::count(source);
    if target.len() != node_base(NodeNo(count)) {
        return Err(Refused::BadSize);
    }
    copy_all(target, source, count);
    count_node(target, header::root(source), header::height(source));
    Ok(())
}
