// An arena in either format: reading its nodes' words. The format is a type parameter, so that the size of a node is a constant in the code.
#![tactic(auto)]

ghost use Rattle.std.specs.Prelude.{◌≡◌, ℕ, ◌+◌, ◌<◌, ◌≤◌, length, refl, MatchOption};
ghost use Rattle.model.specs.declared.Layout.{Layout};
ghost use Rattle.model.specs.declared.Layout.TheVariants as layouts;
ghost use Rattle.model.specs.Layout.{Counts, format_number_by, base_by, node_size_by, word_at_by, most, state_word, length_word, parent_word, place_word, keys_word, edges_word, total_word};

use node::{EDGES, HEADER, KEYS, LEN, NodeNo, PARENT, PARENT_IDX, Place, STATE, TOTAL, WORDS};
use std::marker::PhantomData;

// A format of arenas: its number, and how many words a node has.
pub trait Format {
    ghost layout: { Layout };

    ghost NUMBER: { ℕ };

    const NUMBER: u64;

    ghost WORDS: { ℕ };

    const WORDS: usize;

    ghost number_is: { NUMBER ≡ format_number_by layout };

    ghost words_is: { WORDS ≡ node_size_by layout };
}

// The two formats as types; no value of them is made.
pub struct Format1;

pub struct Format2;

impl Format for Format1 {
    ghost layout = { layouts.Format1 };

    ghost NUMBER = { 1 };

    const NUMBER: u64 = 1;

    ghost WORDS = { 38 };

    const WORDS: usize = 38;

    ghost number_is = { refl };

    ghost words_is = { refl };
}

impl Format for Format2 {
    ghost layout = { layouts.Format2 };

    ghost NUMBER = { 2 };

    const NUMBER: u64 = 2;

    ghost WORDS = { 39 };

    const WORDS: usize = WORDS;

    ghost number_is = { refl };

    ghost words_is = { refl };
}

// The index of a node's first word; of as many as there are, where the last one ends.
pub fn base_of<F: Format>(n: NodeNo) -> usize
    requires { base_by F.layout n.0 < 18446744073709551616 }
    ensures { result ≡ base_by F.layout n.0 }
{
    HEADER + F::WORDS * n.0
}

// Words that have so many nodes of a format. That alone is known of them.
#[derive(Drop)]
pub struct Arena<'a, F: Format> {
    pub words: &'a [u64],
    pub count: usize,
    pub format: PhantomData<F>,
    pub ghost within: { base_by F.layout count ≤ length words.now },
}

// Stays a clause of each, that the arena has the node: the tests read other nodes and the whole arena too, so a struct of an arena and one
// node would not do for them.
// Stays beside the readers of `node`, which are format 2's alone: of one reader for both, each call there would have to say the format.
impl<F: Format> Arena<'_, F> {
    // The index of a node's first word.
    pub fn base(&self, n: NodeNo) -> usize
        requires { n.0 < self.now.count }
        ensures { result ≡ base_by F.layout n.0 }
    {
        base_of::<F>(n)
    }

    // The word k of a node.
    #[tactic(auto, unfolding(model::specs::Layout::word_at_by))]
    fn word(&self, n: NodeNo, k: usize) -> u64
        requires { (n.0 < self.now.count) × (k < node_size_by F.layout) }
        ensures { result ≡ word_at_by F.layout self.now.words.now n.0 k }
    {
        self.words[self.base(n) + k]
    }

    // Free, leaf or internal.
    pub fn state(&self, n: NodeNo) -> u64
        requires { n.0 < self.now.count }
        ensures { result ≡ word_at_by F.layout self.now.words.now n.0 state_word }
    {
        self.word(n, STATE)
    }

    // How many pairs a node holds.
    pub fn len(&self, n: NodeNo) -> usize
        requires { n.0 < self.now.count }
        ensures { result ≡ word_at_by F.layout self.now.words.now n.0 length_word }
    {
        self.word(n, LEN) as usize
    }

    // The parent's number, or NONE; in a free node, the next free one or NONE.
    pub fn parent(&self, n: NodeNo) -> u64
        requires { n.0 < self.now.count }
        ensures { result ≡ word_at_by F.layout self.now.words.now n.0 parent_word }
    {
        self.word(n, PARENT)
    }

    // The index of the parent's edge that leads here; 0 at the root.
    pub fn parent_idx(&self, n: NodeNo) -> u64
        requires { n.0 < self.now.count }
        ensures { result ≡ word_at_by F.layout self.now.words.now n.0 place_word }
    {
        self.word(n, PARENT_IDX)
    }

    // The node that an edge leads to.
    pub fn edge(&self, n: NodeNo, at: Place) -> NodeNo
        requires { (n.0 < self.now.count) × (at.0 ≤ most) }
        ensures { result.0 ≡ word_at_by F.layout self.now.words.now n.0 (edges_word + at.0) }
    {
        NodeNo(self.word(n, EDGES + at.0) as usize)
    }

    // The key of a pair.
    pub fn key(&self, n: NodeNo, at: Place) -> u64
        requires { (n.0 < self.now.count) × (at.0 < most) }
        ensures { result ≡ word_at_by F.layout self.now.words.now n.0 (keys_word + at.0) }
    {
        self.word(n, KEYS + at.0)
    }

    // How many pairs a node and those below it hold, where the format says it.
    pub fn total(&self, n: NodeNo) -> Option<u64>
        requires { n.0 < self.now.count }
        ensures { MatchOption result (Counts F.layout → ⊥) (λ t. Counts F.layout × (t ≡ word_at_by F.layout self.now.words.now n.0 total_word)) }
    {
        if F::WORDS > TOTAL {
            Some(self.word(n, TOTAL))
        } else {
            None
        }
    }
}
