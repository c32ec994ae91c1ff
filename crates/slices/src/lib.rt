// Moves of words in slices: node.rs's slice_insert, slice_remove, slice_shl, slice_shr and move_to_slice.
#![tactic(auto)]

ghost use Rattle.std.specs.Prelude.{◌≡◌, ◌⊎◌, ◌∷◌, ◌++◌, [], ◌+◌, ◌-◌, ◌<◌, ◌≤◌, length, take, drop, get_or, replicate};
ghost use Rattle.model.specs.Lists.{insert_at};
ghost use Rattle.slices.specs.Words.{moved, remove_at};

// Puts val in before index idx; the words from there move up by one, and the last one is dropped.
// Where it is put in last, as a load does, no word moves and none is asked to.
pub fn slice_insert(s: &mut [u64], idx: usize, val: u64)
    requires { idx < length s.old }
    ensures { s.new ≡ take (length s.old) (insert_at s.old idx val) }
{
    let last = s.len() - 1;
    if idx < last {
        s.copy_within(idx..last, idx + 1);
    }
    s[idx] = val;
}

// Takes the word at idx out; the words after it move down by one, and the last one becomes 0.
pub fn slice_remove(s: &mut [u64], idx: usize) -> u64
    requires { idx < length s.old }
    ensures { (result ≡ get_or s.old idx 0) × (s.new ≡ remove_at s.old idx ++ 0 ∷ []) }
{
    let last = s.len() - 1;
    let val = s[idx];
    s.copy_within(idx + 1.., idx);
    s[last] = 0;
    val
}

// Moves all words down by distance; zeros come in at the end.
pub fn slice_shl(s: &mut [u64], distance: usize)
    requires { distance ≤ length s.old }
    ensures { s.new ≡ drop distance s.old ++ replicate distance 0 }
{
    let kept = s.len() - distance;
    s.copy_within(distance.., 0);
    s[kept..].fill(0);
}

// Moves all words up by distance, the last ones out; zeros come in at the start.
// Stays beside slice_shl: the Rust's names (rust/NOTICE).
pub fn slice_shr(s: &mut [u64], distance: usize)
    requires { distance ≤ length s.old }
    ensures { s.new ≡ replicate distance 0 ++ take (length s.old - distance) s.old }
{
    let kept = s.len() - distance;
    s.copy_within(..kept, distance);
    s[..distance].fill(0);
}

// Moves count words from `from` to `to`, and leaves zeros where they were. The two ranges share no word.
#[tactic(auto, unfolding(crate::specs::Words::moved, crate::specs::Words::splice, model::specs::Lists::part))]
pub fn move_words(a: &mut [u64], from: usize, to: usize, count: usize)
    requires { (from + count ≤ length a.old) × (to + count ≤ length a.old) × ((to + count ≤ from) ⊎ (from + count ≤ to)) }
    ensures { a.new ≡ moved a.old from to count }
{
    let end = from + count;
    a.copy_within(from..end, to);
    a[from..end].fill(0);
}

// Copies every word of as long a slice.
// Stays beside std's copy_from_slice, which calls memmove: an archive for C would need that from outside, and it writes in an order of its own.
pub fn copy_from_slice(s: &mut [u64], src: &[u64])
    requires { length src.now ≡ length s.old }
    ensures { s.new ≡ src.now }
{
    for (i, word) in src.iter().enumerate() {
        s[i] = *word;
    }
}
