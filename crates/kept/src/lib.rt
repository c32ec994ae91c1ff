// A cursor as the four words that a caller in C keeps: its count, where it stands (0 before the first pair, 1 at a pair, 2 past the last), the
// node and the place. Any other number of words is refused before everything.
#![tactic(auto)]

ghost use Rattle.std.specs.Prelude.{◌≡◌, length, OnOk, OnErr, IfErr};
ghost use Rattle.model.specs.Answer.{said_picked};
ghost use Rattle.model.specs.Public.{Promised};
ghost use Rattle.model.specs.Public as promise;
ghost use Rattle.cursor.specs.Cursors.{cursor_of};
ghost use Rattle.kept.specs.Kept.{cursor_words, ReadBy, Making, Stepping, NoBound};

use checker::check;
use cursor::{Cursor, Found, Stand, first, last};
use model::{Refused, SearchBound};
use node::{NONE, NodeNo, Place};

// The words that a cursor has.
pub const WORDS: usize = 4;

// Refuses another number of words.
fn check_size(words: &[u64]) -> Result<(), Refused>
    ensures ok { OnOk result (length words.now ≡ 4) }
    ensures err { OnErr result (length words.now ≡ 4 → ⊥) }
    ensures bad { IfErr result (λ r. r ≡ Refused.BadSize) }
{
    if words.len() != WORDS {
        return Err(Refused::BadSize);
    }
    Ok(())
}

// The cursor of the words. Any other number for where it stands is no end, and no node has that number.
// Stays numbers, converted here and in words_of alone: the words that a caller in C keeps.
fn read(words: &[u64]) -> Result<Cursor, Refused>
    ensures { ReadBy words.now result }
{
    let &[changes, stand, node, place] = words else {
        return Err(Refused::BadSize);
    };
    let stand = match stand {
        0 => Stand::Before,
        1 => Stand::At(NodeNo(node as usize), Place(place as usize)),
        2 => Stand::Past,
        _ => Stand::At(NodeNo(NONE as usize), Place(0)),
    };
    Ok(Cursor { changes, stand })
}

// The words of a cursor: at an end node and place are 0.
fn words_of(cursor: Cursor) -> [u64; WORDS]
    ensures { result ≡ cursor_words (cursor_of cursor) }
{
    let changes = cursor.changes;
    match cursor.stand {
        Stand::Before => [changes, 0, 0, 0],
        Stand::At(node, at) => [changes, 1, node.0 as u64, at.0 as u64],
        Stand::Past => [changes, 2, 0, 0],
    }
}

fn write(words: &mut [u64], cursor: Cursor)
    requires { length words.old ≡ 4 }
    ensures { words.new ≡ cursor_words (cursor_of cursor) }
{
    words.copy_from_slice(&words_of(cursor));
}

// A cursor at the first pair.
pub fn keep_first(a: &[u64], changes: u64, words: &mut [u64]) -> Found
    ensures { Making (Promised (promise.first changes) a.now a.now) words.old words.new (said_picked result) }
{
    check_size(words)?;
    let (cursor, found) = first(a, changes);
    write(words, cursor);
    found
}

// A cursor at the last pair.
// Stays beside keep_first, as keep_previous beside keep_next: the one line between reading and writing is another step of the cursor.
pub fn keep_last(a: &[u64], changes: u64, words: &mut [u64]) -> Found
    ensures { Making (Promised (promise.last changes) a.now a.now) words.old words.new (said_picked result) }
{
    check_size(words)?;
    let (cursor, found) = last(a, changes);
    write(words, cursor);
    found
}

// To the first pair that a start bound admits.
pub fn keep_seek(a: &[u64], changes: u64, start: SearchBound, words: &mut [u64]) -> Found
    ensures { Making (Promised (promise.seek changes start) a.now a.now) words.old words.new (said_picked result) }
{
    let (cursor, found) = read(words)?.seek(a, changes, start);
    write(words, cursor);
    found
}

// A seek with a bound of no kind: past the last pair, and BadRange behind a bad arena.
pub fn keep_none(a: &[u64], changes: u64, words: &mut [u64]) -> Found
    ensures { NoBound changes a.now words.old words.new (said_picked result) }
{
    check_size(words)?;
    let stand = Stand::Past;
    write(words, Cursor { changes, stand });
    check(a)?;
    Err(Refused::BadRange)
}

// To the next pair. A refused step leaves the words.
pub fn keep_next(a: &[u64], changes: u64, words: &mut [u64]) -> Found
    ensures { Stepping (λ c. Promised (promise.next changes c) a.now a.now) words.old words.new (said_picked result) }
{
    let (cursor, found) = read(words)?.next(a, changes);
    let pair = found?;
    write(words, cursor);
    Ok(pair)
}

// To the pair before.
pub fn keep_previous(a: &[u64], changes: u64, words: &mut [u64]) -> Found
    ensures { Stepping (λ c. Promised (promise.previous changes c) a.now a.now) words.old words.new (said_picked result) }
{
    let (cursor, found) = read(words)?.previous(a, changes);
    let pair = found?;
    write(words, cursor);
    Ok(pair)
}
