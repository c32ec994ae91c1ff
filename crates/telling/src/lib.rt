// What the programs share: numbers and words written out, words read from bytes, an arena's words mixed into one number.
// Where a writing fails, part of its text may have been written; nothing else has changed.
#![tactic(auto)]

ghost use Rattle.std.specs.Prelude.{◌≡◌, ◌+◌, ◌*◌, ◌%◌, ◌^◌, ◌<◌, ◌≤◌, length, take, IfOk, OnOk};
ghost use Rattle.std.specs.Io.{ReadsAtMost};
ghost use Rattle.std.specs.Io.KnownBytes.{Consumes, IsAtEnd};
ghost use Rattle.std.specs.Fn.{CalledAt};
ghost use Rattle.telling.specs.Records.{Handed};
ghost use Rattle.telling.specs.Numbers.{word_in, mix_of, mix_all, around_of};

use model::Answer;
use std::io;
use std::io::Read;

// The bytes of a record.
pub const RECORD: usize = 24;

// So many records are read at most: years of them.
const TURNS: u64 = 1_000_000_000_000_000;

// A number and a space.
pub fn say(rt: &impl Print, n: u64) -> io::Result<()> {
    print!(rt; "{n} ")
}

// A number and the end of the line.
pub fn say_last(rt: &impl Print, n: u64) -> io::Result<()> {
    println!(rt; "{n}")
}

// A line with an answer's number and second word, by one write.
pub fn say_answer(rt: &impl Print, r: Answer) -> io::Result<()> {
    let number = r.number();
    let word = r.word();
    println!(rt; "{number} {word}")
}

// Each word and a space.
pub fn say_words(rt: &impl Print, a: &[u64]) -> io::Result<()> {
    for word in a {
        say(rt, *word)?;
    }
    Ok(())
}

// A line of words, with a space after each.
pub fn say_line(rt: &impl Print, a: &[u64]) -> io::Result<()> {
    say_words(rt, a)?;
    println!(rt)
}

// Reads until the buffer is full or the input ends; how many bytes were read, which lie at the buffer's front. Where a reading fails, those
// that came before it are in the buffer, and how many is not told.
// Stays a while: it goes on by what a reading gave, not by one; std has no reading that tells how much came before the end, except into a Vec (no heap).
pub fn read_full<R: Read>(input: &mut R, buf: &mut [u8]) -> io::Result<usize>
    ensures bound { ReadsAtMost result buf.new }
    ensures bytes { IfOk result (λ n. Consumes (R.remaining input.old) (R.remaining input.new) (take n buf.new)) }
    ensures end { IfOk result (λ n. n < length buf.new → IsAtEnd (R.remaining input.new)) }
{
    let mut done = 0;
    while done < buf.len() {
        let n = input.read(&mut buf[done..])?;
        if n == 0 {
            return Ok(done);
        }
        done += n;
    }
    Ok(done)
}

// Reads records and hands each on, the last one short: what is left where the input ends, nothing if need be. Where a reading or what takes
// the records fails, it stops there.
pub fn each_record<R: Read, F: FnMut(&[u8]) -> io::Result<()>>(
    input: &mut R,
    mut take: F,
) -> io::Result<()>
    requires { F.IsAlwaysCallable take }
    ensures { OnOk result ((last : F) × Handed (λ s t b. Consumes (R.remaining s) (R.remaining t) b) (λ t. IsAtEnd (R.remaining t)) (λ p b q. CalledAt F.FnMut p b (Ok tt) q) input.new last 0 input.old take) }
{
    let mut b = [0u8; RECORD];
    for i in 0..TURNS {
        let n = read_full(input, &mut b)?;
        take(&b[..n])?;
        if n < RECORD {
            return Ok(());
        }
    }
    Ok(())
}

// A word's worth of bytes, the lowest first.
pub fn word_at(b: &[u8], at: usize) -> u64
    requires { at + 8 ≤ length b.now }
    ensures { result ≡ word_in b.now at }
{
    let word: [u8; 8] = b[at..at + 8].try_into().unwrap();
    u64::from_le_bytes(word)
}

// 31 times the number so far, and the word.
pub fn mixed(mix: u64, w: u64) -> u64
    ensures { result ≡ mix_of mix w }
{
    mix.wrapping_mul(31).wrapping_add(w)
}

// All words mixed into the number so far.
pub fn mix_words(so_far: u64, a: &[u64]) -> u64
    ensures { result ≡ mix_all so_far a.now }
{
    a.iter().fold(so_far, |mix, w| mixed(mix, *w))
}

// The key `step` after one, round and round.
// Stays a comparison: what it promises is told by cases (around_of), and a remainder would have to be led back to them.
pub fn around(key: u64, step: u64, round: u64) -> u64
    requires { (key < round) × (step < round) × (round ≤ 4294967296) }
    ensures { (result < round) × (result ≡ around_of key step round) }
{
    let k = key + step;
    if k >= round { k - round } else { k }
}
