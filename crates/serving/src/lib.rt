// What the programs `orders` and `short_order` do: they run the orders of standard input, 24 bytes each, on an index of 64 nodes, answer each
// with its number and second word, and end with the pairs, the free nodes, and the mark.
#![tactic(auto)]

ghost use Rattle.serving.specs.Serving.{Serves};

use batch::order;
use format::format;
use model::Answer;
use std::io;
use telling::{RECORD, each_record, say_answer, word_at};

// The words of 64 nodes.
const LONG: usize = 2506;

// Does what the bytes of a record ask for; nothing was asked where there are none.
fn serve_bytes(a: &mut [u64], b: &[u8]) -> Option<Answer>
    ensures { Serves b.now a.old a.new result }
{
    if b.is_empty() {
        return None;
    }
    if b.len() < RECORD {
        return Some(Answer::BadOrder);
    }
    Some(order(a, word_at(b, 0), word_at(b, 8), word_at(b, 16)))
}

// All orders to the end of the input.
fn run_all(rt: &(impl Input + Print), a: &mut [u64]) -> io::Result<()> {
    each_record(&mut rt.reader(), |b| match serve_bytes(a, b) {
        Some(answer) => say_answer(rt, answer),
        None => Ok(()),
    })
}

// Pairs, free nodes, seen and mark.
fn last_line(rt: &impl Print, a: &[u64; LONG]) -> io::Result<()> {
    println!(rt; "{} {} {} {}", a[5], a[7], a[8], a[9])
}

// Where a reading or a writing fails, the orders before it are done and were answered; nothing of the index outlives the call.
pub fn serve(rt: &(impl Input + Print)) -> io::Result<()> {
    let mut a = [0; LONG];
    let _ = format(&mut a);
    run_all(rt, &mut a)?;
    last_line(rt, &a)
}
