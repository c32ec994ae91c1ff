// Runs batches and restores on small arenas, through each refusal that they have and back, and prints after each call its answer, the
// batch's answers, and all words. docs/oracle/batches.py says how the stored list was made.
#![tactic(auto)]

use batch::batch;
use format::format;
use model::Answer;
use restore::restore;
use std::io;
use telling::{say_answer, say_line};

fn run(rt: &impl Print, a: &mut [u64], orders: &[u64], answers: &mut [u64]) -> io::Result<()> {
    say_answer(rt, Answer::from(batch(a, orders, answers)))?;
    say_line(rt, answers)?;
    say_line(rt, a)
}

fn four(rt: &impl Print, a: &mut [u64], orders: &[u64]) -> io::Result<()> {
    run(rt, a, orders, &mut [9; 8])
}

fn bring_back(rt: &impl Print, a: &mut [u64], image: &[u64], older: bool) -> io::Result<()> {
    say_answer(rt, Answer::from(restore(a, image, older)))?;
    say_line(rt, a)
}

// Words that are no arena: 7 comes before 4, and an empty batch still checks.
fn no_arena(rt: &impl Print) -> io::Result<()> {
    let mut a = [7; 49];
    run(rt, &mut a, &[1, 5, 50, 1], &mut [9, 9])?;
    run(rt, &mut a, &[1, 5, 50], &mut [9, 9, 9])?;
    run(rt, &mut a, &[1, 5, 50], &mut [9, 9])?;
    run(rt, &mut a, &[], &mut [])?;
    bring_back(rt, &mut a, &[7; 88], false)?;
    bring_back(rt, &mut a, &[7; 49], false)
}

// An image that counts a pair too many is none, and neither is one of another length: the arena keeps its pair.
fn no_image(rt: &impl Print) -> io::Result<()> {
    let mut a = [7; 49];
    let _ = format(&mut a);
    let mut image = a;
    run(rt, &mut a, &[1, 5, 50], &mut [9, 9])?;
    bring_back(rt, &mut a, &[7; 88], false)?;
    image[5] = 1;
    bring_back(rt, &mut a, &image, false)?;
    run(rt, &mut a, &[2, 5, 0, 1], &mut [9, 9])?;
    run(rt, &mut a, &[2, 5, 0], &mut [9, 9])?;
    image[5] = 0;
    bring_back(rt, &mut a, &image, false)?;
    bring_back(rt, &mut a, &image, true)?;
    run(rt, &mut a, &[2, 5, 0], &mut [9, 9])
}

// Put 9, copy, put 12, restore the copy, which is refused unless an older one is meant: only 9, mark 12; and of a mark and a higher one the image's.
fn nonces(rt: &impl Print) -> io::Result<()> {
    let mut a = [7; 49];
    let _ = format(&mut a);
    run(rt, &mut a, &[1, 9, 90], &mut [9, 9])?;
    let image = a;
    run(rt, &mut a, &[1, 12, 120], &mut [9, 9])?;
    let later = a;
    bring_back(rt, &mut a, &image, false)?;
    bring_back(rt, &mut a, &image, true)?;
    run(rt, &mut a, &[2, 9, 0, 2, 12, 0], &mut [9, 9, 9, 9])?;
    let _ = format(&mut a);
    run(rt, &mut a, &[1, 3, 30], &mut [9, 9])?;
    bring_back(rt, &mut a, &later, false)?;
    bring_back(rt, &mut a, &later, false)
}

// Nothing seen on both sides is not older; a seen mark of 0 is above none.
fn unseen(rt: &impl Print) -> io::Result<()> {
    let mut a = [7; 49];
    let _ = format(&mut a);
    let image = a;
    bring_back(rt, &mut a, &image, false)?;
    run(rt, &mut a, &[4, 0, 0], &mut [9, 9])?;
    bring_back(rt, &mut a, &image, false)
}

// A reserve hands a counter out once; a put below the mark stays allowed; code 5 is none.
fn reserves(rt: &impl Print) -> io::Result<()> {
    let mut a = [7; 49];
    let _ = format(&mut a);
    four(rt, &mut a, &[4, 0, 7, 4, 0, 7, 1, 5, 50, 4, 9, 7])?;
    four(rt, &mut a, &[4, 9, 7, 1, 7, 70, 4, 10, 7, 5, 11, 7])
}

// One leaf: the twelfth key finds no room, unknown codes are refused, and neither stops the rest.
fn no_room(rt: &impl Print) -> io::Result<()> {
    let mut a = [7; 49];
    let _ = format(&mut a);
    four(rt, &mut a, &[1, 10, 1, 1, 20, 2, 1, 30, 3, 1, 40, 4])?;
    four(rt, &mut a, &[1, 50, 5, 1, 60, 6, 1, 70, 7, 1, 80, 8])?;
    four(rt, &mut a, &[1, 90, 9, 1, 100, 10, 1, 110, 11, 1, 120, 12])?;
    four(rt, &mut a, &[1, 5, 0, 9, 50, 5, 0, 50, 5, 1, 50, 55])?;
    four(rt, &mut a, &[3, 10, 0, 3, 10, 0, 1, 120, 12, 1, 5, 0])
}

// Three nodes: a split, and back to one leaf; then the split tree restored over it.
fn split(rt: &impl Print) -> io::Result<()> {
    let mut a = [7; 127];
    let _ = format(&mut a);
    four(rt, &mut a, &[1, 1, 101, 1, 2, 102, 1, 3, 103, 1, 4, 104])?;
    four(rt, &mut a, &[1, 5, 105, 1, 6, 106, 1, 7, 107, 1, 8, 108])?;
    four(rt, &mut a, &[1, 9, 109, 1, 10, 110, 1, 11, 111, 1, 12, 112])?;
    let image = a;
    run(rt, &mut a, &[3, 12, 0, 3, 7, 0, 1, 20, 120], &mut [9; 6])?;
    bring_back(rt, &mut a, &image, true)?;
    run(rt, &mut a, &[3, 12, 0, 3, 7, 0, 2, 20, 0], &mut [9; 6])
}

fn main(rt: HostRuntime) -> io::Result<()> {
    no_arena(&rt)?;
    no_image(&rt)?;
    nonces(&rt)?;
    unseen(&rt)?;
    reserves(&rt)?;
    no_room(&rt)?;
    split(&rt)
}
