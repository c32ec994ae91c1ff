// Fills an arena to heights 0 to 3 and deletes every key, rising, falling and shuffled; mixes all words after each deletion into one number
// and prints it with the header every so often. docs/oracle/empties.py says how the stored list was made.
#![tactic(auto)]

ghost use Rattle.std.specs.Prelude.{◌≡◌, ◌<◌, ◌≤◌, length};
ghost use Rattle.empties.specs.Taking.{Taken};

use format::format;
use map::{delete, put};
use model::Answer;
use std::io;
use telling::{around, mix_words, mixed, say, say_line};

// The words of 150 nodes.
const LONG: usize = 5860;

// The keys are below this prime.
const ROUND: u64 = 811;

// The mix so far and the header.
// Stays beside replay's: the stored lists have a space at the end of this line, and none at the end of that one.
fn tell(rt: &impl Print, mix: u64, a: &[u64; LONG]) -> io::Result<()> {
    say(rt, mix)?;
    say_line(rt, &a[..10])
}

// The keys 1 to `pairs`.
fn fill(a: &mut [u64], pairs: u64)
    requires { pairs < 811 }
{
    let _ = format(a);
    for key in 1..=pairs {
        let _ = put(a, key, key + 1000);
    }
}

// Deletes one key, and mixes in what is answered and left.
fn take(a: &mut [u64], key: u64, mix: u64) -> u64
    ensures { Taken key mix a.old a.new result }
{
    let r = Answer::found(delete(a, key));
    mix_words(mixed(mix, r.number().wrapping_add(r.word())), a)
}

fn empty(rt: &impl Print, a: &mut [u64; LONG], first: u64, step: u64) -> io::Result<()>
    requires { (first < 811) × (step < 811) }
{
    let mut key = first;
    let mut mix = 0;
    for i in 0..ROUND {
        mix = take(a, key, mix);
        if i % 50 == 0 {
            tell(rt, mix, a)?;
        }
        key = around(key, step, ROUND);
    }
    tell(rt, mix, a)
}

fn run(rt: &impl Print, a: &mut [u64; LONG], pairs: u64) -> io::Result<()>
    requires { pairs < 811 }
{
    fill(a, pairs);
    empty(rt, a, 1, 1)?;
    fill(a, pairs);
    empty(rt, a, 800, 810)?;
    fill(a, pairs);
    empty(rt, a, 1, 331)
}

fn main(rt: HostRuntime) -> io::Result<()> {
    let mut a = [7; LONG];
    run(&rt, &mut a, 5)?;
    run(&rt, &mut a, 40)?;
    run(&rt, &mut a, 200)?;
    run(&rt, &mut a, 800)
}
