// Puts rising, falling and shuffled keys into 64 nodes until one is refused, then prints how many came in, what a present and an absent key
// answer after that, and all words. docs/oracle/fills.py says how the stored list was made.
#![tactic(auto)]

ghost use Rattle.std.specs.Prelude.{◌≡◌, ◌<◌};
ghost use Rattle.fills.specs.Filling.{Fills};

use checker::check;
use format::format;
use map::{get, put};
use model::Answer;
use std::io;
use telling::{around, say, say_line};

// The words of 64 nodes.
const LONG: usize = 2506;

// The number of the answer that there is no room.
// Stays a number: tried a match on the refusal; where its arms join, the proof of the next turn does not know that it was another.
const NO_ROOM: u64 = 3;

// So many keys are tried at most.
const TRIES: u64 = 1000;

// The keys are below this prime.
const ROUND: u64 = 10_007;

fn tell(rt: &impl Print, r: Answer) -> io::Result<()> {
    say(rt, r.number())?;
    say(rt, r.word())
}

// How many keys come in, each `step` after the last, until one finds no room.
fn puts(a: &mut [u64], first: u64, step: u64) -> u64
    requires { (first < 10007) × (step < 10007) }
    ensures { Fills step a.new result first 0 a.old }
{
    let mut key = first;
    for i in 0..TRIES {
        let r = Answer::former(put(a, key, i));
        if r.number() == NO_ROOM {
            return i;
        }
        key = around(key, step, ROUND);
    }
    TRIES
}

fn fill(rt: &impl Print, a: &mut [u64], first: u64, step: u64) -> io::Result<()>
    requires { (first < 10007) × (step < 10007) }
{
    let _ = format(a);
    say(rt, puts(a, first, step))?;
    tell(rt, Answer::former(put(a, first, 77)))?;
    tell(rt, Answer::former(put(a, ROUND, 0)))?;
    tell(rt, Answer::found(get(a, first)))?;
    tell(rt, Answer::found(get(a, ROUND)))?;
    tell(rt, Answer::from(check(a)))?;
    println!(rt)?;
    say_line(rt, a)
}

fn main(rt: HostRuntime) -> io::Result<()> {
    let mut a = [7; LONG];
    fill(&rt, &mut a, 1, 1)?;
    fill(&rt, &mut a, 9999, 10_006)?;
    fill(&rt, &mut a, 1, 7919)
}
