// Orders: one by its code, and a batch of them that run in turn.
#![tactic(auto)]

ghost use Rattle.std.specs.Prelude.{◌≡◌, ◌+◌, ◌*◌, ◌<◌, ◌≤◌, length, get_or, set};
ghost use Rattle.model.specs.State as model;
ghost use Rattle.model.specs.WellFormed.{WellFormed};
ghost use Rattle.model.specs.Promise.{Holds, Does};
ghost use Rattle.model.specs.Public.{Promised};
ghost use Rattle.model.specs.Public as promise;
ghost use Rattle.model.specs.Answer.{numbers_of, said_done};
ghost use Rattle.batch.specs.Orders.{order_of, Asks, Ran};

use checker::check;
use map::look;
use model::{Answer, Refused};

// What an order asks for.
#[derive(Clone, Copy)]
pub enum Request {
    Put(u64, u64),
    Get(u64),
    Delete(u64),
    Reserve(u64),
}

// Of its code, its key and its value.
impl TryFrom<(u64, u64, u64)> for Request {
    type Error = Refused;

    ghost try_from_gives = { Asks };

    fn try_from((code, key, val): (u64, u64, u64)) -> Result<Request, Refused> {
        match code {
            1 => Ok(Request::Put(key, val)),
            2 => Ok(Request::Get(key)),
            3 => Ok(Request::Delete(key)),
            4 => Ok(Request::Reserve(key)),
            _ => Err(Refused::BadOrder),
        }
    }
}

// One order, behind a checked arena.
fn run(a: &mut [u64], code: u64, key: u64, val: u64) -> Answer
    requires { WellFormed a.old }
    ensures { (s : model.State) → Holds a.old s → Does (model.order (order_of code key val) s) a.new result }
{
    match Request::try_from((code, key, val)) {
        Ok(Request::Put(key, val)) => Answer::former(insert::put(a, key, val)),
        Ok(Request::Get(key)) => Answer::found(Ok(look(a, key))),
        Ok(Request::Delete(key)) => Answer::found(Ok(remove::delete(a, key))),
        Ok(Request::Reserve(key)) => Answer::from(reserve::reserve(a, key)),
        Err(unknown) => Answer::from(unknown),
    }
}

// One order.
// Stays an answer, not a result: a put's former value and a get's value come out of one call, and a batch's words are the document's numbers.
pub fn order(a: &mut [u64], code: u64, key: u64, val: u64) -> Answer
    ensures { Promised (promise.order (order_of code key val)) a.old a.new tt result }
{
    match check(a) {
        Ok(()) => run(a, code, key, val),
        Err(refusal) => Answer::from(refusal),
    }
}

// An answer's two words.
fn write(answers: &mut [u64], at: usize, r: Answer)
    requires { at + 2 ≤ length answers.old }
    ensures { answers.new ≡ set (set answers.old at (numbers_of r).number) (at + 1) (numbers_of r).word }
{
    answers[at] = r.number();
    answers[at + 1] = r.word();
}

// All orders in turn, a refused one not stopping the rest.
// Stays with the count beside both slices: it ties their two lengths to each other.
fn run_all(a: &mut [u64], orders: &[u64], answers: &mut [u64], n: usize)
    requires { WellFormed a.old × (length orders.now ≡ 3 * n) × (length answers.old ≡ 2 * n) }
    ensures { (s : model.State) → Holds a.old s → Ran orders.now s a.new answers.new }
{
    for i in 0..n {
        let r = run(a, orders[3 * i], orders[3 * i + 1], orders[3 * i + 2]);
        write(answers, 2 * i, r);
    }
}

// A batch: whole triples, and exactly two words of answer an order.
pub fn batch(a: &mut [u64], orders: &[u64], answers: &mut [u64]) -> Result<(), Refused>
    ensures { Promised (promise.batch orders.now answers.old) a.old a.new answers.new (said_done result) }
{
    let n = orders.len() / 3;
    if orders.len() != 3 * n || answers.len() != 2 * n {
        return Err(Refused::BadSize);
    }
    check(a)?;
    run_all(a, orders, answers, n);
    Ok(())
}
