// The calls on one key (map.rs). Each checks the arena first.
#![tactic(auto)]

ghost use Rattle.std.specs.Prelude.{◌≡◌, Ok};
ghost use Rattle.model.specs.Answer.{said_done, said_found, said_former};
ghost use Rattle.model.specs.State as model;
ghost use Rattle.model.specs.WellFormed.{WellFormed};
ghost use Rattle.model.specs.Promise.{Holds, Does};
ghost use Rattle.model.specs.Public.{Promised};
ghost use Rattle.model.specs.Public as promise;

use checker::check;
use model::Refused;
use node::val;
use search::{SearchResult, search_tree};

// The value of a key, behind a checked arena.
pub fn look(a: &[u64], key: u64) -> Option<u64>
    requires { WellFormed a.now }
    ensures { (s : model.State) → Holds a.now s → Does (model.get key s) a.now (said_found (Ok result)) }
{
    let SearchResult::Found(kv) = search_tree(a, key) else {
        return None;
    };
    Some(val(a, kv.node, kv.at))
}

// The value of a key.
pub fn get(a: &[u64], key: u64) -> Result<Option<u64>, Refused>
    ensures { Promised (promise.get key) a.now a.now tt (said_found result) }
{
    check(a)?;
    Ok(look(a, key))
}

// Puts a pair: a present key's value is replaced, and answered.
pub fn put(a: &mut [u64], key: u64, val: u64) -> Result<Option<u64>, Refused>
    ensures { Promised (promise.put key val) a.old a.new tt (said_former result) }
{
    check(a)?;
    insert::put(a, key, val)
}

// Spends a key above the mark, with no pair put.
pub fn reserve(a: &mut [u64], key: u64) -> Result<(), Refused>
    ensures { Promised (promise.reserve key) a.old a.new tt (said_done result) }
{
    check(a)?;
    reserve::reserve(a, key)
}

// Takes the pair of a key out, and answers its value.
pub fn delete(a: &mut [u64], key: u64) -> Result<Option<u64>, Refused>
    ensures { Promised (promise.delete key) a.old a.new tt (said_found result) }
{
    check(a)?;
    Ok(remove::delete(a, key))
}
