// The load of a sorted run into a slice that it formats.
#![tactic(auto)]

ghost use Rattle.model.specs.Answer.{said_done};
ghost use Rattle.model.specs.Public.{Promised};
ghost use Rattle.model.specs.Public as promise;

use append::{load_formatted, nodes_for, rises};
use format::write_all;
use header::node_count;
use model::Refused;

// Loads a run of pairs, key and value in turn. The run is only read; the slice's words do not matter, only how many there are.
pub fn load(a: &mut [u64], run: &[u64]) -> Result<(), Refused>
    ensures { Promised (promise.load run.now) a.old a.new tt (said_done result) }
{
    let words = run.len();
    if words % 2 != 0 {
        return Err(Refused::BadSize);
    }
    let count = node_count(a.len()).ok_or(Refused::BadSize)?;
    if !rises(run) {
        return Err(Refused::NotRising);
    }
    let need = nodes_for(words / 2);
    if need > count {
        return Err(Refused::NoRoom);
    }
    write_all(a, count);
    load_formatted(a, run);
    Ok(())
}
