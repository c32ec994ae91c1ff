// Joining two indexes (map.rs, append): the pairs of both are merged in one walk, and the first is loaded anew with them; the second ends empty.
#![tactic(auto)]

ghost use Rattle.std.specs.Prelude.{◌≡◌, ℕ, ◌+◌, ◌<◌, length};
ghost use Rattle.model.specs.Lists.{All};
ghost use Rattle.model.specs.Layout.{header, pairs_word};
ghost use Rattle.model.specs.Tree.{Pair};
ghost use Rattle.model.specs.Mark.{Covers};
ghost use Rattle.header.specs.Headers.{marked};
ghost use Rattle.model.specs.State.{State};
ghost use Rattle.model.specs.Load.{pairs_of, loaded_with};
ghost use Rattle.model.specs.Room.{nodes_for};
ghost use Rattle.model.specs.Join.{joined_run, joined, emptied};
ghost use Rattle.model.specs.Words.{words_of};
ghost use Rattle.model.specs.WellFormed.{WellFormed};
ghost use Rattle.model.specs.Promise.{Holds, laid};
ghost use Rattle.model.specs.Answer.{said_done};
ghost use Rattle.model.specs.Public.{Promised};
ghost use Rattle.model.specs.Public as promise;
ghost use Rattle.inspect.specs.Tests.{Decides};
ghost use Rattle.join.specs.Joins.{Anew, AnewIn, Joinable};

use append::{load_marked, nodes_for};
use checker::check;
use format::write_all;
use merging::{merge_count, merge_into};
use model::Refused;

// Formats an arena and loads a run that rises into it, with a mark that no key exceeds.
fn load_anew(a: &mut [u64], run: &[u64], mark: Option<u64>)
    requires { AnewIn a.old run.now }
    ensures { (n : ℕ) → Anew n a.old run.now → All (λ (p : Pair). Covers (marked mark) p.key) (pairs_of run.now) → a.new ≡ words_of (loaded_with (marked mark) n (pairs_of run.now)) }
{
    write_all(a, header::count(a));
    load_marked(a, run, u64::from(mark.is_some()), mark.unwrap_or(0));
}

// Whether a load of the joined run takes more nodes than the first has. No walk is needed where there are enough for all pairs of both.
fn lacks(first: &[u64], second: &[u64], pairs: usize) -> bool
    requires { WellFormed first.now × WellFormed second.now × (pairs ≡ header first.now pairs_word + header second.now pairs_word) }
    ensures { (s t : State) → Holds first.now s → Holds second.now t → Decides result (s.size < nodes_for (length (joined_run s t))) }
{
    let count = header::count(first);
    nodes_for(pairs) > count && nodes_for(merge_count(first, second)) > count
}

// Joins two arenas, where the third slice has room for all pairs of both and the first has nodes for those of the joined run.
fn join_all(first: &mut [u64], second: &mut [u64], third: &mut [u64])
    requires { Joinable first.old second.old third.old }
    ensures { (s t : State) → Holds first.old s → Holds second.old t → (first.new ≡ words_of (joined s t)) × (second.new ≡ words_of (emptied t)) × (third.new ≡ laid (joined_run s t) third.old) }
{
    let words = 2 * merge_into(first, second, third);
    let mark = header::stored_mark(second);
    let most = header::stored_mark(first).max(mark);
    load_anew(first, &third[0..words], most);
    load_anew(second, &third[0..0], mark);
}

// Joins the second arena to the first. The joined run is written to the third slice; of a key in both the second's pair stays.
pub fn join(first: &mut [u64], second: &mut [u64], third: &mut [u64]) -> Result<(), Refused>
    ensures { Promised (promise.join second.old third.old) first.old first.new (second.new, third.new) (said_done result) }
{
    check(first)?;
    check(second)?;
    let pairs = header::pairs(first) as usize + header::pairs(second) as usize;
    if third.len() < 2 * pairs {
        return Err(Refused::BadSize);
    }
    if lacks(first, second, pairs) {
        return Err(Refused::NoRoom);
    }
    join_all(first, second, third);
    Ok(())
}
