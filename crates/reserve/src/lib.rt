// Reserve: a counter is spent when it is handed out, before its message is put.
#![tactic(auto)]

ghost use Rattle.std.specs.Prelude.{◌≡◌, ◌≤◌, length};
ghost use Rattle.model.specs.Layout.{header_size};
ghost use Rattle.model.specs.Mark as mark;
ghost use Rattle.model.specs.State as model;
ghost use Rattle.model.specs.WellFormed.{WellFormed};
ghost use Rattle.model.specs.Answer.{said_done};
ghost use Rattle.model.specs.Promise.{Holds, Does};

use model::Refused;

// Whether the mark has reached a key; an unseen mark has reached none.
fn reached(a: &[u64], key: u64) -> bool
    requires { header_size ≤ length a.now }
    ensures { result ≡ mark.reached key (mark.stored_mark a.now) }
{
    header::stored_mark(a).is_some_and(|mark| key <= mark)
}

// Behind a checked arena: a key above the mark becomes the mark, any other is spent already.
pub fn reserve(a: &mut [u64], key: u64) -> Result<(), Refused>
    requires { WellFormed a.old }
    ensures { (s : model.State) → Holds a.old s → Does (model.reserve key s) a.new (said_done result) }
{
    if reached(a, key) {
        return Err(Refused::Spent);
    }
    header::raise_mark(a, key);
    Ok(())
}
