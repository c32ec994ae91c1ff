// Restore: an image's words over the arena's, but the mark never falls.
#![tactic(auto)]

ghost use Rattle.std.specs.Prelude.{◌≡◌, true, false, ◌≤◌, length, set};
ghost use Rattle.model.specs.Layout.{header_size, header, seen_word, mark_word};
ghost use Rattle.model.specs.Mark as mark;
ghost use Rattle.model.specs.WellFormed.{WellFormed};
ghost use Rattle.inspect.specs.Tests.{Decides};
ghost use Rattle.model.specs.Answer.{said_done};
ghost use Rattle.model.specs.Public.{Promised};
ghost use Rattle.model.specs.Public as promise;
ghost use Rattle.restore.specs.Raising.{Raised};

use checker::{check, well_formed};
use header::SEEN;
use model::Refused;
use node::HEADER;
use slices::copy_from_slice;

// The mark rises to the image's, where that is higher.
fn raise_to(a: &mut [u64], image: &[u64])
    requires { WellFormed a.old × WellFormed image.now }
    ensures { Raised a.old image.now a.new }
{
    if let Some(mark) = header::stored_mark(image) {
        header::raise_mark(a, mark);
    }
}

// Copies every word of as long a slice but the mark's two, which are the header's last: no kill can leave a lower mark.
fn copy_but_mark(a: &mut [u64], image: &[u64])
    requires { (header_size ≤ length a.old) × (length image.now ≡ length a.old) }
    ensures { a.new ≡ set (set image.now seen_word (header a.old seen_word)) mark_word (header a.old mark_word) }
{
    let before = SEEN;
    copy_from_slice(&mut a[..before], &image[..before]);
    copy_from_slice(&mut a[HEADER..], &image[HEADER..]);
}

// Whether an image's mark is lower than the arena's, which was seen.
fn lower(image: &[u64], a: &[u64]) -> bool
    requires { (header_size ≤ length image.now) × (header_size ≤ length a.now) }
    ensures { result ≡ mark.lower (mark.stored_mark image.now) (mark.stored_mark a.now) }
{
    header::stored_mark(image) < header::stored_mark(a)
}

// Whether an image with a lower mark comes without the word that an older one is meant.
fn too_old(image: &[u64], a: &[u64], older: bool) -> bool
    requires { (header_size ≤ length image.now) × (header_size ≤ length a.now) }
    ensures { Decides result ((older ≡ false) × (mark.lower (mark.stored_mark image.now) (mark.stored_mark a.now) ≡ true)) }
{
    !older && lower(image, a)
}

// Copies the image's words over the arena; seen is 1 if either had it, and the mark is the larger of those seen. It is raised first. An
// image with a lower mark than the arena's needs the word that an older one is meant.
// Stays a test of the image: `check` would refuse it as BadArena.
pub fn restore(a: &mut [u64], image: &[u64], older: bool) -> Result<(), Refused>
    ensures { Promised (promise.restore older image.now) a.old a.new tt (said_done result) }
{
    if image.len() != a.len() {
        return Err(Refused::BadSize);
    }
    check(a)?;
    if !well_formed(image) {
        return Err(Refused::BadImage);
    }
    if too_old(image, a, older) {
        return Err(Refused::Older);
    }
    raise_to(a, image);
    copy_but_mark(a, image);
    Ok(())
}
