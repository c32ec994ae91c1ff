// The repair of a tree's border (fix.rs): empty tops are dropped, and down the right or the left side each child is merged or stocked.
#![tactic(auto)]

ghost use Rattle.std.specs.Prelude.{◌≡◌, ◌+◌, ◌<◌, ℕ, suc};
ghost use Rattle.model.specs.Layout.{most};
ghost use Rattle.model.specs.Insert.{left, right};
ghost use Rattle.model.specs.Nodes.{Grown};
ghost use Rattle.standing.specs.Heads.{Rest};
ghost use Rattle.node.specs.Reading.{Within};
ghost use Rattle.border.specs.Borders.{side_at, kv_at, border_kv, border_child, Rooted, RootedIn, Topped, ToppedIn, Descending, DescendsIn, ShortOn, Repairs, tops, down};

use balance::BalancingContext;
use fix::{bulk_steal, do_merge, neighbours};
use internal::pop_internal_level;
use node::{LeftOrRight, MIN_LEN, NodeNo, Place, edge, len};

// Which border is repaired.
// Stays beside LeftOrRight: LeftOrRight<()> would be no plainer.
#[derive(Clone, Copy)]
enum Border {
    Left,
    Right,
}

// Drops empty tops, down to a leaf.
// Stays a while: no index is counted, the height that it tests is the arena's own word.
pub fn fix_top(a: &mut [u64])
    requires { RootedIn a.old }
    ensures { (g : Rest) (t : Grown) → Rooted a.old g t → Topped a.new g (tops t) }
{
    while header::height(a) > 0 {
        let root = header::root(a);
        if len(a, root) > 0 {
            return;
        }
        pop_internal_level(a);
    }
}

// Two neighbours, by the place of the pair between them.
fn consider_for_balancing(a: &[u64], parent: NodeNo, at: Place) -> BalancingContext
    requires { Within a.now parent.0 × (at.0 < most) }
    ensures { result ≡ kv_at a.now parent at }
{
    let left = edge(a, parent, at);
    let right = edge(a, parent, Place(at.0 + 1));
    BalancingContext {
        parent,
        at,
        left,
        right,
    }
}

// The sibling of a node's child at the border: at its left, where that is the last one, and at its right, where it is the first.
fn border_kv(a: &[u64], node: NodeNo, border: Border) -> LeftOrRight<BalancingContext>
    requires { DescendsIn (side_at border) a.now node.0 }
    ensures { result ≡ border_kv border a.now node }
{
    match border {
        Border::Left => LeftOrRight::Right(consider_for_balancing(a, node, Place(0))),
        Border::Right => {
            let last = Place(len(a, node) - 1);
            LeftOrRight::Left(consider_for_balancing(a, node, last))
        }
    }
}

// The child beside that sibling.
fn border_child(sibling: LeftOrRight<BalancingContext>) -> NodeNo
    ensures { result ≡ border_child sibling }
{
    match sibling {
        LeftOrRight::Left(context) => context.right,
        LeftOrRight::Right(context) => context.left,
    }
}

// A node's child at the border is merged with its sibling where 11 allows, else stocked to 6. Answers the child then there.
fn fix_child(a: &mut [u64], node: NodeNo, border: Border) -> NodeNo
    requires { DescendsIn (side_at border) a.old node.0 }
    ensures { (h : ℕ) (g : Rest) (t : Grown) → Descending (side_at border) a.old g node.0 (suc h) t → Descending (side_at border) a.new g result.0 h t }
{
    let sibling = border_kv(a, node, border);
    let context = neighbours(sibling);
    if context.can_merge(a) {
        do_merge(a, context);
        return context.left;
    }
    let child = border_child(sibling);
    let k = len(a, child);
    if k <= MIN_LEN {
        bulk_steal(a, sibling, MIN_LEN + 1 - k);
    }
    child
}

// The children down the border, from the root's on.
fn fix_border_of_edge(a: &mut [u64], border: Border)
    requires { ToppedIn a.old }
    ensures { (g : Rest) (t : Grown) → Topped a.old g t → Rooted a.new g (down (side_at border) t) }
{
    let mut node = header::root(a);
    for _ in 0..header::height(a) {
        node = fix_child(a, node, border);
    }
}

fn fix_border(a: &mut [u64], border: Border)
    requires { ShortOn (side_at border) a.old }
    ensures { Repairs (side_at border) a.old a.new }
{
    fix_top(a);
    fix_border_of_edge(a, border);
    fix_top(a);
}

// Repairs a tree whose only short nodes lie on its right border.
pub fn fix_right_border(a: &mut [u64])
    requires { ShortOn right a.old }
    ensures { Repairs right a.old a.new }
{
    fix_border(a, Border::Right);
}

// The same of its left border.
// Stays beside fix_right_border: the Rust's names (rust/NOTICE).
pub fn fix_left_border(a: &mut [u64])
    requires { ShortOn left a.old }
    ensures { Repairs left a.old a.new }
{
    fix_border(a, Border::Left);
}
