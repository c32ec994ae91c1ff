// The repair of a node that has lost a pair, through its parent and upwards (fix.rs, and choose_parent_kv of node.rs).
#![tactic(auto)]

ghost use Rattle.std.specs.Prelude.{◌≡◌};
ghost use Rattle.model.specs.Nodes.{Grown};
ghost use Rattle.standing.specs.Heads.{Rest};
ghost use Rattle.fix.specs.Repairs.{side_of, both_of, Merges, MergeCall, Stealing, StealCall, Mending, Mends, chosen, Fixing, Ended};

use balance::BalancingContext;
use node::{LeftOrRight, MIN_LEN, NodeNo, Place, ascend, edge, len};
use totals::{set_right, settle};

// The root was left without pairs.
#[derive(Clone, Copy)]
pub struct EmptyRoot;

// The left sibling if there is one, otherwise the right one. The root has none.
// Stays apart from border's consider_for_balancing: one of the two neighbours is the node itself, and only the other is read.
pub fn choose_parent_kv(a: &[u64], node: NodeNo) -> Option<LeftOrRight<BalancingContext>>
    requires { Mends a.now node.0 }
    ensures { (g : Rest) (t : Grown) (m : Mending a.now g node.0 t) → result ≡ chosen m.way m.tree }
{
    let (parent, idx) = ascend(a, node)?;
    let i = idx.0;
    if i > 0 {
        let left = edge(a, parent, Place(i - 1));
        return Some(LeftOrRight::Left(BalancingContext {
            parent,
            at: Place(i - 1),
            left,
            right: node,
        }));
    }
    let right = edge(a, parent, Place(1));
    Some(LeftOrRight::Right(BalancingContext {
        parent,
        at: Place(0),
        left: node,
        right,
    }))
}

// The two neighbours, whichever of them is the sibling.
pub fn neighbours(sibling: LeftOrRight<BalancingContext>) -> BalancingContext
    ensures { result ≡ both_of sibling }
{
    match sibling {
        LeftOrRight::Left(context) | LeftOrRight::Right(context) => context,
    }
}

// Two neighbours merged into the left one, and counts set right: of that, and of the parent, where it changes nothing.
pub fn do_merge(a: &mut [u64], context: BalancingContext)
    requires { Merges a.old context }
    ensures { MergeCall a.old a.new context }
{
    context.do_merge(a);
    set_right(a, context.left);
    settle(a, context.parent);
}

// `count` pairs are moved from the sibling through the parent, and counts are set right: of both nodes, and of the parent, where it changes nothing.
pub fn bulk_steal(a: &mut [u64], sibling: LeftOrRight<BalancingContext>, count: usize)
    requires { Stealing (side_of sibling) a.old (both_of sibling) count }
    ensures { StealCall (side_of sibling) a.old a.new (both_of sibling) count }
{
    let context = neighbours(sibling);
    match sibling {
        LeftOrRight::Left(_) => context.bulk_steal_left(a, count),
        LeftOrRight::Right(_) => context.bulk_steal_right(a, count),
    }
    set_right(a, context.left);
    set_right(a, context.right);
    settle(a, context.parent);
}

// A node with too few pairs is merged with its sibling, or pairs are moved to it through the parent.
// Answers the parent, if a merge has shrunk it.
pub fn fix_node_through_parent(a: &mut [u64], node: NodeNo) -> Result<Option<NodeNo>, EmptyRoot>
    requires { Mends a.old node.0 }
    ensures { (g : Rest) (t : Grown) → Mending a.old g node.0 t → Fixing result a.old a.new g t }
{
    let n = len(a, node);
    if n >= MIN_LEN {
        return Ok(None);
    }
    let Some(sibling) = choose_parent_kv(a, node) else {
        return if n > 0 { Ok(None) } else { Err(EmptyRoot) };
    };
    let context = neighbours(sibling);
    if context.can_merge(a) {
        do_merge(a, context);
        return Ok(Some(context.parent));
    }
    bulk_steal(a, sibling, MIN_LEN - n);
    Ok(None)
}

// The same of a node and then, after each merge, of its parent. Answers whether the root still has pairs.
// Stays a bool and a loop: the Rust's own; no index is counted, it climbs as long as nodes are merged.
pub fn fix_node_and_affected_ancestors(a: &mut [u64], node: NodeNo) -> bool
    requires { Mends a.old node.0 }
    ensures { (g : Rest) (t : Grown) → Mending a.old g node.0 t → Ended result a.new g t }
{
    let mut n = node;
    loop {
        match fix_node_through_parent(a, n) {
            Ok(Some(parent)) => n = parent,
            Ok(None) => return true,
            Err(EmptyRoot) => return false,
        }
    }
}
