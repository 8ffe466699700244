//! Whether a cantus is lawful, and what it costs.

ghost use Rattle.std.specs.Prelude.{◌≡◌, ◌≤◌, None, IfSome, length, reverse};
ghost use Rattle.cantus_space.specs.Lawful as words;
ghost use Rattle.cantus_space.specs.Lawful.{IsLawful, IsLive};
ghost use Rattle.cantus_space.specs.Nodes.{IsNodeOf};

use crate::node::CantusNode;
use crate::space::CantusSpace;
use fux_pitch::Pitch;

/// What stands for pitches that begin a cantus and break no rule.
fn node_of(space: &CantusSpace, pitches: &[Pitch]) -> Option<CantusNode>
    requires { length pitches.now ≤ space.now.bars }
    ensures live { IfSome result (IsNodeOf space.now (reverse pitches.now)) }
    ensures none { result ≡ None → IsLive space.now pitches.now → ⊥ }
{
    let plan = space.plan();
    let mut node = CantusNode::start(plan);
    for i in 0..pitches.len() {
        node = node.after(plan, pitches[i])?;
    }
    Some(node)
}

/// The penalty of a cantus, where it is lawful.
pub fn lawful_penalty(space: &CantusSpace, cantus: &[Pitch]) -> Option<u64>
    ensures lawful { IfSome result (λ penalty. IsLawful space.now cantus.now
        × (words.penalty_of space.now cantus.now ≡ penalty)) }
    ensures none { result ≡ None → IsLawful space.now cantus.now → ⊥ }
{
    if cantus.len() != space.plan().bars as usize {
        return None;
    }
    let node = node_of(space, cantus)?;
    Some(space.floor(&node))
}
