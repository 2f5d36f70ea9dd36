// The head of a node.
ghost use Rattle.std.specs.Prelude.{◌≡◌};
ghost use Rattle.node.specs.Heads.{new_head};

use crate::Head;

// The head of a node that has seen no time yet.
#[tactic(auto, unfolding(crate::specs::Heads::new_head))]
pub fn new_head(own: u32) -> Head
    ensures { result ≡ new_head own }
{
    Head { own, latest: 0 }
}
