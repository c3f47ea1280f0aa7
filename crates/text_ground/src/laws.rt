//! Laws, each the contract of a function that does nothing.

ghost use Rattle.text_ground.specs.Laws.{SidesMean};

use satisfaction::laws::{
    accepted_environments_defeat, accepted_systems_satisfy, rejected_environments_can_lose,
};

/// What the automata of a text's two sides say of machines.
pub fn sides_mean()
    ensures { SidesMean }
{
    accepted_systems_satisfy();
    accepted_environments_defeat();
    rejected_environments_can_lose();
}
