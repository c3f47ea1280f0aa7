//! Seats are dealt out from sizes to workers, and back.
ghost use Rattle.std.specs.Prelude.{◌<◌, All, IfOk, vec_len};
ghost use Rattle.synth_engine.specs.Hands.{AreDrawn};

use size_search::Seat;
use std::alloc::{AllocError, Global};

/// Takes the last seat from each list. Gives these seats, and what is left of the lists.
pub(crate) fn draw(
    alloc: Global,
    lists: Vec<Vec<Seat>>,
) -> Result<(Vec<Seat>, Vec<Vec<Seat>>), AllocError>
    requires { All (λ v. 0 < vec_len v) lists.items }
    ensures { IfOk result (λ r. AreDrawn lists.items r.1.items r.0.items) }
{
    let mut drawn = Vec::with_capacity(alloc, lists.len())?;
    let mut left = Vec::with_capacity(alloc, lists.len())?;
    for mut list in lists {
        let Some(seat) = list.pop() else {
            unreachable!()
        };
        drawn.push(seat)?;
        left.push(list)?;
    }
    Ok((drawn, left))
}
