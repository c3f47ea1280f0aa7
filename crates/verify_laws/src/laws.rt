//! Laws of the answers of `verify`, each the contract of a function that does nothing.
ghost use Rattle.verify_laws.specs.Accepted.{AcceptedAreVerified};

use verify_answer::laws::{environments_are_determined, verifications_are_determined};

/// A document that the test of documents accepts for a text, with a kind that is given or by the text's own, is verified by `verify` with
/// the same kind: as a controller, or, with `--unrealizable`, as a counter-strategy.
pub fn accepted_are_verified()
    ensures { AcceptedAreVerified }
{
    verifications_are_determined();
    environments_are_determined();
}
