//! The least of some places.

ghost use Rattle.std.specs.Prelude.{◌≡◌};
ghost use Rattle.tlsf_reader.specs.Least.{least};

/// The lesser of two places, where there is one.
pub(crate) fn least(one: Option<u64>, two: Option<u64>) -> Option<u64>
    ensures { result ≡ least one two }
{
    match (one, two) {
        (None, found) | (found, None) => found,
        (Some(first), Some(second)) => {
            if first <= second {
                Some(first)
            } else {
                Some(second)
            }
        }
    }
}
