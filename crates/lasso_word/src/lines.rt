//! Bytes that are cut at a byte.

ghost use Rattle.std.specs.Prelude.{◌≡◌, ◌==◌, ◌<◌, ◌+◌, ◌∷◌, [], length, position, IfNone, IfSome};
ghost use Rattle.lasso_word.specs.Lines.{parts_at, IsCut};

/// What stands before the first byte that is `mark`, and what stands behind it.
pub(crate) fn cut_at(bytes: &[u8], mark: u8) -> Option<(&[u8], &[u8])>
    ensures cut { IfSome result (λ cut. IsCut mark bytes.now cut.0.now cut.1.now) }
    ensures shorter { IfSome result (λ cut. length cut.1.now < length bytes.now) }
    ensures whole { IfNone result (parts_at mark bytes.now ≡ bytes.now ∷ []) }
{
    let end = first_at(bytes, mark)?;
    Some((&bytes[..end], &bytes[end + 1..]))
}

/// The place of the first byte that is `mark`.
fn first_at(bytes: &[u8], mark: u8) -> Option<usize>
    ensures { result ≡ position (λ b. b == mark) bytes.now }
{
    bytes.iter().position(|byte| *byte == mark)
}
