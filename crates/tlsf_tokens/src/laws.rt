//! Laws of the definitions, which no code needs.

ghost use Rattle.tlsf_tokens.specs.Cuts.{HasOneCut};

/// The tokens are determined by the text.
pub fn a_text_has_one_cut()
    ensures { HasOneCut }
{}
