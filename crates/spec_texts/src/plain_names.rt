//! Names that the readers of infix LTL and of SMV take: a small letter, and then letters, digits and `_`.

ghost use Rattle.std.specs.Prelude.{◌≡◌, IfOk, length};

use names_and_numbers::Name;
use std::alloc::{AllocError, Global};

/// Words that are no names in infix LTL.
pub(crate) const LTL_WORDS: [&[u8]; 8] = [
    b"true",
    b"false",
    b"xor",
    b"and",
    b"or",
    b"not",
    b"first_match",
    b"strong",
];

/// Words that are no names in SMV, and the one that its module has for the state.
pub(crate) const SMV_WORDS: [&[u8]; 29] = [
    b"state",
    b"array",
    b"boolean",
    b"bool",
    b"case",
    b"esac",
    b"in",
    b"init",
    b"next",
    b"self",
    b"mod",
    b"of",
    b"process",
    b"real",
    b"integer",
    b"word",
    b"word1",
    b"signed",
    b"unsigned",
    b"extend",
    b"resize",
    b"sizeof",
    b"toint",
    b"count",
    b"union",
    b"xor",
    b"xnor",
    b"max",
    b"min",
];

/// A name for each of these names, no two of them the same where no two of these are: the name itself where it is plain, else one
/// like it.
pub(crate) fn plain_names(
    alloc: Global,
    names: &[Name],
    words: &[&[u8]],
) -> Result<Vec<Name>, AllocError>
    ensures { IfOk result (λ made. length made.items ≡ length names.now) }
{
    let mut made: Vec<Name> = Vec::new(alloc);
    for name in names {
        let plain = plain_name(alloc, name, names, words, &made)?;
        made.push(plain)?;
    }
    Ok(made)
}

fn plain_name(
    alloc: Global,
    name: &Name,
    names: &[Name],
    words: &[&[u8]],
    made: &[Name],
) -> Result<Name, AllocError> {
    if is_plain(name.bytes(), words) {
        return name.clone();
    }
    let mut bytes = likeness(alloc, name.bytes(), words)?;
    // Each round makes it longer, so it is another one each time.
    for _ in names.iter().chain(made) {
        if !is_among(&bytes, names) && !is_among(&bytes, made) {
            break;
        }
        bytes.push(b'_')?;
    }
    Name::new(alloc, &bytes)
}

fn is_plain(name: &[u8], words: &[&[u8]]) -> bool {
    let begins_well = name.first().is_some_and(|byte| byte.is_ascii_lowercase());
    begins_well && name.iter().all(|byte| is_word_byte(*byte)) && !is_word(name, words)
}

fn is_word(name: &[u8], words: &[&[u8]]) -> bool {
    words.iter().any(|word| *word == name)
}

fn is_word_byte(byte: u8) -> bool {
    byte == b'_' || byte.is_ascii_alphanumeric()
}

fn is_among(bytes: &[u8], names: &[Name]) -> bool {
    names.iter().any(|name| name.bytes() == bytes)
}

/// A plain name like that one: `r_0` for `r[0]`, and `v_F1` for `F1`.
fn likeness(alloc: Global, name: &[u8], words: &[&[u8]]) -> Result<Vec<u8>, AllocError> {
    let mut bytes = Vec::new(alloc);
    if !name.first().is_some_and(|byte| byte.is_ascii_lowercase()) || is_word(name, words) {
        bytes.extend_from_slice(b"v_")?;
    }
    for byte in name {
        if is_word_byte(*byte) {
            bytes.push(*byte)?;
        } else if *byte != b']' {
            bytes.push(b'_')?;
        }
    }
    Ok(bytes)
}
