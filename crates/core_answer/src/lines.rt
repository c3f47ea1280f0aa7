//! The lines of guarantees that can't be met together.
ghost use Rattle.std.specs.Prelude.{◌≡◌, ◌++◌, ◌∷◌, [], if◌then◌else◌, IfOk, OnOk, codes, map, slice_index_or};
ghost use Rattle.core_answer.specs.Core.{core_lines, document_part, guarantee_lines, numbered_line, numbers, without_parts};

use names_and_numbers::push_number;
use program_replies::line_count;
use std::alloc::{AllocError, Global};

/// The guarantees that are kept, with the document over them, and for each of them what comes without it.
pub(crate) fn core_text(
    alloc: Global,
    keep: &[bool],
    document: &[u8],
    others: &[Vec<u8>],
) -> Result<Vec<u8>, AllocError>
    ensures { IfOk result (λ bytes. bytes.items ≡ core_lines keep.now document.now (map (λ o. o.items) others.now)) }
{
    let numbers = numbers(alloc, keep)?;
    let mut bytes = Vec::new(alloc);
    bytes.extend_from_slice(b"core ")?;
    push_number(&mut bytes, numbers.len() as u64)?;
    bytes.extend_from_slice(b" of ")?;
    push_number(&mut bytes, keep.len() as u64)?;
    bytes.extend_from_slice(b"\n")?;
    push_guarantees(&mut bytes, &numbers)?;
    push_document(&mut bytes, document)?;
    push_others(&mut bytes, &numbers, others)?;
    bytes.extend_from_slice(b"end core\n")?;
    Ok(bytes)
}

/// The numbers of the guarantees that are kept.
fn numbers(alloc: Global, keep: &[bool]) -> Result<Vec<u64>, AllocError>
    ensures { IfOk result (λ list. list.items ≡ numbers keep.now) }
{
    let mut list = Vec::new(alloc);
    for (place, kept) in keep.iter().enumerate() {
        push_if(&mut list, place as u64 + 1, *kept)?;
    }
    Ok(list)
}

fn push_if(list: &mut Vec<u64>, number: u64, kept: bool) -> Result<(), AllocError>
    ensures { OnOk result (list.new.items ≡ list.old.items ++ (if kept then number ∷ [] else [])) }
{
    if kept {
        list.push(number)?;
    }
    Ok(())
}

fn push_guarantees(bytes: &mut Vec<u8>, numbers: &[u64]) -> Result<(), AllocError>
    ensures { OnOk result (bytes.new.items ≡ bytes.old.items ++ guarantee_lines numbers.now) }
{
    for number in numbers {
        push_line(bytes, b"guarantee", *number)?;
    }
    Ok(())
}

fn push_others(bytes: &mut Vec<u8>, numbers: &[u64], others: &[Vec<u8>]) -> Result<(), AllocError>
    ensures { OnOk result (bytes.new.items ≡ bytes.old.items ++ without_parts numbers.now (map (λ o. o.items) others.now)) }
{
    for (place, number) in numbers.iter().enumerate() {
        if place >= others.len() {
            return Ok(());
        }
        push_other(bytes, *number, other_at(others, place))?;
    }
    Ok(())
}

fn other_at(others: &[Vec<u8>], place: usize) -> &[u8]
    ensures { result.now ≡ slice_index_or (map (λ o. o.items) others.now) place [] }
{
    match others.get(place) {
        Some(other) => other,
        None => &[],
    }
}

/// What comes without a guarantee.
fn push_other(bytes: &mut Vec<u8>, number: u64, other: &[u8]) -> Result<(), AllocError>
    ensures { OnOk result (bytes.new.items ≡ bytes.old.items ++ (numbered_line (codes "without") number ++ document_part other.now)) }
{
    push_line(bytes, b"without", number)?;
    push_document(bytes, other)
}

/// A document behind the number of its lines.
fn push_document(bytes: &mut Vec<u8>, document: &[u8]) -> Result<(), AllocError>
    ensures { OnOk result (bytes.new.items ≡ bytes.old.items ++ document_part document.now) }
{
    push_line(bytes, b"document", line_count(document) as u64)?;
    bytes.extend_from_slice(document)?;
    Ok(())
}

/// A line with a word and a number.
fn push_line(bytes: &mut Vec<u8>, word: &[u8], number: u64) -> Result<(), AllocError>
    ensures { OnOk result (bytes.new.items ≡ bytes.old.items ++ numbered_line word.now number) }
{
    bytes.extend_from_slice(word)?;
    bytes.extend_from_slice(b" ")?;
    push_number(bytes, number)?;
    bytes.extend_from_slice(b"\n")?;
    Ok(())
}
