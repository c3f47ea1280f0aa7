//! Which form an annotation has.
ghost use Rattle.std.specs.Prelude.{◌≡◌, ◌↔◌, IfOk, IsTrue};
ghost use Rattle.std.specs.Option.{option_copied};
ghost use Rattle.aiger_text.specs.CircuitFile.{States};
ghost use Rattle.circuit_check.specs.FirstBad.{comment_of as comment_in};
ghost use Rattle.circuit_check.specs.Forms.{NamesStates, comment_names as comment_with_names, has_two_words as has_two};

use aiger_text::{
    CircuitFault, CircuitFile, cut_at, faults_state_nothing, files_state_one_thing, read_circuit,
};
use annot_check::find_head;
use std::alloc::{AllocError, Global};

/// Whether a file is a circuit without fault whose annotation names its states: the first line of its comment that begins as a head has
/// three words.
pub fn names_states(alloc: Global, bytes: &[u8]) -> Result<bool, AllocError>
    ensures { IfOk result (λ is. IsTrue is ↔ NamesStates bytes.now) }
{
    files_state_one_thing();
    faults_state_nothing();
    match read_circuit(alloc, bytes) {
        Ok(file) => Ok(file_names(&file, bytes)),
        Err(CircuitFault::NoMemory) => Err(AllocError),
        Err(_) => Ok(false),
    }
}

/// Whether the comment of this file does so.
fn file_names(file: &CircuitFile, bytes: &[u8]) -> bool
    requires { States bytes.now file.now }
    ensures { IsTrue result ↔ NamesStates bytes.now }
{
    files_state_one_thing();
    match comment_of(file, bytes) {
        Some(comment) => comment_names(comment),
        None => false,
    }
}

/// What stands behind the line `c`.
pub(crate) fn comment_of<'a>(file: &CircuitFile, bytes: &'a [u8]) -> Option<&'a [u8]>
    requires { States bytes.now file.now }
    ensures { option_copied result ≡ comment_in file.now bytes.now }
{
    let at = file.comment_at?;
    Some(&bytes[at..])
}

/// Whether the first line of a comment that begins as a head has three words.
fn comment_names(comment: &[u8]) -> bool
    ensures { result ≡ comment_with_names comment.now }
{
    match find_head(comment) {
        Ok(head) => has_two_words(head.word),
        Err(_) => false,
    }
}

/// Whether a line has two words.
fn has_two_words(line: &[u8]) -> bool
    ensures { result ≡ has_two line.now }
{
    let Some((_first, rest)) = cut_at(line, b' ') else {
        return false;
    };
    match cut_at(rest, b' ') {
        Some((_second, _more)) => false,
        None => true,
    }
}
