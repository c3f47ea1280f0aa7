//! The heads of logs.
ghost use Rattle.std.specs.Prelude.{◌≡◌, ◌≤◌, ◌^◌, IfOk};
ghost use Rattle.std.specs.List.{range_with_len};
ghost use Rattle.text_limits.specs.declared.TheConstants.{LARGE_LIMITS};
ghost use Rattle.letter_clauses.specs.Letters.{IsLetterProblem};
ghost use Rattle.size_refutations.specs.Heads.{are_few as are_few_letters, has_numbers as has_its_numbers, is_list as is_list_of_letters, is_number_of_states as is_states, rise_below as rise_below_all};

use letter_clauses::LetterSize;
use solved_text::SizeLog;
use std::alloc::{AllocError, Global};
use text_limits::LARGE_LIMITS;

/// The greatest number of letters of a list that hasn't all.
const MOST_LETTERS: usize = 64;

/// Whether a machine of a size that is refuted may have so many states.
pub(crate) fn is_number_of_states(size: u32) -> bool
    ensures { result ≡ is_states size }
{
    1 <= size && size <= LARGE_LIMITS.machine
}

/// Whether these are letters of so many signals, few and not all of them, by rising number.
pub(crate) fn are_few(signals: u32, letters: &[u32]) -> bool
    requires { signals ≤ LARGE_LIMITS.signals }
    ensures { result ≡ are_few_letters signals letters.now }
{
    letters.len() <= MOST_LETTERS && letters.len() != 1 << signals && is_list(signals, letters)
}

/// Whether these are letters of so many signals, some, by rising number.
pub(crate) fn is_list(signals: u32, letters: &[u32]) -> bool
    requires { signals ≤ LARGE_LIMITS.signals }
    ensures { result ≡ is_list_of_letters signals letters.now }
{
    !letters.is_empty() && rise_below(1 << signals, letters)
}

/// Whether numbers rise, and each is below `all`.
fn rise_below(all: u32, letters: &[u32]) -> bool
    requires { all ≤ 65536 }
    ensures { result ≡ rise_below_all all 0 letters.now }
{
    let mut least = 0;
    for letter in letters {
        if *letter < least || *letter >= all {
            return false;
        }
        least = *letter + 1;
    }
    true
}

/// All letters of so many signals.
pub(crate) fn all_letters(alloc: Global, signals: u32) -> Result<Vec<u32>, AllocError>
    requires { signals ≤ LARGE_LIMITS.signals }
    ensures { IfOk result (λ letters. letters.items ≡ range_with_len 0 (2 ^ signals)) }
{
    let mut letters = Vec::new(alloc);
    for letter in 0..1 << signals {
        letters.push(letter)?;
    }
    Ok(letters)
}

/// Whether a log's size is allowed over some letters, and its head has the numbers of that size.
pub(crate) fn has_numbers(size: LetterSize<'_>, log: &SizeLog) -> bool
    requires { IsLetterProblem size.problem.now size.letters.now }
    ensures { result ≡ has_its_numbers size.entry.problem.now size.entry.letters.now log.now }
{
    match size.count() {
        Some(base) => log.base == base && log.vars == size.variables(),
        None => false,
    }
}
