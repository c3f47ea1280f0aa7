ghost use Rattle.std.specs.Prelude.{◌≡◌, ℕ, ◌+◌, ◌*◌, ◌^◌, ◌<◌, ◌≤◌, [], All, IfOk, OnOk, length};
ghost use Rattle.letters_and_lassos.specs.Word.{IsLassoOver, SameWord, after, lasso_len, letter_at};
ghost use Rattle.text_limits.specs.declared.TheConstants.{LARGE_LIMITS};
ghost use Rattle.machine_model.specs.Machine.{size_of, next_of};
ghost use Rattle.machine_model.specs.Run.{IsRunLasso, read_lasso, joined_letter};
ghost use Rattle.machine_model.specs.Course.{IsCourse, letter_of};

use crate::machines::{Machine, letter_count};
use letters_and_lassos::{Lasso, Letter, Side};
use std::alloc::{AllocError, Global};

/// A run of a machine: a lasso of whole letters, inputs below outputs, with a state at each position.
#[derive(Debug, Drop)]
pub struct RunLasso {
    pub word: Lasso,
    pub states: Vec<u32>,
}

/// The whole letter of a read letter and what state `t` of the machine writes on it.
pub fn whole_letter(machine: &Machine, side: Side, t: u32, read: u32) -> Letter
    requires state { t < size_of machine.now }
    requires read { read < 2 ^ machine.now.reads }
    ensures { result ≡ letter_of side machine.now t read }
{
    let written = machine.writes_at(t, read);
    match side {
        Side::System => joined(machine.reads(), read, written),
        Side::Environment => joined(machine.writes(), written, read),
    }
}

/// The letter of so many lower signals and of others above them.
fn joined(count: u32, lower: u32, upper: u32) -> Letter
    requires few { count ≤ LARGE_LIMITS.signals }
    requires lower { lower < 2 ^ count }
    requires upper { upper < 65536 }
    ensures { result ≡ record { 0 = upper * 2 ^ count + lower } }
{
    Letter(u64::from(upper) * u64::from(letter_count(count)) + u64::from(lower))
}

/// The machine's run on a lasso of read letters, the first read signal being bit 0. Its positions are
/// those of the given lasso with its ring unrolled at most as many times as the machine has states.
pub fn run_lasso(
    alloc: Global,
    machine: &Machine,
    side: Side,
    reads: &Lasso,
) -> Result<RunLasso, AllocError>
    requires { IsLassoOver machine.now.reads reads.now }
    ensures run { IfOk result (λ run. IsRunLasso machine.now side run.word run.states.items) }
    ensures reads { IfOk result (λ run. SameWord (read_lasso side machine.now run.word) reads.now) }
{
    let size = machine.size() as usize;
    let ring_start = reads.stem().len();
    let mut course = Course::start(alloc);
    course.follow(machine, side, reads, 0, ring_start)?;
    let mut met: Vec<Option<usize>> = vec![in alloc; None; size]?;
    // A state that the run meets a second time where the ring begins closes the run's own ring.
    while let None = met[course.state as usize] {
        met[course.state as usize] = Some(course.letters.len());
        course.follow(machine, side, reads, ring_start, reads.len())?;
    }
    let begin = met[course.state as usize].unwrap();
    let mut stem = course.letters;
    let ring = stem.split_off(begin)?;
    Ok(RunLasso {
        word: Lasso::new(stem, ring).unwrap(),
        states: course.states,
    })
}

/// A run as far as it was followed: the whole letters so far, the states before them, and the state after them.
#[derive(Drop)]
struct Course {
    letters: Vec<Letter>,
    states: Vec<u32>,
    state: u32,
}

/// The number of the letter that the machine reads at a position.
fn read_number(machine: &Machine, reads: &Lasso, position: usize) -> u32
    requires over { IsLassoOver machine.now.reads reads.now }
    requires within { position < lasso_len reads.now }
    ensures value { result ≡ (letter_at reads.now position).0 }
    ensures fits { result < 2 ^ machine.now.reads }
{
    number_of(machine.reads(), reads.letter(position))
}

/// The number of a letter of so many signals.
fn number_of(signals: u32, letter: Letter) -> u32
    requires few { signals ≤ LARGE_LIMITS.signals }
    requires fits { letter.0 < 2 ^ signals }
    ensures { result ≡ letter.0 }
{
    letter.0 as u32
}

impl Course {
    fn start(alloc: Global) -> Self
        ensures letters { result.letters.items ≡ [] }
        ensures states { result.states.items ≡ [] }
        ensures state { result.state ≡ 0 }
    {
        Course {
            letters: Vec::new(alloc),
            states: Vec::new(alloc),
            state: 0,
        }
    }

    /// Follows the run over the letters at the positions from `from` up to `to`, which come next.
    fn follow(
        &mut self,
        machine: &Machine,
        side: Side,
        reads: &Lasso,
        from: usize,
        to: usize,
    ) -> Result<(), AllocError>
        requires over { IsLassoOver machine.now.reads reads.now }
        requires course { IsCourse machine.now side reads.now self.old.letters.items self.old.states.items self.old.state }
        requires range { from ≤ to }
        requires within { to ≤ lasso_len reads.now }
        requires place { (k : ℕ) → from + k < to → after reads.now 0 (length self.old.letters.items + k) ≡ from + k }
        ensures course { OnOk result (IsCourse machine.now side reads.now self.new.letters.items self.new.states.items self.new.state) }
        ensures len { OnOk result (length self.new.letters.items + from ≡ length self.old.letters.items + to) }
    {
        for position in from..to {
            let read = read_number(machine, reads, position);
            self.letters
                .push(whole_letter(machine, side, self.state, read))?;
            self.states.push(self.state)?;
            self.state = machine.next(self.state, read);
        }
        Ok(())
    }
}
