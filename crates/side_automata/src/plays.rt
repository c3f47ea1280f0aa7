ghost use Rattle.std.specs.Prelude.{◌≡◌, ℕ, ◌+◌, ◌*◌, ◌^◌, ◌<◌, IfOk, length};
ghost use Rattle.machine_model.specs.Machine.{size_of};
ghost use Rattle.machine_model.specs.Run.{ArePartners, IsPlay};

use letters_and_lassos::{Kind, Lasso, Letter, Side};
use machine_model::{Machine, whole_letter};
use std::alloc::{AllocError, Global};

/// The one lasso that a machine of the system and one of the environment both run. It takes time and memory
/// linear in the product of their sizes.
pub fn play(alloc: Global, machine: &Machine, counter: &Machine) -> Result<Lasso, AllocError>
    requires { ArePartners machine.now counter.now }
    ensures { IfOk result (IsPlay machine.now counter.now) }
{
    let width = counter.size() as usize;
    let mut met: Vec<Option<usize>> = vec![in alloc; None; machine.size() as usize * width]?;
    let mut letters = Vec::new(alloc);
    let mut states = States::start();
    // States that are met a second time close the ring.
    while let None = met[states.place(width)] {
        met[states.place(width)] = Some(letters.len());
        letters.push(states.letter(machine, counter))?;
        states = states.next(machine, counter);
    }
    let begin = met[states.place(width)].unwrap();
    let ring = letters.split_off(begin)?;
    Ok(Lasso::new(letters, ring).unwrap())
}

/// The states of both machines.
#[derive(Clone, Copy)]
struct States {
    system: u32,
    environment: u32,
}

impl States {
    ghost use Rattle.side_automata.specs.Rounds.{AreStates, heard_of, input_of, next_states, round_letter};

    fn start() -> States
        ensures system { result.system ≡ 0 }
        ensures environment { result.environment ≡ 0 }
    {
        States {
            system: 0,
            environment: 0,
        }
    }

    /// The place in a table that has `width` places for each state of the system.
    fn place(self, width: usize) -> usize
        requires width { width < 2 ^ 32 }
        requires within { self.environment < width }
        ensures { result ≡ self.system * width + self.environment }
    {
        self.system as usize * width + self.environment as usize
    }

    /// What the environment writes in this round.
    fn input(self, machine: &Machine, counter: &Machine) -> u32
        requires partners { ArePartners machine.now counter.now }
        requires states { AreStates machine.now counter.now self }
        ensures value { result ≡ input_of machine.now counter.now self }
        ensures within { result < 2 ^ machine.now.reads }
    {
        let heard = match machine.kind() {
            Kind::Mealy => 0,
            Kind::Moore => machine.writes_at(self.system, 0),
        };
        counter.writes_at(self.environment, heard)
    }

    /// The whole letter of this round.
    fn letter(self, machine: &Machine, counter: &Machine) -> Letter
        requires partners { ArePartners machine.now counter.now }
        requires states { AreStates machine.now counter.now self }
        ensures { result ≡ round_letter machine.now counter.now self }
    {
        whole_letter(
            machine,
            Side::System,
            self.system,
            self.input(machine, counter),
        )
    }

    /// The states after this round.
    fn next(self, machine: &Machine, counter: &Machine) -> States
        requires partners { ArePartners machine.now counter.now }
        requires states { AreStates machine.now counter.now self }
        ensures value { result ≡ next_states machine.now counter.now self }
        ensures within { AreStates machine.now counter.now result }
    {
        let input = self.input(machine, counter);
        let output = machine.writes_at(self.system, input);
        States {
            system: machine.next(self.system, input),
            environment: counter.next(self.environment, output),
        }
    }
}
