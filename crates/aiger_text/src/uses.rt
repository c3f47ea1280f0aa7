//! The first line that uses a variable which no line defines.

ghost use Rattle.std.specs.Prelude.{◌≡◌, ℕ, ◌+◌, ◌<◌, ◌^◌, ◌&&◌, IfSome, length, not};
ghost use Rattle.std.specs.List.{position_from};
ghost use Rattle.aiger_text.specs.CircuitFile.{is_known, found_from, undefined_line};
ghost use Rattle.aiger_text.specs.Sound.{total};
ghost use Rattle.aiger_text.specs.Statements.{stated, IsMarked};

use crate::bodies::Statements;

impl Statements {
    /// Whether a literal is a constant, or of a variable that a line defines.
    fn is_known(&self, literal: u32) -> bool
        requires { IsMarked self.now }
        ensures { result ≡ is_known (stated self.now) literal }
    {
        literal / 2 == 0 || self.is_defined(literal / 2)
    }

    fn unknown_latch(&self) -> Option<usize>
        requires { IsMarked self.now }
        ensures place { result ≡ position_from (λ latch. not (is_known (stated self.now) latch.next)) 0 self.now.latches.items }
        ensures within { IfSome result (λ place. place < length self.now.latches.items) }
    {
        for place in 0..self.latches.len() {
            if !self.is_known(self.latches[place].next) {
                return Some(place);
            }
        }
        None
    }

    fn unknown_output(&self) -> Option<usize>
        requires { IsMarked self.now }
        ensures place { result ≡ position_from (λ literal. not (is_known (stated self.now) literal)) 0 self.now.outputs.items }
        ensures within { IfSome result (λ place. place < length self.now.outputs.items) }
    {
        for place in 0..self.outputs.len() {
            if !self.is_known(self.outputs[place]) {
                return Some(place);
            }
        }
        None
    }

    /// Whether both operands of a gate are known.
    fn knows_operands(&self, left: u32, right: u32) -> bool
        requires { IsMarked self.now }
        ensures { result ≡ (is_known (stated self.now) left && is_known (stated self.now) right) }
    {
        self.is_known(left) && self.is_known(right)
    }

    fn unknown_gate(&self) -> Option<usize>
        requires { IsMarked self.now }
        ensures place { result ≡ position_from (λ gate. not (is_known (stated self.now) gate.left && is_known (stated self.now) gate.right)) 0 self.now.gates.items }
        ensures within { IfSome result (λ place. place < length self.now.gates.items) }
    {
        for place in 0..self.gates.len() {
            let gate = self.gates[place];
            if !self.knows_operands(gate.left, gate.right) {
                return Some(place);
            }
        }
        None
    }

    /// The first line that uses a variable which no line defines.
    pub(crate) fn undefined_line(&self) -> Option<u64>
        requires marked { IsMarked self.now }
        requires lines { total (stated self.now) < 2 ^ 64 }
        ensures { result ≡ undefined_line (stated self.now) }
    {
        let latches = 2 + self.inputs.len() as u64;
        let outputs = latches + self.latches.len() as u64;
        let gates = outputs + self.outputs.len() as u64;
        let in_gates = found_from(gates, self.gates.len(), self.unknown_gate(), None);
        let in_outputs = found_from(outputs, self.outputs.len(), self.unknown_output(), in_gates);
        found_from(
            latches,
            self.latches.len(),
            self.unknown_latch(),
            in_outputs,
        )
    }
}

/// The line of the one that was found among so many lines from `first` on, or another line.
fn found_from(first: u64, count: usize, place: Option<usize>, other: Option<u64>) -> Option<u64>
    requires room { first + count < 2 ^ 64 }
    requires within { IfSome place (λ place. place < count) }
    ensures { result ≡ found_from first place other }
{
    match place {
        Some(place) => Some(first + place as u64),
        None => other,
    }
}
