ghost use Rattle.std.specs.Prelude.{◌≡◌, ◌≢◌, ◌↔◌, ℕ, ◌*◌, ◌/◌, ◌^◌, ◌<◌, ◌≤◌, All, Any, Err, IfOk, IfSome, IfNone, length, vec_len};
ghost use Rattle.std.specs.Bool.{OnTrue, OnFalse};
ghost use Rattle.text_limits.specs.declared.TheConstants.{LARGE_LIMITS};
ghost use Rattle.machine_model.specs.Machine.{MachineModel, IsMachine, IsRefused, writes_in};
ghost use Rattle.machine_model.specs.declared.machines.MachineFault.{MachineFault};

use letters_and_lassos::Kind;
use std::alloc::AllocError;
use std::marker::Model;

/// What a machine does in one state on one read letter.
#[derive(Clone, Copy, Debug, PartialEq, Eq)]
pub struct Row {
    pub next: u32,
    pub writes: u32,
}

/// Why a table is no machine: the first of these that applies.
#[derive(Clone, Copy, Debug, PartialEq, Eq)]
pub enum MachineFault {
    /// 1: the table is empty, or ends within a state's rows.
    WrongShape,
    /// 2: a row leads to a state that isn't there.
    NextOut,
    /// 3: a row writes a signal that isn't there.
    WriteOut,
    /// 4: the kind is Moore, and two rows of one state write differently.
    NotMoore,
}

/// A finite machine: for each state and read letter the state after it and the letter that it writes.
#[derive(Debug, Drop)]
pub struct Machine {
    kind: Kind,
    reads: u32,
    writes: u32,
    table: Vec<Row>,
}

impl Model for Machine {
    ghost use Rattle.machine_model.specs.Machine.{MachineModel, IsKeptMachine};

    ghost Value = { MachineModel };

    ghost view = { λ m. record { kind = m.kind; reads = m.reads; writes = m.writes; table = m.table.items } };

    ghost invariant = { λ m. IsKeptMachine (record { kind = m.kind; reads = m.reads; writes = m.writes; table = m.table.items }) };
}

impl Clone for Machine {
    ghost is_clone = { λ m copy. copy ≡ m };

    fn clone(&self) -> Result<Machine, AllocError> {
        Ok(Machine {
            kind: self.kind,
            reads: self.reads,
            writes: self.writes,
            table: self.table.clone()?,
        })
    }
}

impl Machine {
    ghost use Rattle.machine_model.specs.Machine.{MachineModel, IsKeptMachine, IsRefused, size_of, row_of, next_of, writes_of};

    /// The machine of a table, whose place `t * 2^reads + i` is state `t` on read letter `i`. It takes no memory.
    pub fn new(
        kind: Kind,
        reads: u32,
        writes: u32,
        table: Vec<Row>,
    ) -> Result<Machine, MachineFault>
        requires reads { reads ≤ LARGE_LIMITS.signals }
        requires writes { writes ≤ LARGE_LIMITS.signals }
        requires rows { vec_len table < 2 ^ 32 }
        ensures parts { IfOk result (λ m. m ≡ record { kind = kind; reads = reads; writes = writes; table = table.items }) }
        ensures made { IfOk result IsKeptMachine }
        ensures refused { let m : MachineModel = record { kind = kind; reads = reads; writes = writes; table = table.items } in
            (fault : MachineFault) → (result ≡ Err fault) ↔ IsRefused m fault }
    {
        match table_fault(kind, reads, writes, &table) {
            Some(fault) => Err(fault),
            None => Ok(Machine {
                kind,
                reads,
                writes,
                table,
            }),
        }
    }

    fn row(&self, t: u32, letter: u32) -> Row
        requires state { t < size_of self.now }
        requires letter { letter < 2 ^ self.now.reads }
        ensures value { result ≡ row_of self.now t letter }
        ensures next { result.next < size_of self.now }
        ensures writes { result.writes < 2 ^ self.now.writes }
    {
        self.table[t as usize * letter_count(self.reads) as usize + letter as usize]
    }

    /// The number of states.
    pub fn size(&self) -> u32
        ensures value { result ≡ size_of self.now }
        ensures kept { IsKeptMachine self.now }
    {
        (self.table.len() >> self.reads) as u32
    }

    /// Whether it writes by the letter that it reads now, or by its state alone.
    pub fn kind(&self) -> Kind
        ensures value { result ≡ self.now.kind }
        ensures kept { IsKeptMachine self.now }
    {
        self.kind
    }

    /// The number of signals that it reads.
    pub fn reads(&self) -> u32
        ensures value { result ≡ self.now.reads }
        ensures kept { IsKeptMachine self.now }
    {
        self.reads
    }

    /// The number of signals that it writes.
    pub fn writes(&self) -> u32
        ensures value { result ≡ self.now.writes }
        ensures kept { IsKeptMachine self.now }
    {
        self.writes
    }

    /// The state after state `t` on the read letter.
    pub fn next(&self, t: u32, letter: u32) -> u32
        requires state { t < size_of self.now }
        requires letter { letter < 2 ^ self.now.reads }
        ensures value { result ≡ next_of self.now t letter }
        ensures within { result < size_of self.now }
    {
        self.row(t, letter).next
    }

    /// The letter that state `t` writes on the read letter.
    pub fn writes_at(&self, t: u32, letter: u32) -> u32
        requires state { t < size_of self.now }
        requires letter { letter < 2 ^ self.now.reads }
        ensures value { result ≡ writes_of self.now t letter }
        ensures within { result < 2 ^ self.now.writes }
    {
        self.row(t, letter).writes
    }
}

/// The number of letters of some signals.
pub(crate) fn letter_count(signals: u32) -> u32
    requires { signals ≤ LARGE_LIMITS.signals }
    ensures value { result ≡ 2 ^ signals }
    ensures some { 0 < result }
{
    1 << signals
}

/// The first fault of a table.
fn table_fault(kind: Kind, reads: u32, writes: u32, table: &[Row]) -> Option<MachineFault>
    requires reads { reads ≤ LARGE_LIMITS.signals }
    requires writes { writes ≤ LARGE_LIMITS.signals }
    requires rows { length table.now < 2 ^ 32 }
    ensures none { IfNone result (IsMachine (record { kind = kind; reads = reads; writes = writes; table = table.now })) }
    ensures some { IfSome result (IsRefused (record { kind = kind; reads = reads; writes = writes; table = table.now })) }
{
    let letters = letter_count(reads) as usize;
    if table.is_empty() || table.len() % letters != 0 {
        return Some(MachineFault::WrongShape);
    }
    let size = (table.len() / letters) as u32;
    if has_next_out(table, size) {
        return Some(MachineFault::NextOut);
    }
    let written = letter_count(writes);
    if has_write_out(table, written) {
        return Some(MachineFault::WriteOut);
    }
    match kind {
        Kind::Mealy => None,
        Kind::Moore => {
            if writes_by_letter(table, letters) {
                Some(MachineFault::NotMoore)
            } else {
                None
            }
        }
    }
}

/// Whether a row leads to a state that isn't among the first `size`.
fn has_next_out(table: &[Row], size: u32) -> bool
    ensures some { OnTrue result (Any (λ row. size ≤ row.next) table.now) }
    ensures none { OnFalse result (All (λ row. row.next < size) table.now) }
{
    table.iter().any(|row| row.next >= size)
}

/// Whether a row writes something that isn't among the first `letters` letters.
fn has_write_out(table: &[Row], letters: u32) -> bool
    ensures some { OnTrue result (Any (λ row. letters ≤ row.writes) table.now) }
    ensures none { OnFalse result (All (λ row. row.writes < letters) table.now) }
{
    table.iter().any(|row| row.writes >= letters)
}

/// Whether a row writes otherwise than the first row of its state, each state having `letters` rows.
fn writes_by_letter(table: &[Row], letters: usize) -> bool
    requires { 0 < letters }
    ensures some { OnTrue result ((k : ℕ) × (k < length table.now) × (writes_in table.now k ≢ writes_in table.now (k / letters * letters))) }
    ensures none { OnFalse result ((k : ℕ) → k < length table.now → writes_in table.now k ≡ writes_in table.now (k / letters * letters)) }
{
    for (place, row) in table.iter().enumerate() {
        if row.writes != table[place / letters * letters].writes {
            return true;
        }
    }
    false
}
