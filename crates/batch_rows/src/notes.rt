//! A gate that notes what it is passed with.
use input_output::{Gate, Moment};
use std::io;
use std::sync::atomic::{AtomicU64, Ordering};

/// Notes the first moments that workers pass, as a number of three digits: the worker, the log, and 0 before it keeps an answer, 1 after
/// that, or 2 after a claim.
#[derive(Drop)]
pub struct NoteGate {
    passed: AtomicU64,
    notes: [AtomicU64; 8],
}

impl NoteGate {
    pub fn new() -> NoteGate {
        NoteGate {
            passed: AtomicU64::new(0),
            notes: [
                AtomicU64::new(0),
                AtomicU64::new(0),
                AtomicU64::new(0),
                AtomicU64::new(0),
                AtomicU64::new(0),
                AtomicU64::new(0),
                AtomicU64::new(0),
                AtomicU64::new(0),
            ],
        }
    }

    /// Prints the notes.
    pub fn tell(&self, rt: &impl Print) -> io::Result<()> {
        for note in &self.notes {
            println!(rt; "{}", note.load(Ordering::SeqCst))?;
        }
        Ok(())
    }
}

impl Gate for NoteGate {
    fn pass(&self, worker: u32, log: u32, moment: Moment) {
        let digit = match moment {
            Moment::BeforeAppend => 0,
            Moment::AfterAppend => 1,
            Moment::AfterRead => 2,
        };
        let note = u64::from(worker) * 100 + u64::from(log) * 10 + digit;
        let place = self.passed.fetch_add(1, Ordering::SeqCst);
        if place < 8 {
            self.notes[place as usize].store(note, Ordering::SeqCst);
        }
    }
}
