//! Conditions on some of 64 signals.

/// The letters that have each signal of `on` and none of `off`. Where a signal is in both there is no such letter.
#[derive(Clone, Copy)]
pub struct Literals {
    pub on: u64,
    pub off: u64,
}

impl Literals {
    /// No condition.
    pub const ANY: Literals = Literals { on: 0, off: 0 };

    /// The literals of these signals alone.
    pub fn of_signals(self, signals: u64) -> Literals {
        Literals {
            on: self.on & signals,
            off: self.off & signals,
        }
    }

    /// The literals of the other signals than those that are decided.
    pub fn undecided(self, decided: Literals) -> Literals {
        self.of_signals(!(decided.on | decided.off))
    }

    /// Whether no letter meets both.
    pub fn clashes(self, other: Literals) -> bool {
        self.on & other.off != 0 || self.off & other.on != 0
    }

    /// Whether each letter of the other is one of this.
    pub fn covers(self, other: Literals) -> bool {
        self.on & !other.on == 0 && self.off & !other.off == 0
    }

    /// The literals of both.
    pub fn and(self, other: Literals) -> Literals {
        Literals {
            on: self.on | other.on,
            off: self.off | other.off,
        }
    }

    /// The opposite of each literal.
    pub fn opposite(self) -> Literals {
        Literals {
            on: self.off,
            off: self.on,
        }
    }

    /// These literals and one more.
    pub fn with(self, signal: u32, value: bool) -> Literals {
        let bit = bit_of(signal);
        if value {
            self.and(Literals { on: bit, off: 0 })
        } else {
            self.and(Literals { on: 0, off: bit })
        }
    }

    /// Whether there is no condition.
    pub fn is_any(self) -> bool {
        self.on | self.off == 0
    }

    /// The number of literals.
    pub fn count(self) -> u32 {
        self.on.count_ones().saturating_add(self.off.count_ones())
    }

    /// Whether a letter meets the condition.
    pub fn fits(self, letter: u64) -> bool {
        self.on & !letter == 0 && self.off & letter == 0
    }
}

/// The letter of one signal, or of none where there is no such signal.
fn bit_of(signal: u32) -> u64 {
    if signal < 64 { 1 << signal } else { 0 }
}
