//! Which signals of two machines are the same.

use circuit_steps::signal_bit;
use letters_and_lassos::Letter;
use machine_table::ShowFault;
use names_and_numbers::Name;
use std::alloc::Global;

/// For each signal of a list its place in another list.
#[derive(Drop)]
pub(crate) struct Matching {
    places: Vec<u32>,
}

impl Matching {
    /// A signal with a name is the one with the same name, and one without a name the one at the same place. The lists must have
    /// the same signals.
    pub(crate) fn of(
        alloc: Global,
        signals: &[Option<Name>],
        others: &[Name],
    ) -> Result<Matching, ShowFault> {
        if signals.len() != others.len() {
            return Err(ShowFault::NoPartners);
        }
        let mut places: Vec<u32> = Vec::new(alloc);
        for (own, signal) in (0u32..64).zip(signals) {
            let place = match signal {
                Some(name) => place_of(name, others).ok_or(ShowFault::NoPartners)?,
                None => own,
            };
            if places.iter().any(|other| *other == place) {
                return Err(ShowFault::NoPartners);
            }
            places.push(place)?;
        }
        Ok(Matching { places })
    }

    /// The letter of the signals, from one of the other list.
    pub(crate) fn of_other(&self, letter: Letter) -> Letter {
        let mut own = 0u64;
        for (signal, place) in (0u32..64).zip(&self.places) {
            if letter.has(*place) {
                own |= signal_bit(signal);
            }
        }
        Letter(own)
    }

    /// The letter of the other list, from one of the signals.
    pub(crate) fn to_other(&self, letter: Letter) -> Letter {
        let mut other = 0u64;
        for (signal, place) in (0u32..64).zip(&self.places) {
            if letter.has(signal) {
                other |= signal_bit(*place);
            }
        }
        Letter(other)
    }
}

fn place_of(name: &Name, others: &[Name]) -> Option<u32> {
    for (place, other) in (0u32..64).zip(others) {
        if other.bytes() == name.bytes() {
            return Some(place);
        }
    }
    None
}
