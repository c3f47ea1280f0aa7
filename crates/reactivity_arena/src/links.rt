//! Lists of numbers by number, one behind the other.

use std::alloc::{AllocError, Global};

/// A number that another leads to, and the signals of one player that are there on the way.
#[derive(Clone, Copy)]
pub struct Link {
    pub target: u32,
    pub letter: u64,
}

/// For each number its links.
#[derive(Drop)]
pub struct Links {
    /// Where the links of each number end; the first starts at 0.
    ends: Vec<usize>,
    links: Vec<Link>,
}

impl Links {
    pub(crate) fn new(alloc: Global) -> Links {
        Links {
            ends: Vec::new(alloc),
            links: Vec::new(alloc),
        }
    }

    /// How many numbers have lists.
    pub fn count(&self) -> usize {
        self.ends.len()
    }

    /// How many links there are.
    pub fn size(&self) -> usize {
        self.links.len()
    }

    /// Adds a link to the list of the number that comes next.
    pub(crate) fn push(&mut self, link: Link) -> Result<(), AllocError> {
        self.links.push(link)?;
        Ok(())
    }

    /// Ends the list of the number that comes next.
    pub(crate) fn close(&mut self) -> Result<(), AllocError> {
        self.ends.push(self.links.len())?;
        Ok(())
    }

    /// The links of a number.
    pub fn of(&self, number: usize) -> &[Link] {
        let start = match number.checked_sub(1) {
            Some(before) => self.ends.get(before).copied().unwrap_or(0),
            None => 0,
        };
        let end = self.ends.get(number).copied().unwrap_or(start);
        self.links.get(start..end).unwrap_or(&[])
    }

    /// For each of so many targets the numbers that lead to it.
    pub(crate) fn reversed(&self, alloc: Global, targets: usize) -> Result<Links, AllocError> {
        let mut ends = vec![in alloc; 0usize; targets]?;
        for link in &self.links {
            if let Some(count) = ends.get_mut(link.target as usize) {
                *count = count.saturating_add(1);
            }
        }
        let mut places = Vec::with_capacity(alloc, targets)?;
        let mut sum = 0usize;
        for count in ends.iter_mut() {
            places.push(sum)?;
            sum = sum.saturating_add(*count);
            *count = sum;
        }
        let none = Link {
            target: 0,
            letter: 0,
        };
        let mut links = vec![in alloc; none; self.links.len()]?;
        for number in 0..self.count() {
            self.put_reversed(number, &mut places, &mut links);
        }
        Ok(Links { ends, links })
    }

    fn put_reversed(&self, number: usize, places: &mut [usize], links: &mut [Link]) {
        for link in self.of(number) {
            if let Some(place) = places.get_mut(link.target as usize) {
                if let Some(own) = links.get_mut(*place) {
                    own.target = u32::try_from(number).unwrap_or(0);
                }
                *place = place.saturating_add(1);
            }
        }
    }
}
