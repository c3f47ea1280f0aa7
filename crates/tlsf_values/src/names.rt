//! What the names of a text mean, found through a map that is made once.

ghost use Rattle.std.specs.Prelude.{◌≡◌, IfOk, OnOk, Some, map};
ghost use Rattle.tlsf_syntax.specs.Seen.{definition_seen, member_seen, pattern_seen};
ghost use Rattle.tlsf_values.specs.Names.{bus_at, is_declared, is_enumeration, patterns_at, with_bus, with_definition, with_definitions, with_meaning, with_member, with_members, with_signal, without_names};
ghost use Rattle.tlsf_values.specs.NamesSeen.{entry_seen, names_seen, range_seen};

use crate::patterns::BusRange;
use names_and_numbers::Name;
use std::alloc::{AllocError, Global};
use std::collections::HashMap;
use tlsf_syntax::{Body, Definition, Expr, Member, Pattern, Word};

/// What one name means. Buses and members of enumerations go by their places.
#[derive(Clone, Copy)]
pub(crate) enum Entry<'t> {
    Signal(u32),
    Bus(u32),
    Member(u32),
    Enumeration,
    Parameter(&'t Expr),
    Function(&'t [Word], &'t Body),
}

/// The names that a text declares, with what they mean.
#[derive(Drop)]
pub struct Names<'t> {
    pub(crate) alloc: Global,
    entries: HashMap<Name, Entry<'t>>,
    buses: Vec<BusRange>,
    members: Vec<&'t Member>,
}

impl<'t> Names<'t> {
    /// No names. It takes no memory.
    pub fn new(alloc: Global) -> Names<'t>
        ensures { names_seen result ≡ without_names }
    {
        Names {
            alloc,
            entries: HashMap::new(alloc),
            buses: Vec::new(alloc),
            members: Vec::new(alloc),
        }
    }

    /// Of two equal names the last one counts.
    fn insert(&mut self, name: &Name, entry: Entry<'t>) -> Result<(), AllocError>
        ensures { OnOk result (names_seen self.new ≡ with_meaning (names_seen self.old) name.now (entry_seen (Some entry.entry))) }
    {
        self.entries.insert(name.clone()?, entry)?;
        Ok(())
    }

    /// A single signal with its number.
    pub fn add_signal(&mut self, name: &Name, number: u32) -> Result<(), AllocError>
        ensures { OnOk result (names_seen self.new ≡ with_signal (names_seen self.old) name.now number) }
    {
        self.insert(name, Entry::Signal(number))
    }

    /// A bus, with its first signal and its width.
    pub fn add_bus(&mut self, name: &Name, first: u32, width: u32) -> Result<(), AllocError>
        ensures { OnOk result (names_seen self.new ≡ with_bus (names_seen self.old) name.now first width) }
    {
        let place = next_place(self.buses.len())?;
        self.buses.push(BusRange { first, width })?;
        self.insert(name, Entry::Bus(place))
    }

    fn add_member(&mut self, member: &'t Member) -> Result<(), AllocError>
        ensures { OnOk result (names_seen self.new ≡ with_member (names_seen self.old) (member_seen member.now)) }
    {
        let place = next_place(self.members.len())?;
        self.members.push(member)?;
        self.insert(&member.word.name, Entry::Member(place))
    }

    fn add_definition(&mut self, definition: &'t Definition) -> Result<(), AllocError>
        ensures { OnOk result (names_seen self.new ≡ with_definition (names_seen self.old) (definition_seen definition.now)) }
    {
        match definition {
            Definition::Parameter { word, value } => {
                self.insert(&word.name, Entry::Parameter(value))
            }
            Definition::Function {
                word,
                arguments,
                body,
            } => self.insert(&word.name, Entry::Function(arguments, body)),
            Definition::Enumeration { word, members } => {
                self.insert(&word.name, Entry::Enumeration)?;
                self.add_members(members)
            }
        }
    }

    fn add_members(&mut self, members: &'t [Member]) -> Result<(), AllocError>
        ensures { OnOk result (names_seen self.new ≡ with_members (names_seen self.old) (map member_seen members.now)) }
    {
        for member in members {
            self.add_member(member)?;
        }
        Ok(())
    }

    /// What the definitions of a text declare. It takes time in proportion to their number.
    pub fn add_definitions(&mut self, definitions: &'t [Definition]) -> Result<(), AllocError>
        ensures { OnOk result (names_seen self.new ≡ with_definitions (names_seen self.old) (map definition_seen definitions.now)) }
    {
        for definition in definitions {
            self.add_definition(definition)?;
        }
        Ok(())
    }

    /// What a name means where it isn't bound. It takes time for the bytes of the name.
    pub(crate) fn entry(&self, name: &Name) -> Option<Entry<'t>>
        ensures { entry_seen result ≡ (names_seen self.now).means name.now }
    {
        self.entries.get(name).copied()
    }

    /// Whether the name is declared, as whatever it may be.
    pub fn is_declared(&self, name: &Name) -> bool
        ensures { result ≡ is_declared ((names_seen self.now).means name.now) }
    {
        self.entry(name).is_some()
    }

    /// Whether the name is that of an enumeration.
    pub fn is_enumeration(&self, name: &Name) -> bool
        ensures { result ≡ is_enumeration ((names_seen self.now).means name.now) }
    {
        matches!(self.entry(name), Some(Entry::Enumeration))
    }

    /// A bus by its place; past the end it has no bits.
    pub(crate) fn bus(&self, place: u32) -> BusRange
        ensures { range_seen result ≡ bus_at (names_seen self.now) place }
    {
        match self.buses.get(place as usize) {
            Some(bus) => *bus,
            None => BusRange { first: 0, width: 0 },
        }
    }

    /// The values of a member by its place.
    pub(crate) fn values(&self, place: u32) -> &[Pattern]
        ensures { map pattern_seen result.now ≡ patterns_at (names_seen self.now) place }
    {
        match self.members.get(place as usize) {
            Some(member) => &member.values,
            None => &[],
        }
    }
}

/// The place after so many. Where it has over 32 bits there would be no memory for it.
fn next_place(len: usize) -> Result<u32, AllocError>
    ensures { IfOk result (λ place. place ≡ len) }
{
    u32::try_from(len).map_err(|_| AllocError)
}
