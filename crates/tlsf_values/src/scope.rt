//! Bound names, and what a name means where they hide others.

ghost use Rattle.std.specs.Prelude.{◌≡◌, ◌∷◌, [], IfOk, OnOk, drop, find};
ghost use Rattle.std.specs.Option.{option_map};
ghost use Rattle.tlsf_values.specs.Names.{look_up, same_name};
ghost use Rattle.tlsf_values.specs.NamesSeen.{names_seen};
ghost use Rattle.tlsf_values.specs.ScopeSeen.{bindings_seen, meaning_seen};
ghost use Rattle.tlsf_values.specs.Values.{is_never_a_bus};
ghost use Rattle.tlsf_values.specs.declared.value.Value.TheVariants.{Number};

use crate::names::{Entry, Names};
use crate::value::Value;
use names_and_numbers::Name;
use std::alloc::{AllocError, Global};
use std::marker::Model;
use tlsf_syntax::{Alternative, Body, Expr, Word};

/// A bound name with its value.
#[derive(Drop)]
pub(crate) struct Binding<'t> {
    name: &'t Name,
    value: Value,
}

/// The bound names with their values. A contract sees them as a list, the latest first.
#[derive(Drop)]
pub(crate) struct Scope<'t> {
    bindings: Vec<Binding<'t>>,
}

impl<'t> Model for Scope<'t> {
    ghost use Rattle.std.specs.Prelude.{List};
    ghost use Rattle.tlsf_values.specs.Names.{Binding as PlainBinding};
    ghost use Rattle.tlsf_values.specs.ScopeSeen.{bindings_seen};

    ghost Value = { List PlainBinding };

    ghost view = { λ s. bindings_seen s.bindings.items };
}

impl<'t> Scope<'t> {
    /// No names. It takes no memory.
    pub(crate) fn new(alloc: Global) -> Scope<'t>
        ensures { result ≡ [] }
    {
        Scope {
            bindings: Vec::new(alloc),
        }
    }

    /// Binds the name, which hides what it meant before.
    pub(crate) fn push(&mut self, name: &'t Name, value: Value) -> Result<(), AllocError>
        ensures { OnOk result (self.new ≡ record { name = name.now; value = value } ∷ self.old) }
    {
        self.bindings.push(Binding { name, value })?;
        Ok(())
    }

    /// Binds the name to a member of a range.
    pub(crate) fn push_number(&mut self, name: &'t Name, member: i64) -> Result<(), AllocError>
        ensures { OnOk result (self.new ≡ record { name = name.now; value = Number member } ∷ self.old) }
    {
        self.push(name, Value::Number(member))
    }

    /// Takes the latest binding back, so that its name means what it meant before.
    pub(crate) fn pop(&mut self)
        ensures { self.new ≡ drop 1 self.old }
    {
        self.bindings.pop();
    }

    /// The value of the latest binding of the name.
    pub(crate) fn value(&self, name: &Name) -> Option<&Value>
        ensures { option_map (λ v. v.now) result ≡ option_map (λ b. b.value) (find (λ b. same_name b.name name.now) self.now) }
    {
        latest(&self.bindings, name)
    }
}

/// The value of the last of these bindings that is one of the name.
fn latest<'b>(bindings: &'b [Binding<'_>], name: &Name) -> Option<&'b Value>
    ensures { option_map (λ v. v.now) result ≡ option_map (λ b. b.value) (find (λ b. same_name b.name name.now) (bindings_seen bindings.now)) }
{
    for place in (0..bindings.len()).rev() {
        let binding = &bindings[place];
        if binding.name == name {
            return Some(&binding.value);
        }
    }
    None
}

/// The body of a definition.
#[derive(Clone, Copy)]
pub(crate) enum BodyOf<'t> {
    Plain(&'t Expr),
    Guarded(&'t [Alternative]),
}

/// What a name means.
#[derive(Drop)]
pub(crate) enum Meaning<'t> {
    Known(Value),
    Signal(u32),
    Definition(&'t [Word], BodyOf<'t>),
    Enumeration,
    Undeclared,
}

impl Meaning<'_> {
    /// Whether it is no bus, whatever its value may be.
    pub(crate) fn is_never_a_bus(&self) -> bool
        ensures { result ≡ is_never_a_bus (meaning_seen self.now) }
    {
        match self {
            Meaning::Signal(_) | Meaning::Enumeration => true,
            Meaning::Definition(words, _) => !words.is_empty(),
            Meaning::Known(_) | Meaning::Undeclared => false,
        }
    }
}

impl<'t> Names<'t> {
    /// What a name means; the last one that is bound hides all others.
    pub(crate) fn look_up(&self, bound: &Scope<'t>, name: &Name) -> Result<Meaning<'t>, AllocError>
        ensures { IfOk result (λ m. meaning_seen m ≡ look_up (names_seen self.now) bound.now name.now) }
    {
        if let Some(value) = bound.value(name) {
            return Ok(Meaning::Known(value.clone()?));
        }
        Ok(self.declared(name))
    }

    /// What a name means where it isn't bound.
    fn declared(&self, name: &Name) -> Meaning<'t>
        ensures { meaning_seen result ≡ (names_seen self.now).means name.now }
    {
        match self.entry(name) {
            None => Meaning::Undeclared,
            Some(Entry::Signal(signal)) => Meaning::Signal(signal),
            Some(Entry::Bus(bus)) => Meaning::Known(Value::Bus(bus)),
            Some(Entry::Member(member)) => Meaning::Known(Value::EnumValue(member)),
            Some(Entry::Enumeration) => Meaning::Enumeration,
            Some(Entry::Parameter(value)) => Meaning::Definition(&[], BodyOf::Plain(value)),
            Some(Entry::Function(words, Body::Plain(value))) => Meaning::Definition(
                words,
                BodyOf::Plain(value),
            ),
            Some(Entry::Function(words, Body::Guarded(alternatives))) => Meaning::Definition(
                words,
                BodyOf::Guarded(alternatives),
            ),
        }
    }
}
