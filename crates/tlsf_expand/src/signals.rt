//! The signals that a text declares, with their numbers and flat names.

ghost use Rattle.std.specs.Prelude.{◌≡◌, ◌++◌, IfOk, OnOk, map};
ghost use Rattle.tlsf_expand.specs.Signals.{bit_name, bit_names, bits_in, declaration_value, declarations_value, declared, declares, even_first, extent_value, most_behind, none_yet, signals_value, type_in, uneven_value, width_in};
ghost use Rattle.tlsf_expand.specs.SignalsSeen.{declared_seen, extent_seen, signals_seen};
ghost use Rattle.tlsf_syntax.specs.Seen.{declaration_seen, shape_seen, text_seen};
ghost use Rattle.tlsf_values.specs.NamesSeen.{names_seen};
ghost use Rattle.tlsf_values.specs.Results.{IsCheckedAs, IsOutcomeAs};
ghost use Rattle.tlsf_syntax.specs.Seen.{word_seen};

use crate::enumerations::{members_named, uneven_value, width};
use names_and_numbers::{Name, push_number};
use spec_faults::{SpecCode, SpecFault, fault};
use std::alloc::{AllocError, Global};
use text_limits::Limits;
use tlsf_syntax::{Declaration, Member, Shape, SpecTree, Word};
use tlsf_values::{Names, Value, Work};

/// What is declared: a single signal, a bus of this width, or a bus for the values of an enumeration with these members.
#[derive(Clone, Copy)]
pub(crate) enum Extent<'t> {
    Alone,
    Wide(u64),
    OfType(&'t [Member]),
}

/// A bus for the values of an enumeration: its name's first byte in its declaration, its first signal, and the members.
#[derive(Clone, Copy)]
pub(crate) struct TypedSignal<'t> {
    pub(crate) place: u64,
    pub(crate) first: u32,
    pub(crate) members: &'t [Member],
}

/// The inputs, or the outputs, that are declared so far, with all names of the text.
#[derive(Drop)]
pub(crate) struct Declared<'t> {
    names: Names<'t>,
    flat: Vec<Name>,
    typed: Vec<TypedSignal<'t>>,
}

/// All signals of a text, with its names.
#[derive(Drop)]
pub(crate) struct Signals<'t> {
    pub(crate) names: Names<'t>,
    pub(crate) inputs: Vec<Name>,
    pub(crate) outputs: Vec<Name>,
    pub(crate) typed_inputs: Vec<TypedSignal<'t>>,
    pub(crate) typed_outputs: Vec<TypedSignal<'t>>,
}

impl Extent<'_> {
    fn bits(&self) -> u64
        ensures { result ≡ bits_in (extent_seen self.now) }
    {
        match self {
            Extent::Alone => 1,
            Extent::Wide(width) => *width,
            Extent::OfType(members) => width(members) as u64,
        }
    }
}

/// The width that this value is, as that of a bus.
fn extent_of<'t>(place: u64, value: &Value) -> Result<Extent<'t>, SpecFault>
    ensures { IsCheckedAs extent_seen result (width_in place value.now) }
{
    match value {
        Value::Number(number) => match u64::try_from(*number) {
            Ok(width) => Ok(Extent::Wide(width)),
            Err(_) => Err(fault(SpecCode::NumberRange, place)),
        },
        _ => Err(fault(SpecCode::WrongSort, place)),
    }
}

/// Whether a signal of this name is declared.
fn declares(name: &Name, declarations: &[Declaration]) -> bool
    ensures { result ≡ declares name.now (map declaration_seen declarations.now) }
{
    for declaration in declarations {
        if declaration.word.name == *name {
            return true;
        }
    }
    false
}

/// Where the name is an enumeration's, a bus for its values.
fn extent_of_type<'t>(
    tree: &'t SpecTree,
    names: &Names<'t>,
    word: &Word,
) -> Result<Extent<'t>, SpecFault>
    ensures { IsCheckedAs extent_seen result (type_in (text_seen tree.now) (word_seen word.now) ((names_seen names.now).means word.now.name)) }
{
    if !names.is_declared(&word.name) {
        if declares(&word.name, &tree.inputs) || declares(&word.name, &tree.outputs) {
            return Err(fault(SpecCode::WrongSort, word.span.start));
        }
        return Err(fault(SpecCode::UnknownName, word.span.start));
    }
    if !names.is_enumeration(&word.name) {
        return Err(fault(SpecCode::WrongSort, word.span.start));
    }
    Ok(Extent::OfType(members_named(&tree.definitions, &word.name)))
}

/// What a declaration declares. A width may name the definitions and the signals that are declared before it.
fn declared_extent<'t>(
    tree: &'t SpecTree,
    names: &mut Names<'t>,
    shape: &'t Shape,
    work: &mut Work,
) -> Result<Extent<'t>, SpecFault>
    ensures value { IsOutcomeAs extent_seen result work.new (extent_value (text_seen tree.now) (names_seen names.old) (shape_seen shape.now) work.old) }
    ensures names { names_seen names.new ≡ names_seen names.old }
{
    match shape {
        Shape::Single => Ok(Extent::Alone),
        Shape::Bus(width) => {
            let value = names.value_of(width, work)?;
            extent_of(width.span.start, &value)
        }
        Shape::Typed(word) => extent_of_type(tree, names, word),
    }
}

/// The flat name of a bit.
fn bit_name(alloc: Global, name: &Name, bit: u64) -> Result<Name, AllocError>
    ensures { IfOk result (λ n. n ≡ bit_name name.now bit) }
{
    let mut bytes = Vec::from_slice(alloc, name.bytes())?;
    bytes.push(b'[')?;
    push_number(&mut bytes, bit)?;
    bytes.push(b']')?;
    Name::new(alloc, &bytes)
}

/// Adds the flat names of so many bits.
fn add_bits(alloc: Global, flat: &mut Vec<Name>, name: &Name, width: u64) -> Result<(), AllocError>
    ensures { OnOk result (flat.new.items ≡ flat.old.items ++ bit_names name.now 0 width) }
{
    for bit in 0..width {
        flat.push(bit_name(alloc, name, bit)?)?;
    }
    Ok(())
}

/// The number of a signal. Where it has over 32 bits there would be no memory for all names.
fn signal_number(number: u128) -> Result<u32, AllocError>
    ensures { IfOk result (λ n. n ≡ number) }
{
    u32::try_from(number).map_err(|_| AllocError)
}

impl<'t> Declared<'t> {
    /// No inputs, or no outputs, yet.
    fn none_yet(alloc: Global, names: Names<'t>) -> Declared<'t>
        ensures { declared_seen result ≡ none_yet (names_seen names.entry) }
    {
        Declared {
            names,
            flat: Vec::new(alloc),
            typed: Vec::new(alloc),
        }
    }

    /// A bus, or a single signal, whose first signal has this number.
    fn declare(
        &mut self,
        alloc: Global,
        word: &'t Word,
        first: u32,
        extent: Extent<'t>,
    ) -> Result<(), AllocError>
        ensures { OnOk result (declared_seen self.new ≡ declared (word_seen word.now) first (extent_seen extent.entry) (declared_seen self.old)) }
    {
        match extent {
            Extent::Alone => {
                self.names.add_signal(&word.name, first)?;
                self.flat.push(word.name.clone()?)?;
            }
            Extent::Wide(width) => {
                self.names
                    .add_bus(&word.name, first, signal_number(u128::from(width))?)?;
                add_bits(alloc, &mut self.flat, &word.name, width)?;
            }
            Extent::OfType(members) => {
                let width = width(members);
                self.names
                    .add_bus(&word.name, first, signal_number(width as u128)?)?;
                add_bits(alloc, &mut self.flat, &word.name, width as u64)?;
                self.typed.push(TypedSignal {
                    place: word.span.start,
                    first,
                    members,
                })?;
            }
        }
        Ok(())
    }

    /// One more declaration of at most `most` signals in all, where the first of them has this number.
    fn declaration(
        &mut self,
        alloc: Global,
        tree: &'t SpecTree,
        most: usize,
        from: u32,
        declaration: &'t Declaration,
        work: &mut Work,
    ) -> Result<(), SpecFault>
        ensures { IsOutcomeAs (λ _. declared_seen self.new) result work.new (declaration_value most (text_seen tree.now) from (declared_seen self.old) (declaration_seen declaration.now) work.old) }
    {
        let extent = declared_extent(tree, &mut self.names, &declaration.shape, work)?;
        let before = self.flat.len();
        if before as u128 + u128::from(extent.bits()) > most as u128 {
            return Err(fault(SpecCode::TooManySignals, declaration.word.span.start));
        }
        let first = signal_number(u128::from(from) + before as u128)?;
        self.declare(alloc, &declaration.word, first, extent)?;
        Ok(())
    }

    /// The declarations in their order, of at most `most` signals, where the first signal of all has this number.
    fn declarations(
        &mut self,
        alloc: Global,
        tree: &'t SpecTree,
        most: usize,
        from: u32,
        declarations: &'t [Declaration],
        work: &mut Work,
    ) -> Result<(), SpecFault>
        ensures { IsOutcomeAs (λ _. declared_seen self.new) result work.new (declarations_value most (text_seen tree.now) from (declared_seen self.old) (map declaration_seen declarations.now) work.old) }
    {
        for declaration in declarations {
            self.declaration(alloc, tree, most, from, declaration, work)?;
        }
        Ok(())
    }
}

/// How many inputs there may be, or outputs, where so many signals are declared before them.
fn most_behind(limits: Limits, before: usize) -> usize
    ensures { result ≡ most_behind limits before }
{
    limits
        .signals
        .min(limits.all_signals.saturating_sub(before))
}

/// The signals of a text. The widths of the values of enumerations are tested first. There are at most as many inputs as the
/// work's limits say, as many outputs, and as many of both together.
pub(crate) fn declared_signals<'t>(
    alloc: Global,
    tree: &'t SpecTree,
    work: &mut Work,
) -> Result<Signals<'t>, SpecFault>
    ensures { IsOutcomeAs signals_seen result work.new (even_first (uneven_value (text_seen tree.now).definitions) (signals_value work.old.limits (text_seen tree.now) work.old)) }
{
    if let Some(place) = uneven_value(&tree.definitions) {
        return Err(fault(SpecCode::WrongSort, place));
    }
    let mut names = Names::new(alloc);
    names.add_definitions(&tree.definitions)?;
    let mut inputs = Declared::none_yet(alloc, names);
    let limits = work.limits;
    let most = most_behind(limits, 0);
    inputs.declarations(alloc, tree, most, 0, &tree.inputs, work)?;
    let from = signal_number(inputs.flat.len() as u128)?;
    let most = most_behind(limits, inputs.flat.len());
    let mut outputs = Declared::none_yet(alloc, inputs.names);
    outputs.declarations(alloc, tree, most, from, &tree.outputs, work)?;
    Ok(Signals {
        names: outputs.names,
        inputs: inputs.flat,
        outputs: outputs.flat,
        typed_inputs: inputs.typed,
        typed_outputs: outputs.typed,
    })
}
