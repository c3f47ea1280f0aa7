//! The values of enumerations, and their widths.

ghost use Rattle.std.specs.Prelude.{◌≡◌, map};
ghost use Rattle.std.specs.Option.{option_map};
ghost use Rattle.tlsf_expand.specs.Signals.{other_width, uneven_in, uneven_value, values_in, values_named, width_of};
ghost use Rattle.tlsf_values.specs.Patterns.{all_values};
ghost use Rattle.tlsf_syntax.specs.Seen.{definition_seen, member_seen, pattern_seen};

use names_and_numbers::Name;
use tlsf_syntax::{Definition, Member, Pattern};

/// The width of an enumeration with these members is that of its first value.
pub(crate) fn width(members: &[Member]) -> usize
    ensures { result ≡ width_of (all_values (map member_seen members.now)) }
{
    for member in members {
        if let [value, ..] = member.values.as_slice() {
            return value.bits.len();
        }
    }
    0
}

/// The first byte of the first value that isn't so wide.
fn other_width_among(width: usize, values: &[Pattern]) -> Option<u64>
    ensures { result ≡ other_width width (map pattern_seen values.now) }
{
    for value in values {
        if value.bits.len() != width {
            return Some(value.span.start);
        }
    }
    None
}

fn other_width(width: usize, members: &[Member]) -> Option<u64>
    ensures { result ≡ other_width width (all_values (map member_seen members.now)) }
{
    for member in members {
        if let Some(place) = other_width_among(width, &member.values) {
            return Some(place);
        }
    }
    None
}

fn uneven_in(definition: &Definition) -> Option<u64>
    ensures { result ≡ uneven_in (definition_seen definition.now) }
{
    match definition {
        Definition::Enumeration { members, .. } => other_width(width(members), members),
        Definition::Parameter { .. } => None,
        Definition::Function { .. } => None,
    }
}

/// The first byte of the first value whose width isn't that of its enumeration.
pub(crate) fn uneven_value(definitions: &[Definition]) -> Option<u64>
    ensures { result ≡ uneven_value (map definition_seen definitions.now) }
{
    for definition in definitions {
        if let Some(place) = uneven_in(definition) {
            return Some(place);
        }
    }
    None
}

/// The members of an enumeration, if it has this name.
fn members_of<'t>(definition: &'t Definition, name: &Name) -> Option<&'t [Member]>
    ensures { option_map (λ ms. all_values (map member_seen ms.now)) result ≡ values_in name.now (definition_seen definition.now) }
{
    match definition {
        Definition::Enumeration { word, members } => if word.name == *name {
            Some(members)
        } else {
            None
        },
        Definition::Parameter { .. } => None,
        Definition::Function { .. } => None,
    }
}

/// The members of the enumeration of this name. It takes time in proportion to the number of definitions.
pub(crate) fn members_named<'t>(definitions: &'t [Definition], name: &Name) -> &'t [Member]
    ensures { all_values (map member_seen result.now) ≡ values_named name.now (map definition_seen definitions.now) }
{
    for definition in definitions {
        if let Some(members) = members_of(definition, name) {
            return members;
        }
    }
    &[]
}
