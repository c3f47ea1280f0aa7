//! What is written for the outcome of a search.
ghost use Rattle.std.specs.Prelude.{◌≡◌, IfOk, Option, length};
ghost use Rattle.gate_build.specs.Limits.{IsSmallMachine};
ghost use Rattle.tlsf_expand.specs.FlatText.{spec_seen};
ghost use Rattle.synth_answer.specs.Reply.{FitsNames, FoundFits, IsCircuitFor, IsCircuitOfFound, IsCircuitWith, IsReplyTo, found_at, least_status, verdict_status};

use crate::documents::{document_text, parts_of};
use crate::telling::{ends_of, searched};
use aiger_text::{Circuit, runs_on_every_input};
use document_check::first_open;
use document_text::{Place, Verdict};
use gate_build::circuit_of;
use letters_and_lassos::Side;
use machine_model::Machine;
use names_and_numbers::Name;
use outcome_news::Told;
use program_replies::{Reply, Status};
use std::alloc::{AllocError, Global};
use synth_engine::{Found, Outcome, Settings};
use tlsf_expand::Spec;

/// The reply to an outcome, what its document says, and what is told of it.
#[derive(Drop)]
pub struct Written {
    pub reply: Reply,
    pub verdict: Verdict,
    pub told: Told,
}

/// What is written for an outcome, by the names and the kind of the text.
pub fn reply_to(
    alloc: Global,
    spec: &Spec,
    settings: Settings,
    outcome: Outcome,
) -> Result<Written, AllocError>
    requires { FoundFits (spec_seen spec.now).expanded outcome.found }
    ensures { IfOk result (λ r. IsReplyTo (spec_seen spec.now).expanded settings outcome r.reply.bytes.items r.reply.status r.verdict) }
{
    let Outcome { found, logs } = outcome;
    let circuit = found_circuit(alloc, spec, &found)?;
    let ends = ends_of(&logs);
    let logs = parts_of(alloc, logs)?;
    let verdict = Verdict::of(found_at(&found), first_open(&logs));
    let told = Told::Searched(searched(spec.kind, settings, verdict, ends));
    let bytes = document_text(alloc, spec.kind, settings, verdict, circuit, logs)?;
    let status = verdict_status(verdict);
    Ok(Written {
        reply: Reply { bytes, status },
        verdict,
        told,
    })
}

/// The side and the number of states of the machine that was found.
fn found_at(found: &Option<Found>) -> Option<Place>
    ensures { result ≡ found_at found.now }
{
    match found {
        Some(found) => Some(Place {
            side: found.side,
            size: found.machine.size(),
        }),
        None => None,
    }
}

/// The status of a document with this verdict.
fn verdict_status(verdict: Verdict) -> Status
    ensures { result ≡ verdict_status verdict }
{
    match verdict {
        Verdict::Machine {
            side,
            least: true,
            ..
        } => least_status(side),
        Verdict::Machine { .. } => Status::Bounded,
        Verdict::Unknown(_) => Status::Unknown,
    }
}

fn least_status(side: Side) -> Status
    ensures { result ≡ least_status side }
{
    match side {
        Side::System => Status::Realizable,
        Side::Environment => Status::Unrealizable,
    }
}

/// The circuit of the machine that was found.
fn found_circuit(
    alloc: Global,
    spec: &Spec,
    found: &Option<Found>,
) -> Result<Option<Circuit>, AllocError>
    requires { FoundFits (spec_seen spec.now).expanded found.now }
    ensures { IfOk result (IsCircuitOfFound (spec_seen spec.now).expanded found.now) }
{
    let Some(found) = found else {
        return Ok(None);
    };
    let circuit = side_circuit(alloc, spec, found.side, &found.machine)?;
    Ok(Some(circuit))
}

/// The circuit of a side's machine, with the names of the text.
fn side_circuit(
    alloc: Global,
    spec: &Spec,
    side: Side,
    machine: &Machine,
) -> Result<Circuit, AllocError>
    requires { FitsNames (spec_seen spec.now).expanded side machine.now }
    ensures { IfOk result (IsCircuitFor (spec_seen spec.now).expanded side machine.now) }
{
    match side {
        Side::System => named_circuit(alloc, machine, &spec.inputs, &spec.outputs),
        Side::Environment => named_circuit(alloc, machine, &spec.outputs, &spec.inputs),
    }
}

/// The circuit of a machine, with names of what it reads and of what it writes.
fn named_circuit(
    alloc: Global,
    machine: &Machine,
    read_names: &[Name],
    write_names: &[Name],
) -> Result<Circuit, AllocError>
    requires small { IsSmallMachine machine.now }
    requires reads { machine.now.reads ≡ length read_names.now }
    requires writes { machine.now.writes ≡ length write_names.now }
    ensures { IfOk result (IsCircuitWith machine.now read_names.now write_names.now) }
{
    let circuit = circuit_of(alloc, machine, read_names, write_names)?;
    runs_on_every_input(&circuit);
    Ok(circuit)
}
