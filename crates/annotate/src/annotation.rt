//! The annotation of one circuit for one text.

ghost use Rattle.tlsf_expand.specs.FlatText.{spec_seen};
ghost use Rattle.text_ground.specs.Ground.{given_by};
ghost use Rattle.verify_answer.specs.Reply.{AreReady};

use crate::components::{components, numbers};
use crate::graph::{Graph, MOST_PAIRS, reached};
use crate::lasso::{bad_run, push_run};
use aiger_text::{Circuit, CircuitFile, read_circuit};
use machine_model::Automaton;
use names_and_numbers::push_number;
use program_replies::{Reply, Status, refused_at_line};
use spec_problems::TextProblems;
use std::alloc::{AllocError, Global};
use text_ground::Problems;
use verify_answer::{listed_answer, problems_for_verify};

/// The most inputs of a circuit whose pairs are looked for.
const MOST_INPUTS: usize = 8;

/// What comes of a text and a circuit.
#[derive(Drop)]
pub enum Outcome {
    /// The circuit's file with an annotation that `verify` accepts.
    Annotated(Vec<u8>),
    /// Lines that say why there is none.
    Told(Vec<u8>),
    /// What `verify` replies, where that refuses the text or the circuit.
    Refused(Reply),
}

/// Annotates a circuit for a text, or says why it can't.
pub(crate) fn annotate(alloc: Global, text: &[u8], circuit: &[u8]) -> Result<Outcome, AllocError> {
    match problems_for_verify(alloc, text, None)? {
        Problems::Of(problems) => annotate_for(alloc, &problems, circuit),
        Problems::Refused(reply) => Ok(Outcome::Refused(reply)),
    }
}

fn annotate_for(alloc: Global, text: &TextProblems, circuit: &[u8]) -> Result<Outcome, AllocError>
    requires { AreReady (given_by (spec_seen text.now.spec) text.now.problems) }
{
    let Ok(file) = read_circuit(alloc, circuit) else {
        return Ok(Outcome::Refused(listed_answer(alloc, text, circuit)?));
    };
    // Without pairs only the head of the annotation is refused, where the rest of the circuit fits the text.
    let bare = with_comment(alloc, &file, circuit, b"annotation 0\nend\n")?;
    let reply = listed_answer(alloc, text, &bare)?;
    let expected = refused_at_line(alloc, file.comment_line.saturating_add(1))?;
    if reply.bytes.as_slice() != expected.bytes.as_slice()
        || file.circuit.inputs.len() > MOST_INPUTS
    {
        return Ok(Outcome::Refused(reply));
    }
    let automaton: &Automaton = &text.problems.system.automaton;
    let Some(graph) = reached(alloc, &file.circuit, automaton)? else {
        return told_limit(alloc);
    };
    annotate_graph(alloc, text, &file, circuit, &graph)
}

/// Annotates the circuit with the pairs that it reaches.
fn annotate_graph(
    alloc: Global,
    text: &TextProblems,
    file: &CircuitFile,
    circuit: &[u8],
    graph: &Graph,
) -> Result<Outcome, AllocError>
    requires { AreReady (given_by (spec_seen text.now.spec) text.now.problems) }
{
    let rejects = rejecting(alloc, &text.problems.system.automaton, graph)?;
    let component = components(alloc, graph.pairs.len(), &graph.ways)?;
    if let Some(run) = bad_run(alloc, graph, &component, &rejects)? {
        let mut bytes = Vec::from_slice(alloc, b"the text is false on this run\n")?;
        push_run(&mut bytes, &run, &text.spec.inputs, &text.spec.outputs)?;
        return Ok(Outcome::Told(bytes));
    }
    let numbers = numbers(alloc, &component, &graph.ways, &rejects)?;
    let annotation = annotation_text(alloc, graph, &numbers)?;
    let whole = with_comment(alloc, file, circuit, &annotation)?;
    let reply = listed_answer(alloc, text, &whole)?;
    match reply.status {
        Status::Done => Ok(Outcome::Annotated(whole)),
        _ => told_refusal(alloc, text, &file.circuit, reply),
    }
}

/// For each pair whether its state is rejecting.
fn rejecting(alloc: Global, automaton: &Automaton, graph: &Graph) -> Result<Vec<bool>, AllocError> {
    let mut rejects = Vec::new(alloc);
    for pair in graph.pairs.as_slice() {
        rejects.push(pair.state < automaton.states() && automaton.is_rejecting(pair.state))?;
    }
    Ok(rejects)
}

/// The circuit's file with an annotation at the begin of its comment.
fn with_comment(
    alloc: Global,
    file: &CircuitFile,
    circuit: &[u8],
    annotation: &[u8],
) -> Result<Vec<u8>, AllocError> {
    let at = file.comment_at.unwrap_or(circuit.len()).min(circuit.len());
    let mut bytes = Vec::from_slice(alloc, &circuit[..at])?;
    if file.comment_at.is_none() {
        bytes.extend_from_slice(b"c\n")?;
    }
    bytes.extend_from_slice(annotation)?;
    bytes.extend_from_slice(&circuit[at..])?;
    Ok(bytes)
}

/// The lines of an annotation with these numbers.
fn annotation_text(alloc: Global, graph: &Graph, numbers: &[usize]) -> Result<Vec<u8>, AllocError> {
    let mut bytes = Vec::from_slice(alloc, b"annotation ")?;
    push_number(&mut bytes, graph.pairs.len() as u64)?;
    bytes.push(b'\n')?;
    for (place, pair) in graph.pairs.as_slice().iter().enumerate() {
        push_code(&mut bytes, graph, pair.code)?;
        bytes.push(b' ')?;
        push_number(&mut bytes, u64::from(pair.state))?;
        bytes.push(b' ')?;
        push_number(&mut bytes, numbers.get(place).copied().unwrap_or(0) as u64)?;
        bytes.push(b'\n')?;
    }
    bytes.extend_from_slice(b"end\n")?;
    Ok(bytes)
}

/// A digit for each latch, or `-` where there is none.
fn push_code(bytes: &mut Vec<u8>, graph: &Graph, code: usize) -> Result<(), AllocError> {
    let before = bytes.len();
    if let Some(code) = graph.codes.get_index(code) {
        for value in code {
            bytes.push(if *value { b'1' } else { b'0' })?;
        }
    }
    if bytes.len() == before {
        bytes.push(b'-')?;
    }
    Ok(())
}

fn told_limit(alloc: Global) -> Result<Outcome, AllocError> {
    let mut bytes = Vec::from_slice(alloc, b"the circuit reaches more than ")?;
    push_number(&mut bytes, MOST_PAIRS as u64)?;
    bytes.extend_from_slice(b" pairs of latch values and states\n")?;
    Ok(Outcome::Told(bytes))
}

/// The reply of a refusal, and the output whose line it names.
fn told_refusal(
    alloc: Global,
    text: &TextProblems,
    circuit: &Circuit,
    mut reply: Reply,
) -> Result<Outcome, AllocError> {
    let mut line = (circuit.inputs.len() as u64)
        .saturating_add(circuit.latches.len() as u64)
        .saturating_add(2);
    for name in &text.spec.outputs {
        let of_output = refused_at_line(alloc, line)?;
        if reply.bytes.as_slice() == of_output.bytes.as_slice() {
            reply
                .bytes
                .extend_from_slice(b"the circuit isn't Moore: an input leads to ")?;
            reply.bytes.extend_from_slice(name.bytes())?;
            reply.bytes.push(b'\n')?;
            return Ok(Outcome::Refused(reply));
        }
        line = line.saturating_add(1);
    }
    Ok(Outcome::Refused(reply))
}
