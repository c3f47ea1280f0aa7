//! What a run writes.
ghost use Rattle.std.specs.Prelude.{OnOk, OnErr, IsErrOf};
ghost use Rattle.input_output.specs.Faults.{Rose};
ghost use Rattle.input_output.specs.Bytes.{Gains, GainsFront};
ghost use Rattle.boundsyn_top.specs.Output.{IsWholeOf, IsWritable, bytes_of};

use crate::lines::put_lines;
use flat_lines::put_flat;
use input_output::{Sink, SinkFault};
use program_replies::{Reply, Status};
use solved_flat::{TakenText, put_taken};
use std::alloc::{AllocError, Global};
use tlsf_expand::Spec;

/// What a run writes, and with which status it then ends.
#[derive(Drop)]
pub enum Output {
    /// Bytes of whole lines, with a status.
    Whole(Reply),
    /// A flat text, whose formulas can be longer than memory once they are written out.
    Flat(Spec),
    /// The same of a text as `solve` takes it, with the list of its formulas behind it where that is asked for.
    Solved { text: TakenText, nodes: bool },
}

impl Output {
    ghost use Rattle.std.specs.Prelude.{◌≡◌};
    ghost use Rattle.program_replies.specs.Statuses.{status_number};
    ghost use Rattle.boundsyn_top.specs.Output.{status_of};

    pub fn status(&self) -> Status
        ensures { status_number result ≡ status_of self.now }
    {
        match self {
            Output::Whole(reply) => reply.status,
            Output::Flat(_) | Output::Solved { .. } => Status::Done,
        }
    }
}

/// The output of a reply.
pub(crate) fn whole_output(reply: Result<Reply, AllocError>) -> Result<Output, AllocError>
    ensures { IsWholeOf reply result }
{
    match reply {
        Ok(reply) => Ok(Output::Whole(reply)),
        Err(error) => Err(error),
    }
}

/// Writes it, each line with its end by one call.
pub(crate) fn put_output<K: Sink>(
    alloc: Global,
    output: &Output,
    out: &mut K,
) -> Result<(), SinkFault>
    requires { IsWritable output.now }
    ensures ok { OnOk result (Gains (K.written out.old) (K.written out.new) (bytes_of output.now)) }
    ensures front { OnErr result (GainsFront (K.written out.old) (K.written out.new) (bytes_of output.now)) }
    ensures failed { IsErrOf result SinkFault.Failed → Rose (K.faults out.old) (K.faults out.new) }
{
    match output {
        Output::Whole(reply) => put_lines(out, &reply.bytes),
        Output::Flat(spec) => put_flat(alloc, spec, out),
        Output::Solved { text, nodes } => put_taken(alloc, text, *nodes, out),
    }
}
