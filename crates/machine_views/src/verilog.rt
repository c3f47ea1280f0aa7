//! A machine as a module of Verilog-2005.

use crate::identifiers::{free_front, free_name, identifier};
use crate::ports::{Labels, Ports};
use crate::solved;
use crate::summary::put_verdict;
use crate::vcd::bits_of;
use crate::verilog_states::put_state;
use machine_table::{Machine, Part, ShowFault, Shown, SolvedDocument, Text};
use std::alloc::{AllocError, Global};

/// How the state register comes to the first state.
#[derive(Clone, Copy, PartialEq, Eq)]
pub enum Reset {
    /// By its initial value; there is no signal for it.
    Initial,
    /// At the edge of the clock, while the signal is high.
    Synchronous,
    /// As soon as the signal is high.
    Asynchronous,
}

/// A module of that name.
#[derive(Clone, Copy)]
pub struct ModuleView<'a> {
    pub name: &'a str,
    pub reset: Reset,
    /// The title of the text that the machine is for.
    pub title: Option<&'a str>,
}

/// The module's own names, which no port has.
#[derive(Drop)]
pub(crate) struct Names {
    clk: String,
    rst: String,
    state: String,
    pub(crate) next_state: String,
    /// What stands before a state's number.
    pub(crate) front: String,
}

impl Names {
    fn beside(alloc: Global, taken: &[&str]) -> Result<Names, AllocError> {
        Ok(Names {
            clk: free_name(alloc, "clk", taken)?,
            rst: free_name(alloc, "rst", taken)?,
            state: free_name(alloc, "state", taken)?,
            next_state: free_name(alloc, "next_state", taken)?,
            front: free_front(alloc, "S", taken)?,
        })
    }
}

/// Puts the machine as a module; refused are two signals with the same name.
///
/// The signals of a bus `r[0]`, `r[1]`, .. are one port where they are all there. Outputs are of the state and of what is read now.
pub(crate) fn put_verilog(
    alloc: Global,
    shown: &Shown,
    view: ModuleView<'_>,
    out: &mut Text,
) -> Result<(), ShowFault> {
    let machine = shown.machine(alloc)?;
    let labels = Labels::of_machine(alloc, &machine)?;
    let ports = labels.ports(alloc)?;
    let names = Names::beside(alloc, &ports.names(alloc)?)?;
    put_comment(shown, &machine, view, out);
    put_head(alloc, view, &ports, &names, out)?;
    put_register(machine.rows.len(), view.reset, &names, out);
    put_logic(alloc, &machine, &ports, &names, out)?;
    out.put("endmodule\n");
    Ok(())
}

/// What it is, in comments.
fn put_comment(shown: &Shown, machine: &Machine, view: ModuleView<'_>, out: &mut Text) {
    if let Some(title) = view.title {
        out.fill("// text: {}\n", &[Part::Word(title)]);
    }
    out.fill(
        "// kind: {}\n// states: {}\n// status: ",
        &[
            Part::Word(machine.kind.word()),
            Part::Number(machine.rows.len() as u64),
        ],
    );
    match shown {
        Shown::Document(document) => put_verdict(document.verdict, out),
        Shown::Solved(document) => put_solved(document, out),
        Shown::Circuit(_) => out.put("a circuit alone"),
    }
    out.put("\n");
}

/// The verdict of a document of version 6, and what it means that the text was converted.
fn put_solved(document: &SolvedDocument, out: &mut Text) {
    solved::put_verdict(document, out);
    if document.semantics.is_some() {
        out.put("\n// semantics of the text: ");
        solved::put_semantics(document, out);
    }
}

fn put_head(
    alloc: Global,
    view: ModuleView<'_>,
    ports: &Ports<'_>,
    names: &Names,
    out: &mut Text,
) -> Result<(), AllocError> {
    let module = identifier(alloc, view.name)?;
    out.fill(
        "module {} (\n    input wire {}",
        &[Part::Word(&module), Part::Word(&names.clk)],
    );
    if view.reset != Reset::Initial {
        out.fill(",\n    input wire {}", &[Part::Word(&names.rst)]);
    }
    for port in &ports.inputs {
        out.put(",\n");
        port.put_declared(alloc, "input wire", out)?;
    }
    for port in &ports.outputs {
        out.put(",\n");
        port.put_declared(alloc, "output reg", out)?;
    }
    out.put("\n);\n");
    Ok(())
}

/// The state register, and a name for each state.
fn put_register(states: usize, reset: Reset, names: &Names, out: &mut Text) {
    let width = Part::Number(u64::from(bits_of(states)));
    let last = Part::Number(u64::from(bits_of(states).saturating_sub(1)));
    let front = Part::Word(&names.front);
    for number in 0..states {
        let number = Part::Number(number as u64);
        out.fill(
            "    localparam [{}:0] {}{} = {}'d{};\n",
            &[last, front, number, width, number],
        );
    }
    let state = Part::Word(&names.state);
    let next_state = Part::Word(&names.next_state);
    out.fill(
        "\n    reg [{}:0] {};\n    reg [{}:0] {};\n\n",
        &[last, state, last, next_state],
    );
    let clk = Part::Word(&names.clk);
    let rst = Part::Word(&names.rst);
    match reset {
        Reset::Initial => out.fill(
            "    initial {} = {}0;\n\n    always @(posedge {})\n        {} <= {};\n\n",
            &[state, front, clk, state, next_state],
        ),
        Reset::Synchronous => out.fill(
            "    always @(posedge {})\n        if ({})\n            {} <= {}0;\n        else\n            {} <= {};\n\n",
            &[clk, rst, state, front, state, next_state],
        ),
        Reset::Asynchronous => out.fill(
            "    always @(posedge {} or posedge {})\n        if ({})\n            {} <= {}0;\n        else\n            {} <= {};\n\n",
            &[clk, rst, rst, state, front, state, next_state],
        ),
    }
}

/// The outputs and the next state, by the state and the inputs.
fn put_logic(
    alloc: Global,
    machine: &Machine,
    ports: &Ports<'_>,
    names: &Names,
    out: &mut Text,
) -> Result<(), AllocError> {
    let front = Part::Word(&names.front);
    let next_state = Part::Word(&names.next_state);
    out.put("    always @* begin\n");
    for output in &ports.written {
        out.fill("        {} = 1'b0;\n", &[Part::Word(output)]);
    }
    out.fill(
        "        {} = {}0;\n        case ({})\n",
        &[next_state, front, Part::Word(&names.state)],
    );
    for (number, row) in machine.rows.iter().enumerate() {
        put_state(alloc, number, row, ports, names, out)?;
    }
    out.fill(
        "            default: {} = {}0;\n        endcase\n    end\n",
        &[next_state, front],
    );
    Ok(())
}
