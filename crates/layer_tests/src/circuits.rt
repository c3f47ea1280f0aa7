//! The circuits of small machines as texts.
ghost use Rattle.std.specs.Prelude.{◌≡◌, ◌<◌, ◌≤◌, IfOk, length, vec_len};

use aiger_text::write_circuit;
use gate_build::circuit_of;
use letters_and_lassos::Kind;
use machine_model::{Machine, Row};
use names_and_numbers::Name;
use std::alloc::{AllocError, Global};
use std::test::Fail;

/// The machine of these rows (next, writes), which writes one signal.
fn machine(alloc: Global, kind: Kind, reads: u32, rows: &[(u32, u32)]) -> Result<Machine, Fail>
    requires reads { reads ≤ 8 }
    requires rows { length rows.now < 9 }
    ensures reads { IfOk result (λ m. m.reads ≡ reads) }
    ensures writes { IfOk result (λ m. m.writes ≡ 1) }
{
    let table: Vec<Row> = rows
        .iter()
        .map(|&(next, writes)| Row { next, writes })
        .collect(alloc)?;
    Ok(Machine::new(kind, reads, 1, table)?)
}

/// So many names: a, b and so on.
fn names(alloc: Global, count: u32) -> Result<Vec<Name>, AllocError>
    requires { count ≤ 8 }
    ensures { IfOk result (λ names. vec_len names ≡ count) }
{
    let mut names = Vec::new(alloc);
    for letter in 0..count {
        names.push(Name::new(alloc, &[b'a' + letter as u8])?)?;
    }
    Ok(names)
}

/// The text of the circuit of the machine of these rows, whose output is `g`.
fn text(alloc: Global, kind: Kind, reads: u32, rows: &[(u32, u32)]) -> Result<Vec<u8>, Fail> {
    if reads > 8 || rows.len() > 8 {
        return Err(Fail::from("too large"));
    }
    let machine = machine(alloc, kind, reads, rows)?;
    if machine.size() > 8 {
        return Err(Fail::from("too large"));
    }
    let writes = [Name::new(alloc, b"g")?];
    let circuit = circuit_of(alloc, &machine, &names(alloc, reads)?, &writes)?;
    let mut text = Vec::new(alloc);
    write_circuit(&circuit, &mut text)?;
    Ok(text)
}

#[test]
fn small_machines_are_circuits(rt: HostRuntime) -> Result<(), Fail> {
    for (kind, reads, rows, want) in [
        // Whether both signals are set is one gate.
        (
            Kind::Mealy,
            2,
            [(0, 0), (0, 0), (0, 0), (0, 1)].as_slice(),
            b"aag 3 2 0 1 1\n2\n4\n6\n6 4 2\ni0 a\ni1 b\no0 g\n".as_slice(),
        ),
        // What was read last is one latch.
        (
            Kind::Moore,
            1,
            &[(0, 0), (1, 0), (0, 1), (1, 1)],
            b"aag 2 1 1 1 0\n2\n4 2\n4\ni0 a\no0 g\n",
        ),
        // The state turns with each `a`, and the state after it is written: the gates are made once.
        (
            Kind::Mealy,
            1,
            &[(0, 0), (1, 1), (1, 1), (0, 0)],
            b"aag 5 1 1 1 3\n2\n4 11\n11\n6 4 3\n8 5 2\n10 9 7\ni0 a\no0 g\n",
        ),
        // `a` is counted from 0 to 2, and state 2 writes.
        (
            Kind::Moore,
            1,
            &[(0, 0), (1, 0), (1, 0), (2, 0), (2, 1), (0, 1)],
            b"aag 13 1 2 1 10\n2\n4 17\n6 25\n26\n8 7 3\n10 7 2\n12 8 4\n14 10 5\n16 15 13\n18 6 3\n20 10 4\n22 18 5\n24 23 21\n26 6 5\ni0 a\no0 g\n",
        ),
        // The machine goes round five states and writes in the last one.
        (
            Kind::Moore,
            0,
            &[(1, 0), (2, 0), (3, 0), (4, 0), (0, 1)],
            b"aag 12 0 3 1 9\n2 8\n4 19\n6 20\n24\n8 7 3\n10 7 5\n12 7 4\n14 10 2\n16 12 3\n18 17 15\n20 12 2\n22 6 5\n24 22 3\no0 g\n",
        ),
    ] {
        assert_eq!(rt; text(rt.alloc(), kind, reads, rows)?.as_slice(), want);
    }
    Ok(())
}
