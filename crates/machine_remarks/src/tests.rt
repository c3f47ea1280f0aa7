//! Small machines by hand.

use crate::remarks::remarks_of;
use crate::sections::{EmptySections, empty_sections};
use aiger_text::read_circuit;
use outcome_news::{Owed, Remarks};
use std::alloc::Global;
use std::test::Fail;
use time_limits::NoDeadline;

/// Without a grant no request ends as this text assumes.
const ASSUMING: &[u8] = b"
INFO { TITLE: \"t\" DESCRIPTION: \"d\" SEMANTICS: Mealy TARGET: Mealy }
MAIN {
  INPUTS { request; offer; }
  OUTPUTS { grant; echo; }
  PRESET { echo <-> request; }
  ASSUME { G F request; G (request -> request U grant); }
  GUARANTEE { G (request -> F grant); }
}";

/// No grant, and the request as echo.
const IDLE: &[u8] = b"aag 2 2 0 2 0\n2\n4\n0\n2\n";

/// A grant at each second step, and the request as echo.
const BUSY: &[u8] = b"aag 3 2 1 2 0\n2\n4\n6 7\n6\n2\n";

fn remarks(alloc: Global, circuit: &[u8]) -> Result<Remarks, Fail> {
    match read_circuit(alloc, circuit) {
        Ok(file) => Ok(remarks_of(alloc, ASSUMING, None, &file.circuit, &NoDeadline)?),
        Err(_) => Err(Fail::from("the circuit has a fault")),
    }
}

#[test]
fn who_never_grants_owes_nothing(rt: HostRuntime) -> Result<(), Fail> {
    let idle = Remarks {
        owed: Owed::OnlyInitially {
            preset: true,
            assert: false,
        },
        always_true: 0,
        always_false: 1,
        unread: 2,
    };
    let busy = Remarks {
        unread: 2,
        ..Remarks::default()
    };
    assert_eq!(rt; remarks(rt.alloc(), IDLE)?, idle);
    assert_eq!(rt; remarks(rt.alloc(), BUSY)?, busy);
    Ok(())
}

#[test]
fn sections_that_clash_are_empty(rt: HostRuntime) -> Result<(), Fail> {
    let text = b"
INFO { TITLE: \"t\" DESCRIPTION: \"d\" SEMANTICS: Mealy TARGET: Moore }
MAIN {
  INPUTS { request; }
  OUTPUTS { grant; }
  REQUIRE { request -> X !request; }
  ASSUME { F G request; }
  GUARANTEE { G (request -> F grant); }
}";
    let wanted = EmptySections {
        assumptions: true,
        guarantees: false,
    };
    assert_eq!(rt; empty_sections(rt.alloc(), text)?, wanted);
    Ok(())
}
