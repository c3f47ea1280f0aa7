//! What a gate says of its waits.
use input_output::{Gate, HoldGate, Moment};

#[test]
fn a_gate_is_met_by_two_waits_that_end(rt: HostRuntime) {
    let gate = HoldGate::new();
    gate.pass(3, 2, Moment::BeforeAppend);
    gate.pass(1, 2, Moment::AfterAppend);
    gate.pass(2, 2, Moment::AfterAppend);
    gate.pass(2, 2, Moment::AfterRead);
    assert_eq!(rt; (gate.met(), gate.looks()), (false, 0));
    gate.pass(1, 2, Moment::BeforeAppend);
    assert_eq!(rt; (gate.met(), gate.looks()), (false, 1));
    gate.pass(2, 2, Moment::BeforeAppend);
    assert_eq!(rt; (gate.met(), gate.looks()), (true, 2));
}
