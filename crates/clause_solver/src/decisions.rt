ghost use Rattle.std.specs.Prelude.{◌≡◌, ◌<◌, ◌≤◌, ◌^◌, IfSome, IfNone};
ghost use Rattle.std.specs.Bool.{OnTrue};
ghost use Rattle.unit_propagate.specs.Trail.{IsFree};
ghost use Rattle.clause_solver.specs.Free.{IsTotal};

use crate::order::Order;
use propositional_logic::Lit;
use unit_propagate::Trail;

/// The literal to be assumed next, of a variable without a value; none where each has one.
pub(crate) fn decision(order: &mut Order, trail: &Trail, vars: u32) -> Option<Lit>
    requires { vars ≤ 2 ^ 30 }
    ensures some { IfSome result (λ l. (l.var ≤ vars) × IsFree trail.now.marks l.var) }
    ensures positive { IfSome result (λ l. 0 < l.var) }
    ensures none { IfNone result (IsTotal vars trail.now.marks) }
{
    if let Some(var) = most_active(order, trail, vars) {
        return Some(Lit::new(var, order.phase(var)));
    }

    // The order holds each variable that has no value, so this finds one only if it doesn't.
    let var = first_free(trail, vars)?;
    Some(Lit::new(var, order.phase(var)))
}

/// The first variable of the order that has no value.
fn most_active(order: &mut Order, trail: &Trail, vars: u32) -> Option<u32>
    ensures { IfSome result (λ v. (0 < v) × (v ≤ vars) × IsFree trail.now.marks v) }
{
    while let Some(var) = order.pop() {
        if is_free(trail, vars, var) {
            return Some(var);
        }
    }
    None
}

fn is_free(trail: &Trail, vars: u32, var: u32) -> bool
    ensures { OnTrue result ((0 < var) × (var ≤ vars) × IsFree trail.now.marks var) }
{
    if var == 0 || var > vars {
        return false;
    }
    trail.value(var).is_none()
}

/// The least variable without a value.
fn first_free(trail: &Trail, vars: u32) -> Option<u32>
    ensures some { IfSome result (λ v. (0 < v) × (v ≤ vars) × IsFree trail.now.marks v) }
    ensures none { IfNone result (IsTotal vars trail.now.marks) }
{
    for place in 0..vars {
        if trail.value(place + 1).is_none() {
            return Some(place + 1);
        }
    }
    None
}
