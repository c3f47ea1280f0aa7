//! Which logs a document has, and in which order.
ghost use Rattle.std.specs.Prelude.{◌≡◌, ◌<◌, ◌^◌};
ghost use Rattle.document_text.specs.Order.{has_its_place, fits_max, fits_version, is_version, may_end, may_follow, may_tell_found, has_logs, order_of as order_wanted, first_place, tells_bounds};

use crate::documents::Verdict;
use letters_and_lassos::Side;

/// The logs that a verdict wants: of one side's sizes from 1 up to a number, or of any sizes of the system and then of the
/// environment, none above a number.
#[derive(Clone, Copy)]
pub enum Order {
    UpTo(Side, u32),
    AnyUpTo(u32),
}

/// A side and a size: of a log, or of a machine.
#[derive(Clone, Copy, Debug, PartialEq, Eq)]
pub struct Place {
    pub side: Side,
    pub size: u32,
}

/// Whether the verdict stands behind a circuit, or without one, as it wants.
pub(crate) fn has_its_place(circuit: bool, verdict: Verdict) -> bool
    ensures { result ≡ has_its_place circuit verdict }
{
    match verdict {
        Verdict::Machine { .. } => circuit,
        Verdict::Unknown(_) => !circuit,
    }
}

/// Whether there are documents of this version.
pub(crate) fn is_version(version: u32) -> bool
    ensures { result ≡ is_version version }
{
    (1 <= version && version <= 3) || version == 5
}

/// Whether documents of this version tell machines that needn't be the least, and have logs beside a counter-machine.
pub(crate) fn tells_bounds(version: u32) -> bool
    ensures { result ≡ tells_bounds version }
{
    version == 3 || version == 5
}

/// Whether documents of this version have such a verdict.
pub(crate) fn fits_version(version: u32, verdict: Verdict) -> bool
    ensures { result ≡ fits_version version verdict }
{
    match verdict {
        Verdict::Machine { least, .. } => least || tells_bounds(version),
        Verdict::Unknown(_) => true,
    }
}

/// Whether the number that the verdict names is a size.
pub(crate) fn fits_max(max: u32, verdict: Verdict) -> bool
    ensures { result ≡ fits_max max verdict }
{
    match verdict.named() {
        Some(named) => 1 <= named.size && named.size <= max,
        None => true,
    }
}

/// Whether such a document may tell of a machine that was found.
pub(crate) fn may_tell_found(version: u32, verdict: Verdict) -> bool
    ensures { result ≡ may_tell_found version verdict }
{
    match verdict {
        Verdict::Machine { .. } => false,
        Verdict::Unknown(first) => first.is_some() && version < 3,
    }
}

/// The logs that a document wants.
pub fn order_of(version: u32, verdict: Verdict, max: u32, found: u32) -> Order
    ensures { result ≡ order_wanted version verdict max found }
{
    match verdict {
        Verdict::Machine { side, states, .. } if has_logs(version, side) => {
            Order::UpTo(side, states.saturating_sub(1))
        }
        Verdict::Machine { side, .. } => Order::UpTo(side, 0),
        Verdict::Unknown(_) if found == 0 => Order::AnyUpTo(max),
        Verdict::Unknown(_) => Order::UpTo(Side::System, found - 1),
    }
}

/// Whether logs stand beside a machine of this side.
fn has_logs(version: u32, side: Side) -> bool
    ensures { result ≡ has_logs version side }
{
    match side {
        Side::System => true,
        Side::Environment => tells_bounds(version),
    }
}

impl Order {
    ghost use Rattle.document_text.specs.Order.{is_next_size, is_first_other};

    /// The place before the first log.
    pub fn start(self) -> Place
        ensures { result ≡ first_place self }
    {
        match self {
            Order::UpTo(side, _) => Place { side, size: 0 },
            Order::AnyUpTo(_) => Place {
                side: Side::System,
                size: 0,
            },
        }
    }

    /// Whether the log behind `last` may be this one.
    pub fn may_follow(self, last: Place, next: Place) -> bool
        ensures { result ≡ may_follow self last next }
    {
        match self {
            Order::UpTo(_, count) => last.is_before(next) && last.size < count,
            Order::AnyUpTo(max) => {
                (last.is_before(next) && last.size < max) || last.is_behind_all(next)
            }
        }
    }

    /// Whether no log is wanted behind `last`.
    pub(crate) fn may_end(self, last: Place) -> bool
        ensures { result ≡ may_end self last }
    {
        match self {
            Order::UpTo(_, count) => last.size == count,
            Order::AnyUpTo(_) => true,
        }
    }
}

impl Place {
    ghost use Rattle.document_text.specs.Order.{is_next_size, is_first_other};

    fn is_before(self, next: Place) -> bool
        ensures { result ≡ is_next_size self next }
    {
        self.side == next.side && u64::from(next.size) == u64::from(self.size) + 1
    }

    fn is_behind_all(self, next: Place) -> bool
        ensures { result ≡ is_first_other self next }
    {
        self.side == Side::System && (next.side == Side::Environment && next.size == 1)
    }
}
