//! How tightly operators bind.

ghost use Rattle.std.specs.Prelude.{◌≡◌, ◌≤◌, ◌+◌, Some, IfSome, IfNone};
ghost use Rattle.tlsf_syntax.specs.declared.level.Level.TheVariants.{Releases};
ghost use Rattle.tlsf_syntax.specs.Expressions.{tighter_of, joins_of};
ghost use Rattle.tlsf_syntax.specs.Reading.{level_number};

/// The levels of expressions, from the tightest to the loosest.
#[derive(Clone, Copy, Debug, PartialEq, Eq)]
pub enum Level {
    Primary,
    Products,
    Quotients,
    Sums,
    Differences,
    Meets,
    Unions,
    Comparisons,
    Memberships,
    Prefixes,
    Conjunctions,
    Disjunctions,
    Implications,
    WeakUntils,
    Untils,
    /// Whole expressions.
    Releases,
}

/// How the operators of a level join their operands.
#[derive(Clone, Copy, Debug, PartialEq, Eq)]
pub enum Joins {
    /// Any number, to the left, in one node.
    Left,
    /// At most one.
    Once,
    /// To the right.
    Right,
    /// The level has no operator between operands.
    None,
}

impl Level {
    /// The level that this one is built of.
    pub fn tighter(self) -> Option<Level>
        ensures { result ≡ tighter_of self }
    {
        match self {
            Level::Primary => None,
            Level::Products => Some(Level::Primary),
            Level::Quotients => Some(Level::Products),
            Level::Sums => Some(Level::Quotients),
            Level::Differences => Some(Level::Sums),
            Level::Meets => Some(Level::Differences),
            Level::Unions => Some(Level::Meets),
            Level::Comparisons => Some(Level::Unions),
            Level::Memberships => Some(Level::Comparisons),
            Level::Prefixes => Some(Level::Memberships),
            Level::Conjunctions => Some(Level::Prefixes),
            Level::Disjunctions => Some(Level::Conjunctions),
            Level::Implications => Some(Level::Disjunctions),
            Level::WeakUntils => Some(Level::Implications),
            Level::Untils => Some(Level::WeakUntils),
            Level::Releases => Some(Level::Untils),
        }
    }

    /// The level that is built of this one.
    pub fn looser(self) -> Option<Level>
        ensures upwards { IfSome result (λ looser. tighter_of looser ≡ Some self) }
        ensures above { IfSome result (λ looser. level_number looser ≡ level_number self + 1) }
        ensures last { IfNone result (self ≡ Releases) }
    {
        match self {
            Level::Primary => Some(Level::Products),
            Level::Products => Some(Level::Quotients),
            Level::Quotients => Some(Level::Sums),
            Level::Sums => Some(Level::Differences),
            Level::Differences => Some(Level::Meets),
            Level::Meets => Some(Level::Unions),
            Level::Unions => Some(Level::Comparisons),
            Level::Comparisons => Some(Level::Memberships),
            Level::Memberships => Some(Level::Prefixes),
            Level::Prefixes => Some(Level::Conjunctions),
            Level::Conjunctions => Some(Level::Disjunctions),
            Level::Disjunctions => Some(Level::Implications),
            Level::Implications => Some(Level::WeakUntils),
            Level::WeakUntils => Some(Level::Untils),
            Level::Untils => Some(Level::Releases),
            Level::Releases => None,
        }
    }

    /// The level that is built of this one, on the way to a looser one.
    pub fn towards(self, to: Level) -> Option<Level>
        ensures upwards { IfSome result (λ next. tighter_of next ≡ Some self) }
        ensures within { IfSome result (λ next. level_number next ≤ level_number to) }
        ensures above { IfSome result (λ next. level_number next ≡ level_number self + 1) }
        ensures last { IfNone result (level_number to ≤ level_number self) }
    {
        if self.rank() < to.rank() {
            self.looser()
        } else {
            None
        }
    }

    /// The number of the level, from the tightest on.
    pub fn rank(self) -> u8
        ensures { result ≡ level_number self }
    {
        match self {
            Level::Primary => 0,
            Level::Products => 1,
            Level::Quotients => 2,
            Level::Sums => 3,
            Level::Differences => 4,
            Level::Meets => 5,
            Level::Unions => 6,
            Level::Comparisons => 7,
            Level::Memberships => 8,
            Level::Prefixes => 9,
            Level::Conjunctions => 10,
            Level::Disjunctions => 11,
            Level::Implications => 12,
            Level::WeakUntils => 13,
            Level::Untils => 14,
            Level::Releases => 15,
        }
    }

    /// How the operators of the level join their operands.
    pub fn joins(self) -> Joins
        ensures { result ≡ joins_of self }
    {
        match self {
            Level::Primary | Level::Prefixes => Joins::None,
            Level::Comparisons | Level::Memberships => Joins::Once,
            Level::Implications | Level::WeakUntils | Level::Untils => Joins::Right,
            _ => Joins::Left,
        }
    }
}
