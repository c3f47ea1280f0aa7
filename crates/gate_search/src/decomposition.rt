//! Nets by decomposition: what is wanted is a signal that there is; or a signal that helps much and something simpler; or a choice by a leaf.

use crate::wanted::{Form, Helper, Use, Wanted};
use crate::work::Work;
use signal_nets::{Net, Problem, count, count_where, literal_of, opposite};
use std::alloc::{AllocError, Global};

/// A helper is taken where it settles so many thousandths.
const LEAST_SHARE: u64 = 300;

/// Thousandths by which draws decide between helpers.
const PLAY: u32 = 8;

/// No target takes more steps one in another.
const DEEPEST: u32 = 200;

/// What to do first for what is wanted.
#[derive(Clone, Copy)]
enum Step {
    Whole(u32),
    Join(Helper),
    Split(u32),
}

/// Makes the signals of one target.
#[derive(Drop)]
struct Maker {
    alloc: Global,
    /// The first node that may be used.
    first: usize,
    leaves: usize,
    width: usize,
}

/// The net of a problem; None where the work is over before it is made.
pub fn decomposed_net(
    alloc: Global,
    problem: &Problem,
    work: &mut Work,
) -> Result<Option<Net>, AllocError> {
    let mut net = Net::new(alloc, problem)?;
    for (place, target) in problem.targets.iter().enumerate() {
        let maker = Maker {
            alloc,
            first: problem.first_node(place),
            leaves: net.leaves(),
            width: problem.width,
        };
        let wanted = Wanted::of_target(alloc, target)?;
        let Some(literal) = maker.literal(&mut net, &wanted, DEEPEST, work)? else {
            return Ok(None);
        };
        net.targets.push(literal)?;
    }
    Ok(Some(net.cleaned()?))
}

impl Wanted {
    /// All columns are on or off.
    pub(crate) fn of_target(alloc: Global, target: &[u64]) -> Result<Wanted, AllocError> {
        let mut off = Vec::with_capacity(alloc, target.len())?;
        for word in target {
            off.push(!*word)?;
        }
        Ok(Wanted {
            on: Vec::from_slice(alloc, target)?,
            off,
        })
    }
}

impl Maker {
    /// A literal that is what is wanted.
    fn literal(
        &self,
        net: &mut Net,
        wanted: &Wanted,
        deepest: u32,
        work: &mut Work,
    ) -> Result<Option<u32>, AllocError> {
        if let Some(constant) = wanted.constant() {
            return Ok(Some(constant));
        }
        if deepest == 0 || work.is_over() {
            return Ok(None);
        }
        match self.step(net, wanted, work) {
            Some(Step::Whole(literal)) => Ok(Some(literal)),
            Some(Step::Join(helper)) => {
                let beside = wanted.beside(self.alloc, net, helper)?;
                match self.literal(net, &beside, deepest - 1, work)? {
                    Some(other) => Ok(Some(joined(net, helper, other)?)),
                    None => Ok(None),
                }
            }
            Some(Step::Split(leaf)) => {
                let then = wanted.where_set(self.alloc, net, leaf)?;
                let otherwise = wanted.where_set(self.alloc, net, opposite(leaf))?;
                let Some(one) = self.literal(net, &then, deepest - 1, work)? else {
                    return Ok(None);
                };
                if otherwise.is_met_by(net, one) {
                    return Ok(Some(one));
                }
                match self.literal(net, &otherwise, deepest - 1, work)? {
                    Some(two) => Ok(Some(net.choice(leaf, one, two)?)),
                    None => Ok(None),
                }
            }
            None => Ok(None),
        }
    }

    fn step(&self, net: &Net, wanted: &Wanted, work: &mut Work) -> Option<Step> {
        work.spend(survey_steps(net.nodes(), self.width));
        let mut best: Option<Helper> = None;
        for node in self.first..net.nodes() {
            match wanted.use_of(net, node) {
                Use::Whole(literal) => return Some(Step::Whole(literal)),
                Use::Part(helper) => best = Some(better(best, helper, work)),
                Use::Nothing => {}
            }
        }
        match best {
            Some(helper) if helper.share >= LEAST_SHARE => Some(Step::Join(helper)),
            _ => self.split(net, wanted, work),
        }
    }

    /// The leaf behind which least is left to be told apart.
    fn split(&self, net: &Net, wanted: &Wanted, work: &mut Work) -> Option<Step> {
        let (on, off) = (count(&wanted.on), count(&wanted.off));
        let mut best: Option<(u64, u32)> = None;
        for leaf in self.first..self.leaves {
            let literal = literal_of(leaf, false);
            let on_set = count_where(&wanted.on, net.signal(literal));
            let off_set = count_where(&wanted.off, net.signal(literal));
            let (on_unset, off_unset) = (on.saturating_sub(on_set), off.saturating_sub(off_set));
            if on_set | off_set == 0 || on_unset | off_unset == 0 {
                continue;
            }
            let left = disorder(on_set, off_set).saturating_add(disorder(on_unset, off_unset));
            let play = left.saturating_mul(u64::from(work.draw(4))) / 50;
            let left = left.saturating_add(play);
            if best.is_none_or(|(least, _)| left < least) {
                best = Some((left, literal));
            }
        }
        let (_, literal) = best?;
        Some(Step::Split(literal))
    }
}

/// The helper with the greater share, give or take a draw, which stands in its share from then on.
fn better(best: Option<Helper>, helper: Helper, work: &mut Work) -> Helper {
    let drawn = Helper {
        share: helper.share.saturating_add(u64::from(work.draw(PLAY))),
        ..helper
    };
    match best {
        Some(best) if best.share >= drawn.share => best,
        _ => drawn,
    }
}

/// The helper and the other operand.
fn joined(net: &mut Net, helper: Helper, other: u32) -> Result<u32, AllocError> {
    match helper.form {
        Form::And => net.and(helper.literal, other),
        Form::Or => net.or(helper.literal, other),
    }
}

/// The steps of a look at so many nodes.
pub(crate) fn survey_steps(nodes: usize, width: usize) -> usize {
    nodes.saturating_mul(8usize.saturating_add(width / 4))
}

/// The bits that it takes to say which of so many columns are on and which are off, in 1,024ths.
fn disorder(on: u64, off: u64) -> u64 {
    let all = on.saturating_add(off);
    times_logarithm(all)
        .saturating_sub(times_logarithm(on))
        .saturating_sub(times_logarithm(off))
}

/// A number times its binary logarithm, nearly, in 1,024ths.
fn times_logarithm(number: u64) -> u64 {
    if number < 2 {
        return 0;
    }
    let whole = 63 - u64::from(number.leading_zeros());
    let part = (number << 10)
        .checked_shr(whole as u32)
        .unwrap_or(0)
        .saturating_sub(1024);
    let bent = part.saturating_mul(1024u64.saturating_sub(part)) / 2960;
    let logarithm = whole
        .saturating_mul(1024)
        .saturating_add(part)
        .saturating_add(bent);
    number.saturating_mul(logarithm)
}
