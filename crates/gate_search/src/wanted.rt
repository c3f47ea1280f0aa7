//! What a signal is wanted to be, and how others help.

use signal_nets::{Net, are_never_both, count, count_where, is_clear, literal_of, opposite, part};
use std::alloc::{AllocError, Global};

/// The columns that a signal shall be set on, and those that it shall be unset on; it is free on others.
#[derive(Drop)]
pub(crate) struct Wanted {
    pub(crate) on: Vec<u64>,
    pub(crate) off: Vec<u64>,
}

/// How a literal helps: what is wanted is it and something else, or it or something else.
#[derive(Clone, Copy)]
pub(crate) enum Form {
    And,
    Or,
}

/// A literal that helps, and how many thousandths of the columns that are to be told apart it settles.
#[derive(Clone, Copy)]
pub(crate) struct Helper {
    pub(crate) literal: u32,
    pub(crate) form: Form,
    pub(crate) share: u64,
}

/// What a node is good for.
#[derive(Clone, Copy)]
pub(crate) enum Use {
    /// This literal of it is what is wanted.
    Whole(u32),
    Part(Helper),
    Nothing,
}

impl Wanted {
    /// The constant that does; None where none does.
    pub(crate) fn constant(&self) -> Option<u32> {
        if is_clear(&self.on) {
            Some(0)
        } else if is_clear(&self.off) {
            Some(1)
        } else {
            None
        }
    }

    pub(crate) fn use_of(&self, net: &Net, node: usize) -> Use {
        let own = literal_of(node, false);
        let meeting = net.signal(own).meeting(&self.on, &self.off);
        match (
            meeting.on_set,
            meeting.on_unset,
            meeting.off_set,
            meeting.off_unset,
        ) {
            (_, false, false, _) => Use::Whole(own),
            (false, _, _, false) => Use::Whole(opposite(own)),
            (_, false, _, _) => self.part(net, own, Form::And),
            (false, _, _, _) => self.part(net, opposite(own), Form::And),
            (_, _, false, _) => self.part(net, own, Form::Or),
            (_, _, _, false) => self.part(net, opposite(own), Form::Or),
            _ => Use::Nothing,
        }
    }

    fn part(&self, net: &Net, literal: u32, form: Form) -> Use {
        let (of, settling) = match form {
            Form::And => (&self.off, opposite(literal)),
            Form::Or => (&self.on, literal),
        };
        let settled = count_where(of, net.signal(settling));
        if settled == 0 {
            return Use::Nothing;
        }
        let share = settled.saturating_mul(1000).checked_div(count(of));
        Use::Part(Helper {
            literal,
            form,
            share: share.unwrap_or(0),
        })
    }

    /// What is wanted of the other operand.
    pub(crate) fn beside(
        &self,
        alloc: Global,
        net: &Net,
        helper: Helper,
    ) -> Result<Wanted, AllocError> {
        match helper.form {
            Form::And => Ok(Wanted {
                on: Vec::from_slice(alloc, &self.on)?,
                off: part(alloc, &self.off, net.signal(helper.literal))?,
            }),
            Form::Or => Ok(Wanted {
                on: part(alloc, &self.on, net.signal(opposite(helper.literal)))?,
                off: Vec::from_slice(alloc, &self.off)?,
            }),
        }
    }

    /// What is wanted where a literal is set.
    pub(crate) fn where_set(
        &self,
        alloc: Global,
        net: &Net,
        literal: u32,
    ) -> Result<Wanted, AllocError> {
        Ok(Wanted {
            on: part(alloc, &self.on, net.signal(literal))?,
            off: part(alloc, &self.off, net.signal(literal))?,
        })
    }

    /// Whether a literal is what is wanted.
    pub(crate) fn is_met_by(&self, net: &Net, literal: u32) -> bool {
        let meeting = net.signal(literal).meeting(&self.on, &self.off);
        !meeting.on_unset && !meeting.off_set
    }

    /// Whether two helpers of one form do together.
    pub(crate) fn is_met_by_both(&self, net: &Net, form: Form, one: u32, other: u32) -> bool {
        match form {
            Form::And => are_never_both(&self.off, net.signal(one), net.signal(other)),
            Form::Or => are_never_both(
                &self.on,
                net.signal(opposite(one)),
                net.signal(opposite(other)),
            ),
        }
    }
}
