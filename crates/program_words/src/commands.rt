//! The commands with their options and ranges, for whoever tells of them.

use crate::ranges::{
    MOST_ALONE, MOST_BENCHED, MOST_CLIENTS, MOST_ENTRIES, MOST_IN_BATCH, MOST_REFUTED, MOST_SECONDS,
};
use std::alloc::AllocError;
use std::fmt::Write;

/// What a word may be.
#[derive(Clone, Copy)]
pub enum Values {
    /// The name of a file.
    File,
    /// A number from the first to the second.
    Number(u32, u32),
    /// A number up to this one, or `none`.
    Limit(u32),
    /// One of two words.
    Either(&'static str, &'static str),
    /// No value: the name stands alone.
    Alone,
}

/// What must be given by its place, or an option.
#[derive(Clone, Copy)]
pub struct Part {
    pub name: &'static str,
    pub values: Values,
}

/// A command.
#[derive(Clone, Copy)]
pub struct Command {
    pub name: &'static str,
    /// What must be given, in order.
    pub places: &'static [Part],
    pub options: &'static [Part],
}

/// The commands, in the order of the help page.
pub const COMMANDS: [Command; 11] = [
    Command {
        name: "solve",
        places: &[SPEC],
        options: &[REFUTED, ENTRIES, WORKERS, KIND, SECONDS],
    },
    Command {
        name: "synth",
        places: &[SPEC],
        options: &[MAX, ENTRIES, WORKERS, KIND, COUNTS],
    },
    Command {
        name: "check",
        places: &[
            SPEC,
            Part {
                name: "CERT",
                values: Values::File,
            },
        ],
        options: &[],
    },
    Command {
        name: "expand",
        places: &[SPEC],
        options: &[AS_SOLVED, KIND, NODES],
    },
    Command {
        name: "lasso",
        places: &[
            SPEC,
            Part {
                name: "WORD",
                values: Values::File,
            },
        ],
        options: &[AS_SOLVED, KIND],
    },
    Command {
        name: "gen",
        places: &[Part {
            name: "K",
            values: Values::Number(1, MOST_CLIENTS),
        }],
        options: &[],
    },
    Command {
        name: "bench",
        places: &[Part {
            name: "K",
            values: Values::Number(1, MOST_BENCHED),
        }],
        options: &[WORKERS],
    },
    Command {
        name: "verify",
        places: &[
            SPEC,
            Part {
                name: "CIRCUIT",
                values: Values::File,
            },
        ],
        options: &[
            Part {
                name: "--unrealizable",
                values: Values::Alone,
            },
            KIND,
        ],
    },
    Command {
        name: "core",
        places: &[SPEC],
        options: &[MAX, ENTRIES, WORKERS, KIND, COUNTS],
    },
    Command {
        name: "batch",
        places: &[LIST],
        options: &[
            Part {
                name: "--max",
                values: Values::Number(1, MOST_IN_BATCH),
            },
            ENTRIES,
            SHARING,
            COUNTS,
        ],
    },
    SOLVE_LIST,
];

/// `batch` where its texts are solved, as a form tells it.
pub const SOLVE_LIST: Command = Command {
    name: "batch --solve",
    places: &[LIST],
    options: &[REFUTED, ENTRIES, SHARING, KIND, SECONDS],
};

/// The same as its words are read: the list is the value of `--solve`.
pub const SOLVE_LIST_WORDS: Command = Command {
    name: "batch",
    places: &[],
    options: &[
        Part {
            name: "--solve",
            values: Values::File,
        },
        REFUTED,
        ENTRIES,
        SHARING,
        KIND,
        SECONDS,
    ],
};

const LIST: Part = Part {
    name: "LIST",
    values: Values::File,
};

/// The sizes that are refuted.
const REFUTED: Part = Part {
    name: "--max",
    values: Values::Number(0, MOST_REFUTED),
};

/// The workers that share texts.
const SHARING: Part = Part {
    name: "--workers",
    values: Values::Number(1, MOST_IN_BATCH),
};

const SPEC: Part = Part {
    name: "SPEC",
    values: Values::File,
};

const MAX: Part = Part {
    name: "--max",
    values: Values::Number(1, MOST_ALONE),
};

const ENTRIES: Part = Part {
    name: "--entries",
    values: Values::Limit(MOST_ENTRIES),
};

const WORKERS: Part = Part {
    name: "--workers",
    values: Values::Number(1, MOST_ALONE),
};

const KIND: Part = Part {
    name: "--kind",
    values: Values::Either("mealy", "moore"),
};

/// How long `solve` works at a text.
const SECONDS: Part = Part {
    name: "--seconds",
    values: Values::Number(1, MOST_SECONDS),
};

/// The text as `solve` takes it.
const AS_SOLVED: Part = Part {
    name: "--solve",
    values: Values::Alone,
};

/// The list of a text's formulas.
const NODES: Part = Part {
    name: "--nodes",
    values: Values::Alone,
};

const COUNTS: Part = Part {
    name: "--counts",
    values: Values::Either("whole", "local"),
};

/// The command of that name.
pub fn command_of(name: &str) -> Option<Command> {
    COMMANDS
        .iter()
        .find(|command| command.name == name)
        .copied()
}

impl Command {
    /// Appends its form, as `gen K`.
    pub fn push_form(self, out: &mut String) -> Result<(), AllocError> {
        let Command {
            name,
            places,
            options,
        } = self;
        out.push_str(name)?;
        for place in places {
            let name = place.name;
            write!(out, " {name}")?;
        }
        for option in options {
            option.push_form(out)?;
        }
        Ok(())
    }

    /// The option of that name.
    pub fn option(self, name: &str) -> Option<Part> {
        self.options
            .iter()
            .find(|option| option.name == name)
            .copied()
    }
}

impl Part {
    /// Whether a value stands behind the name.
    pub fn takes_value(self) -> bool {
        !matches!(self.values, Values::Alone)
    }

    /// Appends an option's form, as ` [--kind mealy|moore]`.
    fn push_form(self, out: &mut String) -> Result<(), AllocError> {
        let Part { name, values } = self;
        write!(out, " [{name}")?;
        if let Values::Alone = values {
            return out.push(']');
        }
        out.push(' ')?;
        values.push_to(out)?;
        out.push(']')
    }
}

impl Values {
    /// Whether a word is one of them.
    pub fn fit(self, word: &str) -> bool {
        match self {
            Values::File => true,
            Values::Number(least, most) => is_number(word, least, most),
            Values::Limit(most) => word == "none" || is_number(word, 0, most),
            Values::Either(one, other) => word == one || word == other,
            Values::Alone => false,
        }
    }

    /// Appends what they are, as a form and a sentence have it.
    pub fn push_to(self, out: &mut String) -> Result<(), AllocError> {
        match self {
            Values::File => out.push_str("the name of a file"),
            Values::Number(least, most) => write!(out, "{least}..{most}"),
            Values::Limit(most) => write!(out, "0..{most}|none"),
            Values::Either(one, other) => write!(out, "{one}|{other}"),
            Values::Alone => out.push_str("nothing"),
        }
    }
}

/// Whether a word is a number without leading zeros in that range.
fn is_number(word: &str, least: u32, most: u32) -> bool {
    let is_numeral = word.bytes().all(|byte| byte.is_ascii_digit())
        && (word.len() == 1 || !word.starts_with('0'));
    is_numeral
        && word
            .parse::<u32>()
            .is_ok_and(|number| least <= number && number <= most)
}
