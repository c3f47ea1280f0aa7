//! What the words ask for, as far as what surrounds a run goes by it, in plain values.

use crate::settings::Settings;
use crate::words::read_words;
use std::alloc::Global;

/// What surrounds a run goes by.
#[derive(Clone, Copy)]
pub struct Wishes<'a> {
    /// Whether many texts are answered.
    pub is_batch: bool,
    /// The limit of entries, where one search alone runs: with `synth`. The other commands count those of many logs.
    pub entries: Option<u64>,
    /// The name of the text that `solve` takes.
    pub spec: Option<&'a str>,
    /// What `solve` is to refute.
    pub solving: Option<Solving>,
}

/// What `solve` is to refute.
#[derive(Clone, Copy)]
pub struct Solving {
    /// The sizes up to this one, where that is given.
    pub max: Option<u32>,
    /// The limit of entries of a log.
    pub entries: Option<u64>,
    /// For how many seconds it works at a text, where that is given.
    pub seconds: Option<u32>,
}

impl Wishes<'_> {
    const NONE: Wishes<'static> = Wishes {
        is_batch: false,
        entries: None,
        spec: None,
        solving: None,
    };
}

/// What the words ask for. They ask for nothing of it where they are refused, or there is no memory to read them.
pub fn read_wishes(alloc: Global, words: &[String]) -> Wishes<'_> {
    match read_words(alloc, words) {
        Ok(settings) => wishes_of(&settings),
        Err(_) => Wishes::NONE,
    }
}

fn wishes_of<'a>(settings: &Settings<'a>) -> Wishes<'a> {
    match *settings {
        Settings::Synth { search, .. } => Wishes {
            entries: search.entries(),
            ..Wishes::NONE
        },
        Settings::Batch { .. } => Wishes {
            is_batch: true,
            ..Wishes::NONE
        },
        Settings::SolveList {
            max,
            entries,
            seconds,
            ..
        } => Wishes {
            is_batch: true,
            solving: Some(Solving {
                max,
                entries,
                seconds,
            }),
            ..Wishes::NONE
        },
        Settings::Solve {
            spec,
            max,
            entries,
            seconds,
            ..
        } => Wishes {
            spec: Some(spec),
            solving: Some(Solving {
                max,
                entries,
                seconds,
            }),
            ..Wishes::NONE
        },
        _ => Wishes::NONE,
    }
}
