/// The words of the program itself, but that which names the file of the output.
pub const OWN_WORDS: [&str; 3] = ["--progress", "--quiet", "--verbose"];

/// The words of the program itself, which stand before the command and aren't seen by `run`.
#[derive(Clone, Copy)]
pub struct OwnWords {
    /// A line on standard error each second of a search.
    pub progress: bool,
    /// No messages at all.
    pub quiet: bool,
    /// A line on what was found, too.
    pub verbose: bool,
}

impl OwnWords {
    const NONE: OwnWords = OwnWords {
        progress: false,
        quiet: false,
        verbose: false,
    };

    /// How many words they are.
    pub fn count(self) -> usize {
        usize::from(self.progress) + usize::from(self.quiet) + usize::from(self.verbose)
    }

    /// These with one word more. None where it is none of them, or stands already.
    fn with(self, word: &str) -> Option<OwnWords> {
        match word {
            "--progress" if !self.progress => Some(OwnWords {
                progress: true,
                ..self
            }),
            "--quiet" if !self.quiet => Some(OwnWords {
                quiet: true,
                ..self
            }),
            "--verbose" if !self.verbose => Some(OwnWords {
                verbose: true,
                ..self
            }),
            _ => None,
        }
    }
}

/// The program's own words behind its name: each at most once, in any order.
pub fn read_own_words(words: &[String]) -> OwnWords {
    let mut own = OwnWords::NONE;
    for word in words.iter().skip(1) {
        match own.with(word) {
            Some(more) => own = more,
            None => break,
        }
    }
    own
}
