//! Usual slips by the signs and words that are typed, with what TLSF has in their place.

/// How a comment begins.
const COMMENT: &str = "a comment begins with `//`, or stands between `/*` and `*/`";

const CONJUNCTION: &str = "conjunction is written `&&`";

const DISJUNCTION: &str = "disjunction is written `||`";

const NEGATION: &str = "negation is written `!`";

const EXCLUSIVE: &str = "exclusive or is written `!(a <-> b)`";

const IMPLICATION: &str = "implication is written `->`";

const EQUIVALENCE: &str = "equivalence is written `<->`";

const ALWAYS: &str = "always is written `G`";

const EVENTUALLY: &str = "eventually is written `F`";

const CHOICE: &str =
    "a choice is written by implications: if c then a else b is `(c -> a) && (!c -> b)`";

const PAST: &str = "TLSF has no operators of the past: an output may keep what has been";

const SETS: &str =
    "for all and for some are written `&&[0 <= i < 4] r[i]` and `||[0 <= i < 4] r[i]`";

const DOUBLED: &str = "conjunction and disjunction are written `&&` and `||`";

/// What a name consists of.
pub(crate) const NAME_FORM: &str = "a name has letters, digits, `_`, `@` and `'` alone";

/// Signs that may stand for something anywhere.
pub(crate) const SIGNS: [(&str, &str); 17] = [
    ("--", COMMENT),
    ("#", COMMENT),
    ("/\\", CONJUNCTION),
    ("\\/", DISJUNCTION),
    ("&", DOUBLED),
    ("|", DOUBLED),
    ("~", NEGATION),
    ("^", EXCLUSIVE),
    ("?", CHOICE),
    ("\u{2192}", IMPLICATION),
    ("\u{2194}", EQUIVALENCE),
    ("\u{2227}", CONJUNCTION),
    ("\u{2228}", DISJUNCTION),
    ("\u{ac}", NEGATION),
    ("\u{25a1}", ALWAYS),
    ("\u{25c7}", EVENTUALLY),
    (
        "\u{feff}",
        "the text is to be saved as UTF-8 without a byte order mark",
    ),
];

/// Signs that may stand for something in a formula.
pub(crate) const FORMULA_SIGNS: [(&str, &str); 3] = [
    ("<=>", EQUIVALENCE),
    ("=>", IMPLICATION),
    (
        ":=",
        "what holds is written as a formula: `<->` between formulas, `==` between numbers",
    ),
];

/// Signs that may stand for something where an operand is wanted.
pub(crate) const OPERAND_SIGNS: [(&str, &str); 2] = [("[]", ALWAYS), ("<>", EVENTUALLY)];

/// Words that no text declares and that may stand for something. Words of one letter stand for it in capitals alone.
pub(crate) const WORDS: [(&str, &str); 33] = [
    ("true", "truth is written `true`"),
    ("false", "falsehood is written `false`"),
    ("not", NEGATION),
    ("and", CONJUNCTION),
    ("or", DISJUNCTION),
    ("xor", EXCLUSIVE),
    ("implies", IMPLICATION),
    ("iff", EQUIVALENCE),
    ("always", ALWAYS),
    ("globally", ALWAYS),
    ("eventually", EVENTUALLY),
    ("finally", EVENTUALLY),
    ("next", "next is written `X`"),
    ("until", "until is written `U`"),
    ("unless", "unless, or weak until, is written `W`"),
    ("release", "release is written `R`"),
    ("releases", "release is written `R`"),
    ("V", "release is written `R`"),
    (
        "M",
        "strong release has no sign: `a M b` is written `b U (a && b)`",
    ),
    ("forall", SETS),
    ("exists", SETS),
    ("if", CHOICE),
    ("then", CHOICE),
    ("else", CHOICE),
    ("once", PAST),
    ("historically", PAST),
    ("previously", PAST),
    ("yesterday", PAST),
    ("since", PAST),
    ("O", PAST),
    ("H", PAST),
    ("S", PAST),
    ("Y", PAST),
];

/// How files of other kinds begin, and what they are.
pub(crate) const FILES: [(&str, &str); 21] = [
    (
        "aag ",
        "this is a circuit in AIGER or a document: it stands behind a text, as in `check SPEC CERT` and `verify SPEC CIRCUIT`",
    ),
    (
        "aig ",
        "this is a binary circuit in AIGER: `aigtoaig` makes the ASCII form, which `verify SPEC CIRCUIT` reads",
    ),
    (
        "boundsyn ",
        "this is a document without a circuit: it stands behind a text, as in `check SPEC CERT`",
    ),
    (
        "stem",
        "this is a word: it stands behind a text, as in `lasso SPEC WORD`",
    ),
    (
        "module",
        "this may be Verilog: a text of TLSF begins with INFO",
    ),
    (
        "`timescale",
        "this may be Verilog: a text of TLSF begins with INFO",
    ),
    ("MODULE", "this may be SMV: a text of TLSF begins with INFO"),
    (
        "HOA:",
        "this is an automaton in HOA: a text of TLSF begins with INFO",
    ),
    (
        "never",
        "this may be a never claim: a text of TLSF begins with INFO",
    ),
    (
        "[INPUT",
        "this is a text for Slugs: a text of TLSF begins with INFO",
    ),
    ("[", "this may be JSON: a text of TLSF begins with INFO"),
    ("{", "this may be JSON: a text of TLSF begins with INFO"),
    (
        "<",
        "this may be XML or HTML: a text of TLSF begins with INFO",
    ),
    ("%PDF", "this is a PDF: a text of TLSF begins with INFO"),
    ("#!", "this is a script: a text of TLSF begins with INFO"),
    (
        "\u{7f}ELF",
        "this is a program: a text of TLSF begins with INFO",
    ),
    ("PK\u{3}", "this is an archive: unpack it first"),
    (
        "GLOBAL",
        "INFO is missing: it stands first, with TITLE, DESCRIPTION, SEMANTICS and TARGET",
    ),
    (
        "MAIN",
        "INFO is missing: it stands first, with TITLE, DESCRIPTION, SEMANTICS and TARGET",
    ),
    (
        "TITLE",
        "the fields stand in braces behind INFO: `INFO { TITLE: ..`",
    ),
    ("INPUTS", "this stands in MAIN, and INFO before it"),
];

/// How files begin that are no UTF-8.
pub(crate) const RAW_FILES: [(&[u8], &str); 3] = [
    (b"\x1f\x8b", "this is compressed by gzip: unpack it first"),
    (
        b"\xff\xfe",
        "this is UTF-16: save the text as ASCII or UTF-8",
    ),
    (
        b"\xfe\xff",
        "this is UTF-16: save the text as ASCII or UTF-8",
    ),
];
