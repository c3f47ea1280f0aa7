ghost use Rattle.std.specs.Prelude.{◌≡◌, ◌≢◌, Some, None, codes, if◌then◌else◌, map, option_map, option_and_then, string_bytes, is_some, IfOk, IfSome, IsErrOf, ◌≤◌};
ghost use Rattle.std.specs.Str.{bytes_eq};
ghost use Rattle.letters_and_lassos.specs.declared.kinds.Side.TheVariants.{Environment, System};
ghost use Rattle.clap.specs.Words.{first_of, found_of, rows_of, subcommand_rows_of};
ghost use Rattle.program_words.specs.Settings.{asked_by, asked_of, batch_asked, bench_asked, check_asked, core_asked, counts_asked, counts_in, expand_asked, expand_solve_asked, flag_asked, gen_asked, given_in, IsInRange, IsSearchInRange, kind_asked, kind_in, lasso_asked, lasso_solve_asked, limit_in, limit_or, number_or, plain_expand_asked, plain_lasso_asked, refuted_count, refuted_limit, search_asked, search_list_asked, seconds_asked, settings_of, side_asked, solve_asked, solve_list_asked, synth_asked, verify_asked};

use crate::command_line::program;
use crate::numbers::number_in;
use crate::ranges::{
    BRIEF_ENTRIES, MOST_ALONE, MOST_BENCHED, MOST_CLIENTS, MOST_ENTRIES, MOST_IN_BATCH,
    MOST_REFUTED, MOST_SECONDS, USUAL_ENTRIES,
};
use crate::settings::Settings;
use clap::ArgMatches;
use clap::error::ErrorKind;
use letters_and_lassos::{Kind, Side};
use machine_model::Counts;
use std::alloc::{AllocError, Global};
use synth_engine::Settings as Search;

/// Why words ask for nothing.
#[derive(Clone, Copy)]
pub enum WordsFault {
    /// They are no words of the command line, or a number is out of its range.
    Refused,
    /// There was no memory.
    NoMemory,
}

impl From<AllocError> for WordsFault {
    ghost use Rattle.program_words.specs.declared.words.WordsFault.TheVariants.{NoMemory};

    ghost from_gives = { λ _ fault. fault ≡ NoMemory };

    fn from(_error: AllocError) -> WordsFault {
        WordsFault::NoMemory
    }
}

/// What the words ask for; the first of them is the program's name.
pub fn read_words(alloc: Global, words: &[String]) -> Result<Settings<'_>, WordsFault>
    ensures settings { IfOk result (λ s. settings_of (map string_bytes words.now) ≡ Some (asked_by s)) }
    ensures refused { IsErrOf result WordsFault.Refused → settings_of (map string_bytes words.now) ≡ None }
    ensures ranges { IfOk result (λ s. IsInRange (asked_by s)) }
{
    let program = program(alloc)?;
    match program.try_get_matches_from(words) {
        Ok(matches) => found_settings(&matches),
        Err(error) => Err(fault_by(error.kind())),
    }
}

fn fault_by(kind: ErrorKind) -> WordsFault
    ensures { result ≡ WordsFault.Refused → kind ≢ ErrorKind.OutOfMemory }
{
    match kind {
        ErrorKind::OutOfMemory => WordsFault::NoMemory,
        _ => WordsFault::Refused,
    }
}

/// What the matches ask for. A `match`, since `ok_or` would take names and a search by value together.
fn found_settings<'a>(matches: &ArgMatches<'a>) -> Result<Settings<'a>, WordsFault>
    ensures settings { IfOk result (λ s. asked_of (subcommand_rows_of matches.now) ≡ Some (asked_by s)) }
    ensures refused { IsErrOf result WordsFault.Refused → asked_of (subcommand_rows_of matches.now) ≡ None }
    ensures ranges { IfOk result (λ s. IsInRange (asked_by s)) }
{
    match settings_in(matches) {
        Some(settings) => Ok(settings),
        None => Err(WordsFault::Refused),
    }
}

fn settings_in<'a>(matches: &ArgMatches<'a>) -> Option<Settings<'a>>
    ensures asked { option_map asked_by result ≡ asked_of (subcommand_rows_of matches.now) }
    ensures ranges { IfSome result (λ s. IsInRange (asked_by s)) }
{
    let (name, own) = matches.subcommand()?;
    match name {
        "synth" => synth_in(own),
        "check" => check_in(own),
        "expand" => expand_in(own),
        "lasso" => lasso_in(own),
        "gen" => gen_in(own),
        "bench" => bench_in(own),
        "verify" => verify_in(own),
        "core" => core_in(own),
        "batch" => batch_in(own),
        "solve" => solve_in(own),
        _ => None,
    }
}

fn synth_in<'a>(own: &ArgMatches<'a>) -> Option<Settings<'a>>
    ensures asked { option_map asked_by result ≡ synth_asked (given_in (rows_of (found_of own.now))) }
    ensures ranges { IfSome result (λ s. IsInRange (asked_by s)) }
{
    Some(Settings::Synth {
        spec: text_of(own, "spec")?,
        search: search_in(own, MOST_ALONE)?,
        kind: kind_or(own)?,
    })
}

fn check_in<'a>(own: &ArgMatches<'a>) -> Option<Settings<'a>>
    ensures asked { option_map asked_by result ≡ check_asked (given_in (rows_of (found_of own.now))) }
    ensures ranges { IfSome result (λ s. IsInRange (asked_by s)) }
{
    Some(Settings::Check {
        spec: text_of(own, "spec")?,
        certificate: text_of(own, "certificate")?,
    })
}

fn expand_in<'a>(own: &ArgMatches<'a>) -> Option<Settings<'a>>
    ensures asked { option_map asked_by result ≡ expand_asked (given_in (rows_of (found_of own.now))) }
    ensures ranges { IfSome result (λ s. IsInRange (asked_by s)) }
{
    if is_flagged(own, "solve") {
        expand_solve_in(own)
    } else {
        plain_expand_in(own)
    }
}

fn expand_solve_in<'a>(own: &ArgMatches<'a>) -> Option<Settings<'a>>
    ensures asked { option_map asked_by result ≡ expand_solve_asked (given_in (rows_of (found_of own.now))) }
    ensures ranges { IfSome result (λ s. IsInRange (asked_by s)) }
{
    let spec = text_of(own, "spec")?;
    let kind = kind_or(own)?;
    let nodes = is_flagged(own, "nodes");
    Some(Settings::ExpandSolve { spec, kind, nodes })
}

fn plain_expand_in<'a>(own: &ArgMatches<'a>) -> Option<Settings<'a>>
    ensures asked { option_map asked_by result ≡ plain_expand_asked (given_in (rows_of (found_of own.now))) }
    ensures ranges { IfSome result (λ s. IsInRange (asked_by s)) }
{
    if is_given(own, "kind") {
        return None;
    }
    if is_flagged(own, "nodes") {
        return None;
    }
    let spec = text_of(own, "spec")?;
    Some(Settings::Expand { spec })
}

fn lasso_in<'a>(own: &ArgMatches<'a>) -> Option<Settings<'a>>
    ensures asked { option_map asked_by result ≡ lasso_asked (given_in (rows_of (found_of own.now))) }
    ensures ranges { IfSome result (λ s. IsInRange (asked_by s)) }
{
    if is_flagged(own, "solve") {
        lasso_solve_in(own)
    } else {
        plain_lasso_in(own)
    }
}

fn lasso_solve_in<'a>(own: &ArgMatches<'a>) -> Option<Settings<'a>>
    ensures asked { option_map asked_by result ≡ lasso_solve_asked (given_in (rows_of (found_of own.now))) }
    ensures ranges { IfSome result (λ s. IsInRange (asked_by s)) }
{
    let spec = text_of(own, "spec")?;
    let word = text_of(own, "word")?;
    let kind = kind_or(own)?;
    Some(Settings::LassoSolve { spec, word, kind })
}

fn plain_lasso_in<'a>(own: &ArgMatches<'a>) -> Option<Settings<'a>>
    ensures asked { option_map asked_by result ≡ plain_lasso_asked (given_in (rows_of (found_of own.now))) }
    ensures ranges { IfSome result (λ s. IsInRange (asked_by s)) }
{
    if is_given(own, "kind") {
        return None;
    }
    Some(Settings::Lasso {
        spec: text_of(own, "spec")?,
        word: text_of(own, "word")?,
    })
}

fn gen_in<'a>(own: &ArgMatches<'a>) -> Option<Settings<'a>>
    ensures asked { option_map asked_by result ≡ gen_asked (given_in (rows_of (found_of own.now))) }
    ensures ranges { IfSome result (λ s. IsInRange (asked_by s)) }
{
    let clients = number_in(text_of(own, "clients")?, 1, MOST_CLIENTS)?;
    Some(Settings::Gen { clients })
}

fn bench_in<'a>(own: &ArgMatches<'a>) -> Option<Settings<'a>>
    ensures asked { option_map asked_by result ≡ bench_asked (given_in (rows_of (found_of own.now))) }
    ensures ranges { IfSome result (λ s. IsInRange (asked_by s)) }
{
    let clients = number_in(text_of(own, "clients")?, 1, MOST_BENCHED)?;
    let workers = number_or(own, "workers", 4, 1, MOST_ALONE)?;
    Some(Settings::Bench { clients, workers })
}

fn verify_in<'a>(own: &ArgMatches<'a>) -> Option<Settings<'a>>
    ensures asked { option_map asked_by result ≡ verify_asked (given_in (rows_of (found_of own.now))) }
    ensures ranges { IfSome result (λ s. IsInRange (asked_by s)) }
{
    let spec = text_of(own, "spec")?;
    let circuit = text_of(own, "circuit")?;
    let kind = kind_or(own)?;
    let side = side_or(own);
    Some(Settings::Verify {
        side,
        kind,
        spec,
        circuit,
    })
}

/// The side that a circuit plays: the environment with the flag, else the system.
fn side_or(own: &ArgMatches<'_>) -> Side
    ensures { result ≡ side_asked (given_in (rows_of (found_of own.now))) }
{
    if is_flagged(own, "unrealizable") {
        Side::Environment
    } else {
        Side::System
    }
}

fn core_in<'a>(own: &ArgMatches<'a>) -> Option<Settings<'a>>
    ensures asked { option_map asked_by result ≡ core_asked (given_in (rows_of (found_of own.now))) }
    ensures ranges { IfSome result (λ s. IsInRange (asked_by s)) }
{
    Some(Settings::Core {
        spec: text_of(own, "spec")?,
        search: search_in(own, MOST_ALONE)?,
        kind: kind_or(own)?,
    })
}

fn batch_in<'a>(own: &ArgMatches<'a>) -> Option<Settings<'a>>
    ensures asked { option_map asked_by result ≡ batch_asked (given_in (rows_of (found_of own.now))) }
    ensures ranges { IfSome result (λ s. IsInRange (asked_by s)) }
{
    match text_of(own, "solve") {
        None => search_list_in(own),
        Some(list) => solve_list_in(own, list),
    }
}

fn search_list_in<'a>(own: &ArgMatches<'a>) -> Option<Settings<'a>>
    ensures asked { option_map asked_by result ≡ search_list_asked (given_in (rows_of (found_of own.now))) }
    ensures ranges { IfSome result (λ s. IsInRange (asked_by s)) }
{
    if is_given(own, "kind") {
        return None;
    }
    if is_given(own, "seconds") {
        return None;
    }
    Some(Settings::Batch {
        list: text_of(own, "list")?,
        search: search_in(own, MOST_IN_BATCH)?,
    })
}

fn solve_list_in<'a>(own: &ArgMatches<'a>, list: &'a str) -> Option<Settings<'a>>
    ensures asked { option_map asked_by result ≡ solve_list_asked list.entry.now (given_in (rows_of (found_of own.now))) }
    ensures ranges { IfSome result (λ s. IsInRange (asked_by s)) }
{
    if is_given(own, "list") {
        return None;
    }
    if is_given(own, "counts") {
        return None;
    }
    let max = refuted_count(own)?;
    let entries = refuted_limit(own)?;
    let workers = number_or(own, "workers", 4, 1, MOST_IN_BATCH)?;
    let seconds = seconds_or(own)?;
    let kind = kind_or(own)?;
    Some(Settings::SolveList {
        list,
        kind,
        max,
        entries,
        workers,
        seconds,
    })
}

fn solve_in<'a>(own: &ArgMatches<'a>) -> Option<Settings<'a>>
    ensures asked { option_map asked_by result ≡ solve_asked (given_in (rows_of (found_of own.now))) }
    ensures ranges { IfSome result (λ s. IsInRange (asked_by s)) }
{
    let spec = text_of(own, "spec")?;
    let max = refuted_count(own)?;
    let entries = refuted_limit(own)?;
    let workers = number_or(own, "workers", 4, 1, MOST_ALONE)?;
    let seconds = seconds_or(own)?;
    let kind = kind_or(own)?;
    Some(Settings::Solve {
        spec,
        kind,
        max,
        entries,
        workers,
        seconds,
    })
}

/// How many sizes are refuted at most, where that is given.
fn refuted_count(own: &ArgMatches<'_>) -> Option<Option<u32>>
    ensures asked { result ≡ refuted_count (given_in (rows_of (found_of own.now))) }
    ensures within { IfSome result (λ max. IfSome max (λ n. n ≤ 16)) }
{
    match text_of(own, "max") {
        None => Some(None),
        Some(text) => Some(Some(number_in(text, 0, MOST_REFUTED)?)),
    }
}

/// The most entries of a log of a refutation: few where it isn't said how many sizes are refuted.
fn refuted_limit(own: &ArgMatches<'_>) -> Option<Option<u64>>
    ensures asked { result ≡ refuted_limit (given_in (rows_of (found_of own.now))) }
    ensures within { IfSome result (λ limit. IfSome limit (λ n. n ≤ 250000)) }
{
    match text_of(own, "max") {
        None => limit_or(own, BRIEF_ENTRIES),
        Some(_) => limit_or(own, USUAL_ENTRIES),
    }
}

/// For how many seconds `solve` works at a text, where that is given.
fn seconds_or(own: &ArgMatches<'_>) -> Option<Option<u32>>
    ensures asked { result ≡ seconds_asked (given_in (rows_of (found_of own.now))) }
    ensures within { IfSome result (λ seconds. IfSome seconds (λ n. (1 ≤ n) × (n ≤ 86400))) }
{
    match text_of(own, "seconds") {
        None => Some(None),
        Some(text) => Some(Some(number_in(text, 1, MOST_SECONDS)?)),
    }
}

/// How a search is bounded, by at most so many states and workers.
fn search_in(own: &ArgMatches<'_>, most: u32) -> Option<Search>
    requires default { 4 ≤ most }
    requires most { most ≤ 8 }
    ensures asked { result ≡ search_asked most (given_in (rows_of (found_of own.now))) }
    ensures ranges { IfSome result (IsSearchInRange most) }
{
    let max = number_or(own, "max", 4, 1, most)?;
    let entries = limit_or(own, USUAL_ENTRIES)?;
    let workers = number_or(own, "workers", 4, 1, most)?;
    let counts = counts_or(own)?;
    Some(Search::new(max, entries, workers, counts))
}

/// The number that an option has, or its default.
fn number_or(own: &ArgMatches<'_>, id: &str, default: u32, least: u32, most: u32) -> Option<u32>
    requires default { (least ≤ default) × (default ≤ most) }
    ensures number { result ≡ number_or id.now default least most (given_in (rows_of (found_of own.now))) }
    ensures within { IfSome result (λ n. (least ≤ n) × (n ≤ most)) }
{
    match text_of(own, id) {
        None => Some(default),
        Some(text) => number_in(text, least, most),
    }
}

/// The most entries of a log, if there is a limit, or this default.
fn limit_or(own: &ArgMatches<'_>, default: u64) -> Option<Option<u64>>
    requires default { default ≤ 250000 }
    ensures asked { result ≡ limit_or default (given_in (rows_of (found_of own.now))) }
    ensures within { IfSome result (λ limit. IfSome limit (λ n. n ≤ 250000)) }
{
    match text_of(own, "entries") {
        None => Some(Some(default)),
        Some(text) => limit_in(text),
    }
}

fn limit_in(text: &str) -> Option<Option<u64>>
    ensures asked { result ≡ limit_in text.now }
    ensures within { IfSome result (λ limit. IfSome limit (λ n. n ≤ 250000)) }
{
    if text == "none" {
        return Some(None);
    }
    let entries = number_in(text, 0, MOST_ENTRIES)?;
    Some(Some(u64::from(entries)))
}

fn counts_or(own: &ArgMatches<'_>) -> Option<Counts>
    ensures { result ≡ counts_asked (given_in (rows_of (found_of own.now))) }
{
    match text_of(own, "counts") {
        None => Some(Counts::Whole),
        Some(text) => counts_in(text),
    }
}

fn counts_in(text: &str) -> Option<Counts>
    ensures { result ≡ counts_in text.now }
{
    match text {
        "whole" => Some(Counts::Whole),
        "local" => Some(Counts::Local),
        _ => None,
    }
}

fn kind_or(own: &ArgMatches<'_>) -> Option<Option<Kind>>
    ensures { result ≡ kind_asked (given_in (rows_of (found_of own.now))) }
{
    match text_of(own, "kind") {
        None => Some(None),
        Some(text) => kind_in(text),
    }
}

fn kind_in(text: &str) -> Option<Option<Kind>>
    ensures { result ≡ kind_in text.now }
{
    match text {
        "mealy" => Some(Some(Kind::Mealy)),
        "moore" => Some(Some(Kind::Moore)),
        _ => None,
    }
}

/// Whether a text was given for an argument.
fn is_given(own: &ArgMatches<'_>, id: &str) -> bool
    ensures { result ≡ is_some (given_in (rows_of (found_of own.now)) id.now) }
{
    text_of(own, id).is_some()
}

/// Whether a flag is there.
fn is_flagged(own: &ArgMatches<'_>, id: &str) -> bool
    ensures { result ≡ flag_asked id.now (given_in (rows_of (found_of own.now))) }
{
    match text_of(own, id) {
        Some(text) => text == "true",
        None => false,
    }
}

/// The text that was given for an argument.
fn text_of<'a>(own: &ArgMatches<'a>, id: &str) -> Option<&'a str>
    ensures { option_map (λ s. s.now) result ≡ first_of id.now (rows_of (found_of own.now)) }
{
    own.get_str(id)
}
