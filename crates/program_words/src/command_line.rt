//! The command line, as `clap` is set up.
ghost use Rattle.std.specs.Prelude.{◌≡◌, [], ◌∷◌, false, IfOk};
ghost use Rattle.clap.specs.Words.{app_of, rule_of};
ghost use Rattle.program_words.specs.CommandLine.{IsSetUpAs, batch, bench, check, expand, flag, gen, lasso, option, optional, program, required, searching, solve, verify};

use clap::{Arg, ArgAction, Command};
use std::alloc::{AllocError, Global};

/// The whole command line. It has no help.
pub(crate) fn program<'a>(alloc: Global) -> Result<Command<'a>, AllocError>
    ensures { IfOk result (λ c. app_of c ≡ program) }
{
    let program = Command::new(alloc, "boundsyn")
        .disable_help_flag(true)
        .disable_help_subcommand(true)
        .subcommand_required(true);
    program
        .subcommand(searching(alloc, "synth")?)?
        .subcommand(check(alloc)?)?
        .subcommand(expand(alloc)?)?
        .subcommand(lasso(alloc)?)?
        .subcommand(generate(alloc)?)?
        .subcommand(bench(alloc)?)?
        .subcommand(verify(alloc)?)?
        .subcommand(searching(alloc, "core")?)?
        .subcommand(batch(alloc)?)?
        .subcommand(solve(alloc)?)
}

/// A command that searches for a machine of one text.
fn searching<'a>(alloc: Global, name: &'a str) -> Result<Command<'a>, AllocError>
    ensures { IfOk result (IsSetUpAs (searching name.entry.now)) }
{
    Command::new(alloc, name)
        .arg(required(alloc, "spec"))?
        .arg(option(alloc, "max"))?
        .arg(option(alloc, "entries"))?
        .arg(option(alloc, "workers"))?
        .arg(option(alloc, "counts"))?
        .arg(option(alloc, "kind"))
}

fn check<'a>(alloc: Global) -> Result<Command<'a>, AllocError>
    ensures { IfOk result (IsSetUpAs check) }
{
    Command::new(alloc, "check")
        .arg(required(alloc, "spec"))?
        .arg(required(alloc, "certificate"))
}

fn expand<'a>(alloc: Global) -> Result<Command<'a>, AllocError>
    ensures { IfOk result (IsSetUpAs expand) }
{
    Command::new(alloc, "expand")
        .arg(required(alloc, "spec"))?
        .arg(flag(alloc, "solve"))?
        .arg(option(alloc, "kind"))?
        .arg(flag(alloc, "nodes"))
}

fn lasso<'a>(alloc: Global) -> Result<Command<'a>, AllocError>
    ensures { IfOk result (IsSetUpAs lasso) }
{
    Command::new(alloc, "lasso")
        .arg(required(alloc, "spec"))?
        .arg(required(alloc, "word"))?
        .arg(flag(alloc, "solve"))?
        .arg(option(alloc, "kind"))
}

fn generate<'a>(alloc: Global) -> Result<Command<'a>, AllocError>
    ensures { IfOk result (IsSetUpAs gen) }
{
    Command::new(alloc, "gen").arg(required(alloc, "clients"))
}

fn bench<'a>(alloc: Global) -> Result<Command<'a>, AllocError>
    ensures { IfOk result (IsSetUpAs bench) }
{
    Command::new(alloc, "bench")
        .arg(required(alloc, "clients"))?
        .arg(option(alloc, "workers"))
}

fn verify<'a>(alloc: Global) -> Result<Command<'a>, AllocError>
    ensures { IfOk result (IsSetUpAs verify) }
{
    Command::new(alloc, "verify")
        .arg(required(alloc, "spec"))?
        .arg(required(alloc, "circuit"))?
        .arg(option(alloc, "kind"))?
        .arg(flag(alloc, "unrealizable"))
}

fn batch<'a>(alloc: Global) -> Result<Command<'a>, AllocError>
    ensures { IfOk result (IsSetUpAs batch) }
{
    Command::new(alloc, "batch")
        .arg(optional(alloc, "list"))?
        .arg(option(alloc, "solve"))?
        .arg(option(alloc, "max"))?
        .arg(option(alloc, "entries"))?
        .arg(option(alloc, "workers"))?
        .arg(option(alloc, "counts"))?
        .arg(option(alloc, "kind"))?
        .arg(option(alloc, "seconds"))
}

fn solve<'a>(alloc: Global) -> Result<Command<'a>, AllocError>
    ensures { IfOk result (IsSetUpAs solve) }
{
    Command::new(alloc, "solve")
        .arg(required(alloc, "spec"))?
        .arg(option(alloc, "max"))?
        .arg(option(alloc, "entries"))?
        .arg(option(alloc, "workers"))?
        .arg(option(alloc, "kind"))?
        .arg(option(alloc, "seconds"))
}

/// What must be given, by its place.
fn required<'a>(alloc: Global, id: &'a str) -> Arg<'a>
    ensures rule { rule_of result ≡ required id.entry.now }
    ensures own { result.global ≡ false }
{
    Arg::new(alloc, id).required(true)
}

/// What may be given, by its place.
fn optional<'a>(alloc: Global, id: &'a str) -> Arg<'a>
    ensures rule { rule_of result ≡ optional id.entry.now }
    ensures own { result.global ≡ false }
{
    Arg::new(alloc, id)
}

/// A flag `--name`.
fn flag<'a>(alloc: Global, name: &'a str) -> Arg<'a>
    ensures rule { rule_of result ≡ flag name.entry.now }
    ensures own { result.global ≡ false }
{
    Arg::new(alloc, name).long(name).action(ArgAction::SetTrue)
}

/// An option `--name value`.
fn option<'a>(alloc: Global, name: &'a str) -> Arg<'a>
    ensures rule { rule_of result ≡ option name.entry.now }
    ensures own { result.global ≡ false }
{
    Arg::new(alloc, name).long(name)
}
