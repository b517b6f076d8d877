//! The command line as it is described to `clap`. Each command takes any number of positionals and of values of `--turns`, as
//! texts: whether it needs just these is tested after the parse.
ghost use Rattle.std.specs.Prelude.{◌≡◌, IfOk, false, fold, map};
ghost use Rattle.clap.specs.Words.{app_of, rule_of};
ghost use Rattle.clap.specs.declared.builder.command.Command.TheViews.{out-Command};
ghost use Rattle.cpg_words.specs.Line.{positionals_rule, turns_rule, plain_app, sub_app, top_app, with_command, line_app};

use clap::{Arg, ArgAction, Command};
use std::alloc::{AllocError, Global};

/// Returns the argument `words`, which takes all positionals of a command.
fn positionals<'a>(alloc: Global) -> Arg<'a>
    ensures rule { rule_of result ≡ positionals_rule }
    ensures local { result.global ≡ false }
{
    Arg::new(alloc, "words").action(ArgAction::Append)
}

/// Returns the argument `turns`, which takes all values of `--turns`.
fn turns<'a>(alloc: Global) -> Arg<'a>
    ensures rule { rule_of result ≡ turns_rule }
    ensures local { result.global ≡ false }
{
    Arg::new(alloc, "turns")
        .long("turns")
        .action(ArgAction::Append)
}

/// Returns a command without the flags for help and version, which `clap` would add.
fn plain<'a>(alloc: Global, name: &'a str) -> Command<'a>
    ensures app { app_of result ≡ plain_app name.entry.now }
    ensures local { (out-Command result).has_globals ≡ false }
{
    Command::new(alloc, name)
        .disable_help_flag(true)
        .disable_version_flag(true)
}

/// Returns the subcommand of this name, with its positionals and `--turns`. It fails only if memory runs out.
fn form<'a>(alloc: Global, name: &'a str) -> Result<Command<'a>, AllocError>
    ensures app { IfOk result (λ c. app_of c ≡ sub_app name.entry.now) }
    ensures local { IfOk result (λ c. (out-Command c).has_globals ≡ false) }
{
    let named = plain(alloc, name).arg(positionals(alloc))?;
    let form = named.arg(turns(alloc))?;
    Ok(form)
}

/// Returns the command line before its subcommands are added. Its first word must be the name of one.
fn top<'a>(alloc: Global) -> Command<'a>
    ensures { app_of result ≡ top_app }
{
    plain(alloc, "cpgc")
        .no_binary_name(true)
        .disable_help_subcommand(true)
        .subcommand_required(true)
}

/// Returns the line with one more subcommand. It fails only if memory runs out.
fn with_form<'a>(alloc: Global, line: Command<'a>, name: &'a str) -> Result<Command<'a>, AllocError>
    ensures { IfOk result (λ c. app_of c ≡ with_command (app_of line.entry) name.entry.now) }
{
    let more = line.subcommand(form(alloc, name)?)?;
    Ok(more)
}

/// Returns the line with these subcommands added. It fails only if memory runs out.
fn with_forms<'a>(
    alloc: Global,
    line: Command<'a>,
    names: &[&'a str],
) -> Result<Command<'a>, AllocError>
    ensures { IfOk result (λ c. app_of c ≡ fold with_command (app_of line.entry) (map (λ name. name.now) names.now)) }
{
    let mut line = line;
    for name in names {
        line = with_form(alloc, line, name)?;
    }
    Ok(line)
}

/// Returns the command line with all its subcommands. It fails only if memory runs out.
pub fn line<'a>(alloc: Global) -> Result<Command<'a>, AllocError>
    ensures { IfOk result (λ c. app_of c ≡ line_app) }
{
    let names = [
        "show", "compile", "check", "play", "node", "trial", "live", "hyper", "tune", "audit",
    ];
    with_forms(alloc, top(alloc), &names)
}
