//! The command line.

ghost use Rattle.std.specs.Prelude.{◌≡◌, map, codes, Some, None, option_map, IfOk, OnOk, IfErr, IfSome, IfNone};
ghost use Rattle.clap.specs.declared.builder.command.Command.{Command};
ghost use Rattle.clap.specs.Simple.{with_subcommand};
ghost use Rattle.clap.specs.Words.{AddsSubcommand, app_of, first_value, found_of, subcommand_rows_of};
ghost use Rattle.server.specs.Words.{follow_app, given_turns, is_set, office_app, once_app, passes, replay_app, serve_app, turns_in, Asks, AsksIn, IsFollow, IsReplay, IsServe, LacksServe, RefusesWords};

use crate::turns::turns_of;
use crate::version::VERSION;
use clap::error::ErrorKind;
use clap::{Arg, ArgAction, ArgMatches, Command};
use std::alloc::{AllocError, AllocFailed, Global};
use std::fmt;
use thiserror::Error;

/// What the program is asked to do.
#[derive(Clone, Copy)]
pub enum Asked<'a> {
    /// Answer one datagram from standard input on standard output.
    Once,
    /// Run a script, on the office of a configuration or on the example office. Both are paths. What each event was
    /// about can be written as well.
    Replay {
        config: Option<&'a str>,
        script: &'a str,
        notes: bool,
    },
    /// Follow a script on standard input, on the office of a configuration or on the example office. What each event
    /// was about can be written as well.
    Follow {
        config: Option<&'a str>,
        notes: bool,
    },
    /// Serve telephones on the sockets of a configuration, until this many turns are made, or without end. The
    /// configuration is a path.
    Serve {
        config: &'a str,
        turns: Option<u64>,
    },
}

/// Why a command line is refused.
#[derive(Debug, Drop, Error)]
pub enum CommandError {
    /// The words ask for nothing that the program does.
    Words,
    /// They ask for help, which is this text.
    Help(String),
    /// Memory ran out before the words were read.
    OutOfMemory,
}

impl CommandError {
    ghost use Rattle.std.specs.Prelude.{◌≡◌, option_map};
    ghost use Rattle.server.specs.Statuses.{command_help_of, command_status_of, command_words_of};

    /// The exit status.
    pub fn status(&self) -> u8
        ensures { result ≡ command_status_of self.now }
    {
        match self {
            CommandError::Words | CommandError::Help(_) => 2,
            CommandError::OutOfMemory => 6,
        }
    }

    /// The words for standard error, without a line end.
    pub fn words(&self) -> &'static str
        ensures { result.now ≡ command_words_of self.now }
    {
        match self {
            CommandError::Words | CommandError::Help(_) => "office: command line",
            CommandError::OutOfMemory => "office: memory",
        }
    }

    /// The help that was asked for.
    pub fn help(&self) -> Option<&str>
        ensures { option_map (λ text. text.now) result ≡ command_help_of self.now }
    {
        match self {
            CommandError::Help(text) => Some(text.as_str()),
            CommandError::Words | CommandError::OutOfMemory => None,
        }
    }
}

impl fmt::Display for CommandError {
    ghost use Rattle.std.specs.Prelude.{Some};
    ghost use Rattle.server.specs.Statuses.{command_words_of};

    ghost output = { λ e. Some (command_words_of e) };

    fn fmt<W: fmt::Write>(&self, f: &mut fmt::Formatter<W>) -> fmt::Result {
        f.write_str(self.words())
    }
}

impl From<AllocError> for CommandError {
    ghost use Rattle.std.specs.Prelude.{◌≡◌};
    ghost use Rattle.server.specs.declared.words.CommandError.TheVariants.{OutOfMemory};

    ghost from_gives = { λ _ e. e ≡ OutOfMemory };

    fn from(_e: AllocError) -> CommandError {
        CommandError::OutOfMemory
    }
}

impl<T: Drop> From<AllocFailed<T>> for CommandError {
    ghost use Rattle.std.specs.Prelude.{◌≡◌};
    ghost use Rattle.server.specs.declared.words.CommandError.TheVariants.{OutOfMemory};

    ghost from_gives = { λ _ e. e ≡ OutOfMemory };

    fn from(_e: AllocFailed<T>) -> CommandError {
        CommandError::OutOfMemory
    }
}

/// The words of `serve`.
fn serve_words<'a>(alloc: Global) -> Result<Command<'a>, AllocError>
    ensures { IfOk result (λ c. (old new : Command) → AddsSubcommand old c new → app_of new ≡ with_subcommand (app_of old) serve_app.top) }
{
    let config = Arg::new(alloc, "config").long("config").required(true);
    let turns = Arg::new(alloc, "turns").long("turns");
    Command::new(alloc, "serve")
        .about("Serves telephones on the sockets of a configuration")
        .arg(config)?
        .arg(turns)
}

/// The words of `once`.
fn once_words<'a>(alloc: Global) -> Command<'a>
    ensures { (old new : Command) → AddsSubcommand old result new → app_of new ≡ with_subcommand (app_of old) once_app.top }
{
    Command::new(alloc, "once").about("Answers one datagram of standard input")
}

/// The words of `replay`.
fn replay_words<'a>(alloc: Global) -> Result<Command<'a>, AllocError>
    ensures { IfOk result (λ c. (old new : Command) → AddsSubcommand old c new → app_of new ≡ with_subcommand (app_of old) replay_app.top) }
{
    let config = Arg::new(alloc, "config").long("config");
    let script = Arg::new(alloc, "script").required(true);
    let notes = Arg::new(alloc, "notes")
        .long("notes")
        .action(ArgAction::SetTrue);
    Command::new(alloc, "replay")
        .about("Writes what is sent at the events of a script")
        .arg(config)?
        .arg(script)?
        .arg(notes)
}

/// The words of `follow`.
fn follow_words<'a>(alloc: Global) -> Result<Command<'a>, AllocError>
    ensures { IfOk result (λ c. (old new : Command) → AddsSubcommand old c new → app_of new ≡ with_subcommand (app_of old) follow_app.top) }
{
    let config = Arg::new(alloc, "config").long("config");
    let notes = Arg::new(alloc, "notes")
        .long("notes")
        .action(ArgAction::SetTrue);
    Command::new(alloc, "follow")
        .about("Writes what is sent at the events of standard input, as they come")
        .arg(config)?
        .arg(notes)
}

/// The words that the program takes.
fn office<'a>(alloc: Global) -> Result<Command<'a>, AllocError>
    ensures { IfOk result (λ c. app_of c ≡ office_app) }
{
    let once = once_words(alloc);
    let office = Command::new(alloc, "office")
        .about("The call server of an office")
        .version(VERSION)
        .subcommand_required(true);
    office
        .subcommand(once)?
        .subcommand(replay_words(alloc)?)?
        .subcommand(follow_words(alloc)?)?
        .subcommand(serve_words(alloc)?)
}

/// Whether a flag is set.
fn is_set(value: Option<&str>) -> bool
    ensures { result ≡ is_set (option_map (λ t. t.now) value.entry) }
{
    match value {
        None => false,
        Some(value) => value.as_bytes() == b"true".as_slice(),
    }
}

/// What the arguments of `replay` ask for.
fn replay_by<'a>(matches: &ArgMatches<'a>) -> Option<Asked<'a>>
    ensures some { IfSome result (λ a. IsReplay (first_value (found_of matches.now) (codes "config")) (first_value (found_of matches.now) (codes "script")) (first_value (found_of matches.now) (codes "notes")) a) }
    ensures none { IfNone result (first_value (found_of matches.now) (codes "script") ≡ None) }
{
    let script = matches.get_str("script")?;
    Some(Asked::Replay {
        config: matches.get_str("config"),
        script,
        notes: is_set(matches.get_str("notes")),
    })
}

/// What the arguments of `follow` ask for.
fn follow_by<'a>(matches: &ArgMatches<'a>) -> Asked<'a>
    ensures { IsFollow (first_value (found_of matches.now) (codes "config")) (first_value (found_of matches.now) (codes "notes")) result }
{
    Asked::Follow {
        config: matches.get_str("config"),
        notes: is_set(matches.get_str("notes")),
    }
}

/// This many turns, if it is a number of turns.
fn given_turns(turns: Option<u64>) -> Option<Option<u64>>
    ensures { result ≡ given_turns turns }
{
    match turns {
        None => None,
        Some(turns) => Some(Some(turns)),
    }
}

/// This many turns, or no end if no number is given. None if the text is no number of turns.
fn turns_in(text: Option<&str>) -> Option<Option<u64>>
    ensures { result ≡ turns_in (option_map (λ t. t.now) text.entry) }
{
    match text {
        None => Some(None),
        Some(text) => given_turns(turns_of(text.as_bytes())),
    }
}

/// What the arguments of `serve` ask for.
fn serve_by<'a>(matches: &ArgMatches<'a>) -> Option<Asked<'a>>
    ensures some { IfSome result (λ a. IsServe (first_value (found_of matches.now) (codes "config")) (first_value (found_of matches.now) (codes "turns")) a) }
    ensures none { IfNone result (LacksServe (first_value (found_of matches.now) (codes "config")) (first_value (found_of matches.now) (codes "turns"))) }
{
    let config = matches.get_str("config")?;
    let turns = turns_in(matches.get_str("turns"))?;
    Some(Asked::Serve { config, turns })
}

fn asked_by<'a>(matches: &ArgMatches<'a>) -> Option<Asked<'a>>
    ensures some { IfSome result (λ a. AsksIn (subcommand_rows_of matches.now) a) }
    ensures none { IfNone result ((a : Asked) → AsksIn (subcommand_rows_of matches.now) a → ⊥) }
{
    let (name, below) = matches.subcommand()?;
    if name == "once" {
        Some(Asked::Once)
    } else if name == "replay" {
        replay_by(below)
    } else if name == "follow" {
        Some(follow_by(below))
    } else if name == "serve" {
        serve_by(below)
    } else {
        None
    }
}

/// Reads a command line, whose first word is the program's own name. A call for help is refused like any other words
/// that ask for nothing, and its text is returned.
#[tactic(auto, unfolding(crate::specs::Words::entered_by, crate::specs::Words::is_taken, crate::specs::Words::passes))]
pub fn command<'a>(alloc: Global, words: &'a [&'a str]) -> Result<Asked<'a>, CommandError>
    // What the words ask for.
    ensures asked { IfOk result (λ a. Asks (map (λ w. w.now) words.now) a) }
    // Only words in which the parser finds no fault ask for anything.
    ensures passes { OnOk result (passes (map (λ w. w.now) words.now)) }
    ensures refused { IfErr result (λ e. RefusesWords (map (λ w. w.now) words.now) e) }
{
    let office = office(alloc)?;
    match office.try_get_matches_from(words) {
        Ok(matches) => asked_by(&matches).ok_or(CommandError::Words),
        Err(error) => {
            if error.kind() == ErrorKind::OutOfMemory {
                Err(CommandError::OutOfMemory)
            } else if error.use_stderr() {
                Err(CommandError::Words)
            } else {
                Err(CommandError::Help(format!(in alloc; "{error}")?))
            }
        }
    }
}
