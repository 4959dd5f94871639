//! The judge of a table: the configuration in it, or its first flaw.

ghost use Rattle.std.specs.Prelude.{◌≡◌, None, MatchResult, IfOk, unwrap_or};
ghost use Rattle.toml.specs.View.{table_view};
ghost use Rattle.configuration.specs.Files.{text_at, config_in};
ghost use Rattle.configuration.specs.Flaws.{in_file, broken_in, flaw_in};
ghost use Rattle.configuration.specs.Judging.{IsRefusal};

use crate::config::Config;
use crate::fields::{config_in, said_number};
use crate::flaw::Flaw;
use crate::key::Key;
use crate::key_flaws::said_flaw;
use crate::rule_flaws::rules_flaw;
use crate::tables::text_at;
use std::alloc::{AllocError, Global};
use text::Text;
use toml::Table;

/// Why a table is refused.
#[derive(Drop)]
pub(crate) enum Refusal {
    OutOfMemory,
    Flawed(Flaw<'static>),
}

impl From<AllocError> for Refusal {
    ghost use Rattle.std.specs.Prelude.{◌≡◌};
    ghost use Rattle.configuration.specs.declared.judge.Refusal.TheVariants.{OutOfMemory};

    ghost from_gives = { λ _ r. r ≡ OutOfMemory };

    fn from(_error: AllocError) -> Refusal {
        Refusal::OutOfMemory
    }
}

/// A flaw that borrows nothing, if there is one.
fn kept(alloc: Global, flaw: Option<Flaw<'_>>) -> Result<Option<Flaw<'static>>, AllocError>
    ensures { IfOk result (λ f. f ≡ flaw.entry) }
{
    match flaw {
        Some(flaw) => Ok(Some(flaw.keep(alloc)?)),
        None => Ok(None),
    }
}

/// The text that a table has for a key, or else this one.
fn said_text<'t>(table: &'t Table, key: Key, text: Text<'t>) -> Text<'t>
    ensures { result ≡ unwrap_or (text_at key (table_view table.now)) text.entry }
{
    match text_at(table, key) {
        Some(said) => Text::lent(said.as_bytes()),
        None => text,
    }
}

/// The flaw with the number or the text that the file has: one that doesn't fit its field reads as 0.
fn in_file<'t>(table: &'t Table, flaw: Flaw<'t>) -> Flaw<'t>
    ensures { result ≡ in_file (table_view table.now) flaw.entry }
{
    match flaw {
        Flaw::OutOfRange(key, _) => Flaw::OutOfRange(key, said_number(table, key)),
        Flaw::Malformed(key, text) => Flaw::Malformed(key, said_text(table, key, text)),
        flaw => flaw,
    }
}

/// The first flaw for which the configuration in a table breaks a rule.
fn broken_in(
    alloc: Global,
    table: &Table,
    config: &Config,
) -> Result<Option<Flaw<'static>>, AllocError>
    ensures { IfOk result (λ flaw. flaw ≡ broken_in (table_view table.now) config.now) }
{
    match rules_flaw(config) {
        Some(flaw) => Ok(Some(in_file(table, flaw).keep(alloc)?)),
        None => Ok(None),
    }
}

/// The configuration in a table, if it has no flaw; otherwise its first flaw.
#[tactic(auto, using(crate::proofs::JudgeLaws::first_told, crate::proofs::JudgeLaws::then_told))]
pub(crate) fn judged(alloc: Global, table: &Table) -> Result<Config, Refusal>
    ensures { MatchResult result (λ c. (flaw_in (table_view table.now) ≡ None) × (c ≡ config_in (table_view table.now))) (IsRefusal (table_view table.now)) }
{
    if let Some(flaw) = kept(alloc, said_flaw(table))? {
        return Err(Refusal::Flawed(flaw));
    }
    let config = config_in(alloc, table)?;
    match broken_in(alloc, table, &config)? {
        Some(flaw) => Err(Refusal::Flawed(flaw)),
        None => Ok(config),
    }
}
