//! The agent of a configuration.

ghost use Rattle.std.specs.Prelude.{◌≡◌, [], IfOk, IfErr, OnOk};
ghost use Rattle.configuration.specs.Rules.{KeepsRules};
ghost use Rattle.registrar.specs.Registrar.{StandsAfter};
ghost use Rattle.event_rows.specs.Lifetimes.{lifetime_of};
ghost use Rattle.event_rows.specs.State.{HasKey, IsNew, RefusesConfig, binding_rules_of, range_of, rules_by, server_of, table_rules_of};
ghost use Rattle.media_laws.specs.Standing.{AgentStands};

use crate::agent::Agent;
use calls::Calls;
use configuration::{Config, ConfigError, check};
use event_rows::Tally;
use index::PrintKey;
use media_laws::agents_stand;
use message_laws::configuration_names_an_address;
use offer_answer::OwnRange;
use plans::Note;
use registrar::{BindingRules, Registrar};
use sip_uri::Addr;
use std::alloc::{AllocError, Global};
use text::{Text, Texts};
use transactions::{Table, TableRules};

pub(crate) fn kept_texts(
    alloc: Global,
    texts: &[Text<'static>],
) -> Result<Texts<'static>, AllocError>
    ensures { IfOk result (λ kept. kept ≡ texts.now) }
{
    let mut kept = Vec::new(alloc);
    for text in texts {
        kept.push(text.keep(alloc)?)?;
    }
    Ok(Texts::from_vec(kept))
}

fn binding_rules_of(config: &Config) -> BindingRules
    ensures { result ≡ binding_rules_of config.now }
{
    BindingRules {
        min_expires: config.min_expires,
        max_expires: config.max_expires,
        oldest_leaves: config.oldest_leaves,
    }
}

fn registrar_of(alloc: Global, key: PrintKey, config: &Config) -> Result<Registrar, AllocError>
    requires { KeepsRules config.now }
    ensures stands { IfOk result (λ r. StandsAfter r (rules_by config.now) []) }
    ensures key { IfOk result (λ r. r.key ≡ key) }
{
    let users = kept_texts(alloc, config.users.as_slice())?;
    let domain = config.domain_text(alloc)?;
    Registrar::new(
        alloc,
        key,
        users,
        config.ip,
        config.sip_port,
        domain,
        binding_rules_of(config),
    )
}

fn server_of(config: &Config) -> Addr
    ensures { result ≡ server_of config.now }
{
    Addr {
        ip: config.ip,
        port: config.sip_port,
    }
}

/// How long a callee's telephone has for its first response, and how many server transactions one address may have.
fn table_rules_of(config: &Config) -> TableRules
    ensures { result ≡ table_rules_of config.now }
{
    TableRules {
        first_wait: 1_000 * u64::from(config.answer_within),
        share: config.source_share.map(|count| count as usize),
    }
}

fn range_of(config: &Config) -> OwnRange
    requires { KeepsRules config.now }
    ensures { result ≡ range_of config.now }
{
    OwnRange {
        ip: config.ip,
        first: config.relay_first,
        last: config.relay_first + (2 * config.relay_pairs - 1),
    }
}

/// How many milliseconds a call may last, where the configuration limits that.
fn lifetime_of(config: &Config) -> Option<u64>
    ensures { result ≡ lifetime_of config.now }
{
    config
        .longest_call_hours
        .map(|hours| 3_600_000 * u64::from(hours))
}

impl Agent {
    /// An agent to which nothing has happened, which stands after the empty trace. The configuration keeps the rules,
    /// or the first that it breaks is returned. Transactions, calls and users are looked up by prints under this key.
    /// No clause on what is sent mentions it, so that doesn't depend on the key.
    pub fn new(alloc: Global, key: PrintKey, config: &Config) -> Result<Agent, ConfigError>
        ensures new { IfOk result (IsNew config.now) }
        ensures stands { IfOk result (λ agent. AgentStands agent [] 0) }
        ensures key { IfOk result (HasKey key) }
        ensures kept { OnOk result (KeepsRules config.now) }
        ensures refused { IfErr result (RefusesConfig config.now) }
    {
        agents_stand();
        configuration_names_an_address(config);
        Agent::made(alloc, key, config)
    }

    #[tactic(auto, using(crate::proofs::ConfigLaws::refuses))]
    fn made(alloc: Global, key: PrintKey, config: &Config) -> Result<Agent, ConfigError>
        ensures new { IfOk result (IsNew config.now) }
        ensures key { IfOk result (HasKey key) }
        ensures kept { OnOk result (KeepsRules config.now) }
        ensures refused { IfErr result (RefusesConfig config.now) }
    {
        check(config)?;
        let registrar = registrar_of(alloc, key, config)?;
        let calls = Calls::new(alloc, key, config.relay_first, config.relay_pairs)?;
        Ok(Agent {
            alloc,
            registrar,
            table: Table::new(alloc, key, table_rules_of(config)),
            calls,
            acks: Vec::new(alloc),
            changes: Vec::new(alloc),
            server: server_of(config),
            range: range_of(config),
            least: config.min_expires,
            lifetime: lifetime_of(config),
            moment: 0,
            tokens: 0,
            tally: Tally::none_counted(),
            note: Note::Quiet,
            registered: None,
        })
    }
}
