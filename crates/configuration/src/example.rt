//! The example office.

ghost use Rattle.std.specs.Prelude.{◌≡◌, IfOk};
ghost use Rattle.configuration.specs.Example.{example};

use crate::config::Config;
use crate::level::LogLevel;
use std::alloc::{AllocError, Global};
use text::{Text, Texts};

/// The office's users, 100, 101 and 102.
fn example_users(alloc: Global) -> Result<Texts<'static>, AllocError>
    ensures { IfOk result (λ us. us ≡ example.users) }
{
    let first = Text::from_slice(alloc, b"100")?;
    let second = Text::from_slice(alloc, b"101")?;
    let third = Text::from_slice(alloc, b"102")?;
    let mut users = Vec::new(alloc);
    users.push(first)?;
    users.push(second)?;
    users.push(third)?;
    Ok(Texts::from_vec(users))
}

/// How the example office is configured.
pub fn example_config(alloc: Global) -> Result<Config, AllocError>
    ensures { IfOk result (λ config. config ≡ example) }
{
    let domain = Text::from_slice(alloc, b"office.example")?;
    let users = example_users(alloc)?;
    Ok(Config {
        relay_first: 40000,
        relay_pairs: 8,
        ip: [192, 0, 2, 1],
        sip_port: 5060,
        users,
        min_expires: 60,
        max_expires: None,
        oldest_leaves: false,
        silent_minutes: None,
        longest_call_hours: None,
        source_share: None,
        domain: Some(domain),
        workers: 2,
        random_key: [0; 32],
        log: LogLevel::Calls,
        answer_within: 32,
        status: None,
    })
}
