//! The values of a configuration.

ghost use Rattle.std.specs.Prelude.{IfOk, ◌≡◌};

use crate::level::LogLevel;
use sip_uri::{Addr, put_ip4};
use std::alloc::{AllocError, Global};
use text::{Text, Texts};

/// How an office is configured. It may break any of the rules.
pub struct Config {
    /// The first relay port.
    pub relay_first: u16,
    /// How many pairs of relay ports there are.
    pub relay_pairs: u16,
    /// The server's address.
    pub ip: [u8; 4],
    /// The port that the server uses for SIP.
    pub sip_port: u16,
    /// Who may register.
    pub users: Texts<'static>,
    /// The minimum lifetime of a binding, in seconds.
    pub min_expires: u32,
    /// The maximum lifetime of a binding, in seconds; none if a binding lasts as long as the telephone asks for.
    pub max_expires: Option<u32>,
    /// Whether the least recently refreshed bindings are removed when a user would have too many.
    pub oldest_leaves: bool,
    /// The minutes after which an answered call without media is ended, if there is such a limit.
    pub silent_minutes: Option<u32>,
    /// The hours after its first answer at which a call is ended, if there is such a limit.
    pub longest_call_hours: Option<u32>,
    /// The maximum number of live server transactions for the requests of one source address, 1 to 4,096; none if
    /// there is no such limit.
    pub source_share: Option<u32>,
    /// The office's domain. If none is named, it is the server's address.
    pub domain: Option<Text<'static>>,
    /// How many threads carry media.
    pub workers: u8,
    /// The key of the random numbers from which salts are taken.
    pub random_key: [u8; 32],
    /// How much the server logs of what it does.
    pub log: LogLevel,
    /// The seconds that a callee's telephone has for its first response to an INVITE.
    pub answer_within: u8,
    /// Where the status page is served, which shows what the server does, if it is served.
    pub status: Option<Addr>,
}

impl Drop for Config {
    fn drop(self) {
        let Config {
            relay_first: _,
            relay_pairs: _,
            ip: _,
            sip_port: _,
            users: _,
            min_expires: _,
            max_expires: _,
            oldest_leaves: _,
            silent_minutes: _,
            longest_call_hours: _,
            source_share: _,
            domain: _,
            workers: _,
            random_key: _,
            log: _,
            answer_within: _,
            status: _,
        } = self;
    }
}

impl Config {
    ghost use Rattle.configuration.specs.Domain.{domain_text};

    /// The text of the office's domain: the configured name, or the server's address.
    pub fn domain_text(&self, alloc: Global) -> Result<Text<'static>, AllocError>
        ensures { IfOk result (λ text. text ≡ domain_text self.now) }
    {
        match &self.domain {
            Some(name) => name.keep(alloc),
            None => address_text(alloc, &self.ip),
        }
    }
}

ghost use Rattle.sip_uri.specs.Writing.{ip4_text};

fn address_text(alloc: Global, ip: &[u8; 4]) -> Result<Text<'static>, AllocError>
    ensures { IfOk result (λ text. text ≡ ip4_text ip.now) }
{
    let mut text = Vec::new(alloc);
    put_ip4(&mut text, ip)?;
    Ok(Text::from_vec(text))
}
