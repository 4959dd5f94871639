//! How many file descriptors a server needs, and how many the process may have.

ghost use Rattle.std.specs.Prelude.{◌≡◌, ◌<◌, IfSome};
ghost use Rattle.host.specs.Descriptors.{descriptors_needed, sum_needed, too_few};

use configuration::Config;
use std::fs;
use std::fs::Files;
use thiserror::Error;

/// The process may have `limit` file descriptors, and a server needs `needed`, which are more.
#[derive(Clone, Copy, Debug, Error)]
#[error("fd limit {limit}, {needed} are needed")]
pub struct TooFewDescriptors {
    pub limit: u64,
    pub needed: u64,
}

/// How many descriptors the page takes: its socket, what waits for it, and its connections.
const FOR_THE_PAGE: u64 = 34;

/// The socket for SIP, what the signalling waits with, the standard streams, and one to spare.
const FOR_ALL: u64 = 6;

/// For this many pairs of relay ports and workers, and a page if there is one.
fn sum_needed(pairs: u16, workers: u8, has_page: bool) -> u64
    ensures { result ≡ sum_needed pairs workers has_page }
{
    let of_page = if has_page { FOR_THE_PAGE } else { 0 };
    2 * u64::from(pairs) + u64::from(workers) + of_page + FOR_ALL
}

fn descriptors_needed(config: &Config) -> u64
    ensures { result ≡ descriptors_needed config.now }
{
    sum_needed(config.relay_pairs, config.workers, config.status.is_some())
}

fn too_few(limit: u64, needed: u64) -> Option<TooFewDescriptors>
    ensures { result ≡ too_few limit needed }
{
    if limit < needed {
        Some(TooFewDescriptors { limit, needed })
    } else {
        None
    }
}

/// How many file descriptors the process may have, if Linux says so.
fn descriptor_limit<R: Files + AllocGlobal>(rt: &R) -> Option<u64> {
    let told = fs::read(rt, "/proc/self/limits").ok()?;
    let text = str::from_utf8(&told).ok()?;
    let (_, behind) = text.split_once("Max open files")?;
    behind.split_whitespace().next()?.parse::<u64>().ok()
}

/// Reports that the process may have fewer file descriptors than a server with this configuration needs. None if it
/// may have enough, or if Linux doesn't say how many.
pub fn lacks_descriptors<R: Files + AllocGlobal>(
    rt: &R,
    config: &Config,
) -> Option<TooFewDescriptors>
    ensures needed { IfSome result (λ few. few.needed ≡ descriptors_needed config.now) }
    ensures fewer { IfSome result (λ few. few.limit < few.needed) }
{
    too_few(descriptor_limit(rt)?, descriptors_needed(config))
}
