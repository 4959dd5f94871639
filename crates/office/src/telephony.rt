//! An office on sockets.

use crate::opening::open_all;
use crate::parts::Parts;
use crate::serving::serve_on_board;
use crate::shared::Shared;
use agent::Tally;
use configuration::Config;
use host::{Refusal, warning};
use live_users::FileEnds;
use operator::tally_line;
use server::{Host, HostFault};
use sockets::LastWords;
use std::alloc::Global;
use std::fs::Files;
use std::net::Net;
use std::rt::Clock;
use std::snapshot::Snapshot;
use std::sync::Wait;
use std::thread::Threads;

/// Serves with the sockets, the clock and the threads of a runtime.
#[derive(Drop)]
pub(crate) struct Telephony<'a, R> {
    pub(crate) rt: &'a R,
    /// The ends of the thread that looks at the configuration's file while telephones are served.
    pub(crate) file: Option<FileEnds>,
    /// What was asked for last. Only clauses read it.
    pub(crate) request: Option<(Snapshot<Config>, Option<u64>)>,
    /// Why no sockets were opened, if none were.
    pub(crate) refusal: Option<Refusal>,
    pub(crate) last_words: LastWords<'a, R>,
}

/// Writes a line that says how events were answered.
fn report<R: Wait>(last_words: &mut LastWords<'_, R>, alloc: Global, tally: Tally) {
    if let Ok(line) = tally_line(alloc, tally) {
        last_words.put(line.as_bytes());
    }
}

/// Writes the warning of a configuration, if it has one.
fn warn<R: Wait>(last_words: &mut LastWords<'_, R>, config: &Config) {
    if let Some(warning) = warning(config) {
        last_words.put(warning.as_bytes());
    }
}

impl<R: Net + Files + Clock + Threads + Wait + Sync + Shared + Print + AllocGlobal> Host
    for Telephony<'_, R> {
    ghost use Rattle.std.specs.Prelude.{option_map};

    ghost asked = { λ t. option_map (λ p. (p.0.value, p.1)) t.request };

    fn serve(&mut self, config: &Config, turns: Option<u64>) -> Result<(), HostFault> {
        self.request = Some((Snapshot::of(config), turns));
        warn(&mut self.last_words, config);
        let opened = match open_all(self.rt, config) {
            Ok(opened) => opened,
            Err(refusal) => {
                self.refusal = Some(refusal);
                return Err(refusal.fault());
            }
        };
        let parts = Parts::new(self.rt, config, opened, self.file.take(), turns)?;
        let (tally, ended) = serve_on_board(self.rt, config, parts)?;
        report(&mut self.last_words, self.rt.alloc(), tally);
        ended
    }
}
