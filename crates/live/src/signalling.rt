//! The signalling as one value: what it begins with, and its end.

ghost use Rattle.std.specs.Prelude.{◌≡◌, [], IfErr, IfOk};
ghost use Rattle.event_rows.specs.State.{HasKey, IsNew};
ghost use Rattle.media_laws.specs.Standing.{AgentStands};
ghost use Rattle.std.specs.Duration.{as_nanos};
ghost use Rattle.live.specs.Salts.{after_salt, print_key_at};
ghost use Rattle.live.specs.Starts.{begun_at};
ghost use Rattle.live.specs.Turns.{HasTable};

use crate::buffer::{DatagramBuffer, datagram_buffer};
use crate::salt::{next_print_key, salts_of};
use agent::Agent;
use configuration::{Config, ConfigError};
use rand_chacha::ChaCha20Rng;
use relay::Board;
use std::alloc::Global;
use std::sync::Wait;
use std::time::Duration;

/// The agent with its board, its socket, its salts and a buffer for one datagram. It is not `Drop`, since the board
/// is not: end it with `close`.
pub struct Signalling<W> {
    pub alloc: Global,
    pub agent: Agent,
    pub board: Board,
    pub wire: W,
    pub salts: ChaCha20Rng,
    pub buffer: DatagramBuffer,
}

impl<W> Signalling<W> {
    /// The signalling of a configuration, to which nothing has happened, on a board and a wire. Its salts are those
    /// of the configured key at `start`, the time since 1970, after those of the print key. The board is returned if
    /// the signalling can't be made.
    pub fn new(
        alloc: Global,
        config: &Config,
        board: Board,
        wire: W,
        start: Duration,
    ) -> Result<Signalling<W>, (Board, ConfigError)>
    where
        W: Drop,
        ensures agent { IfOk result (λ signalling. IsNew config.now signalling.agent) }
        ensures stands { IfOk result (λ signalling. AgentStands signalling.agent [] 0) }
        ensures key { IfOk result (λ signalling. HasKey (print_key_at (begun_at config.now.random_key (as_nanos start))) signalling.agent) }
        ensures board { IfOk result (λ signalling. signalling.board ≡ board) }
        ensures wire { IfOk result (λ signalling. signalling.wire ≡ wire) }
        ensures salts { IfOk result (λ signalling. signalling.salts
            ≡ after_salt (after_salt (begun_at config.now.random_key (as_nanos start)))) }
        ensures table { board ≡ [] → IfOk result (λ signalling. HasTable signalling.board signalling.agent) }
        ensures err { IfErr result (λ refused. refused.0 ≡ board) }
    {
        let mut salts = salts_of(config.random_key, start);
        let agent = match Agent::new(alloc, next_print_key(&mut salts), config) {
            Ok(agent) => agent,
            Err(error) => {
                drop(wire);
                return Err((board, error));
            }
        };
        let Ok(buffer) = datagram_buffer(alloc) else {
            drop(agent);
            drop(wire);
            return Err((board, ConfigError::OutOfMemory));
        };
        Ok(Signalling {
            alloc,
            agent,
            board,
            wire,
            salts,
            buffer,
        })
    }

    /// Ends the board: no look-ups are admitted from then on.
    pub fn close<R: Wait>(self, rt: &R)
    where
        W: Drop,
    {
        let Signalling {
            alloc: _,
            agent,
            board,
            wire,
            salts: _,
            buffer,
        } = self;
        board.close(rt);
        drop(agent);
        drop(wire);
        drop(buffer);
    }
}
