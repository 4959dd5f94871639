//! A whole run of the program, over its words, its files and its streams.

ghost use Rattle.std.specs.Prelude.{◌≡◌, map, option_map, IfErr, OnOk};
ghost use Rattle.server.specs.Endings.{Ends};
ghost use Rattle.server.specs.Stream.{Follows, FollowLeaves};
ghost use Rattle.server.specs.Replay.{Replays, ReplayLeaves};
ghost use Rattle.server.specs.Serve.{Serves, ServeLeaves};

use crate::day::replay;
use crate::ending::Ending;
use crate::fault::Fault;
use crate::host::Host;
use crate::service::serve;
use crate::shelf::Shelf;
use crate::single::once;
use crate::stream::follow;
use crate::words::{Asked, command};
use std::alloc::Global;
use std::io::{Read, Write};

/// The file at a path, if there is one.
fn file_of<F: Shelf>(shelf: &F, path: Option<&str>) -> Option<F::File>
    ensures { option_map (λ f. F.File.remaining f) result ≡ option_map (λ p. F.contents shelf.now p.now) path.entry }
{
    match path {
        Some(path) => Some(shelf.open(path)),
        None => None,
    }
}

/// `replay` over files.
fn replay_files<F: Shelf, W: Write>(
    alloc: Global,
    shelf: &F,
    config: Option<&str>,
    script: &str,
    notes: bool,
    writer: &mut W,
) -> Result<(), Fault>
    ensures written { OnOk result (Replays notes (option_map (λ path. F.contents shelf.now path.now) config.entry) (F.contents shelf.now script.now) (W.contents writer.old) (W.contents writer.new)) }
    ensures refused { IfErr result (λ e. ReplayLeaves notes (option_map (λ path. F.contents shelf.now path.now) config.entry) (F.contents shelf.now script.now) e (W.contents writer.old) (W.contents writer.new)) }
{
    let config = file_of(shelf, config);
    replay(alloc, config, shelf.open(script), notes, writer)
}

/// `follow` over a file and the input.
fn follow_input<F: Shelf, R: Read, W: Write>(
    alloc: Global,
    shelf: &F,
    config: Option<&str>,
    reader: &mut R,
    notes: bool,
    writer: &mut W,
) -> Result<(), Fault>
    ensures written { OnOk result (Follows notes (option_map (λ path. F.contents shelf.now path.now) config.entry) (R.remaining reader.old) (R.remaining reader.new) (W.contents writer.old) (W.contents writer.new)) }
    ensures refused { IfErr result (λ e. FollowLeaves notes (option_map (λ path. F.contents shelf.now path.now) config.entry) (R.remaining reader.old) e (W.contents writer.old) (W.contents writer.new)) }
{
    let config = file_of(shelf, config);
    follow(alloc, config, reader, notes, writer)
}

/// `serve` over a file.
fn serve_file<F: Shelf, H: Host>(
    alloc: Global,
    shelf: &F,
    config: &str,
    host: &mut H,
    turns: Option<u64>,
) -> Result<(), Fault>
    ensures served { OnOk result (Serves (F.contents shelf.now config.now) turns (H.asked host.new)) }
    ensures refused { IfErr result (ServeLeaves (F.contents shelf.now config.now) turns (H.asked host.old) (H.asked host.new)) }
{
    serve(alloc, shelf.open(config), host, turns)
}

/// Does what the words of the command line ask for; the first word is the program's own name. `once` answers the
/// datagram that the reader has on the writer, and `replay` runs the script of a file. `follow` runs the script of
/// the reader, and `serve` has the host serve the configuration of a file.
pub fn run<F: Shelf, H: Host, R: Read, W: Write>(
    alloc: Global,
    words: &[&str],
    shelf: &F,
    host: &mut H,
    reader: &mut R,
    writer: &mut W,
) -> Ending
    ensures { Ends (map (λ w. w.now) words.now) (F.contents shelf.now) result (R.remaining reader.old) (R.remaining reader.new) (W.contents writer.old) (W.contents writer.new) (H.asked host.old) (H.asked host.new) }
{
    match command(alloc, words) {
        Ok(Asked::Once) => match once(alloc, reader, writer) {
            Ok(()) => Ending::Done,
            Err(fault) => Ending::Broken(fault),
        },
        Ok(
            Asked::Replay {
                config,
                script,
                notes,
            },
        ) => match replay_files(alloc, shelf, config, script, notes, writer) {
            Ok(()) => Ending::Done,
            Err(fault) => Ending::Broken(fault),
        },
        Ok(Asked::Follow { config, notes }) => {
            match follow_input(alloc, shelf, config, reader, notes, writer) {
                Ok(()) => Ending::Done,
                Err(fault) => Ending::Broken(fault),
            }
        }
        Ok(Asked::Serve { config, turns }) => {
            match serve_file(alloc, shelf, config, host, turns) {
                Ok(()) => Ending::Done,
                Err(fault) => Ending::Broken(fault),
            }
        }
        Err(error) => Ending::Refused(error),
    }
}
