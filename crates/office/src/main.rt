//! The office's call server. It passes the words of the command line, the files that they name and the standard
//! streams to the library `server`. It serves telephones with the sockets, the clock and the threads of the system.
#![tactic(auto)]

mod opening;
mod page_thread;
mod parts;
mod serving;
mod shared;
mod telephony;
mod threads;

use crate::shared::Shared;
use crate::telephony::Telephony;
use host::Disk;
use live_users::{FileEnds, FileThread, file_ends};
use server::{Asked, CommandError, Ending, command, run};
use sockets::LastWords;
use std::alloc::{AllocError, Global};
use std::fmt::Write;
use std::fs::Files;
use std::net::Net;
use std::process::ExitCode;
use std::rt::{Clock, Env};
use std::sync::Wait;
use std::sync::atomic::{AtomicBool, Ordering};
use std::thread::Threads;
use std::{env, io, thread};

/// All words of the command line, starting with the program's own name.
fn words<R: Env + AllocGlobal>(rt: &R) -> Result<Vec<String>, CommandError> {
    let given = match env::args(rt) {
        Ok(given) => given,
        Err(error) if error.kind() == io::ErrorKind::OutOfMemory => {
            return Err(CommandError::OutOfMemory);
        }
        Err(_) => return Err(CommandError::Words),
    };
    let mut words = Vec::new(rt.alloc());
    for word in given {
        words.push(word)?;
    }
    Ok(words)
}

/// The words, lent.
fn lent(alloc: Global, words: &[String]) -> Result<Vec<&str>, AllocError> {
    let mut lent = Vec::with_capacity(alloc, words.len())?;
    for word in words {
        lent.push(word.as_str())?;
    }
    Ok(lent)
}

/// Both ends of the thread that looks at the file of the configuration that these words ask to serve, if they do.
fn file_in(alloc: Global, words: &[String]) -> Result<Option<(FileThread, FileEnds)>, AllocError> {
    match command(alloc, &lent(alloc, words)?) {
        Ok(Asked::Serve { config, .. }) => Ok(Some(file_ends(alloc, config.to_owned(alloc)?)?)),
        _ => Ok(None),
    }
}

/// Runs what the words ask for.
fn ending<R: Net + Files + Clock + Threads + Wait + Sync + Shared + Input + Print + AllocGlobal>(
    rt: &R,
    words: &[String],
    telephony: &mut Telephony<'_, R>,
) -> Result<Ending, CommandError> {
    Ok(run(
        rt.alloc(),
        &lent(rt.alloc(), words)?,
        &Disk { rt },
        telephony,
        &mut rt.reader(),
        &mut io::writer(rt),
    ))
}

/// Writes what an ending says.
fn tell<R: Print + Wait>(rt: &R, ending: &Ending, telephony: &mut Telephony<'_, R>) {
    if let Some(help) = ending.help() {
        let _ = print!(rt; "{help}");
    }
    if let Some(words) = ending.words() {
        let _ = writeln!(telephony.last_words, "{words}");
    }
    if let Some(reason) = ending.reason() {
        let _ = writeln!(telephony.last_words, "{reason}");
    }
    if let Some(refusal) = telephony.refusal {
        let _ = writeln!(telephony.last_words, "{refusal}");
    }
}

fn main(rt: HostRuntime) -> ExitCode {
    let mut telephony = Telephony {
        rt: &rt,
        file: None,
        request: None,
        refusal: None,
        last_words: LastWords::new(&rt),
    };
    let over = AtomicBool::new(false);
    let (runtime, is_over) = (&rt, &over);
    // Only here may what is sent to a thread read files.
    let ending = thread::scope(
        thread::scope_env(),
        &rt,
        |scope| -> Result<Ending, CommandError> {
            let words = words(runtime)?;
            if let Some((mut file, ends)) = file_in(runtime.alloc(), &words)? {
                telephony.file = Some(ends);
                if scope.spawn(move || file.run(runtime, is_over)).is_err() {
                    return Err(CommandError::OutOfMemory);
                }
            }
            let ending = ending(runtime, &words, &mut telephony);
            is_over.store(true, Ordering::SeqCst);
            ending
        },
    );
    let ending = ending.unwrap_or_else(Ending::Refused);
    tell(&rt, &ending, &mut telephony);
    ExitCode::from(ending.status())
}
