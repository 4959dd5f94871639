//! The stages of a connection, and how long it may stay at each.

ghost use Rattle.std.specs.Prelude.{◌≡◌, ◌+◌, ◌<◌, ◌≤◌, ◌↔◌, ◌++◌, List, ℕ, IsTrue, IfOk};
ghost use Rattle.page_server.specs.Responses.{page_text, unsent};
ghost use Rattle.page_server.specs.Stages.{patience_of, refusal_of, refused, stage_behind};
ghost use Rattle.page_server.specs.declared.stages.Stage.TheVariants as stages;

use crate::answer::Answer;
use crate::head::Head;
use crate::path::Path;
use crate::refusal::Refusal;
use crate::request::Request;
use crate::source::PageSource;
use std::alloc::{AllocError, Global};

/// How many milliseconds a head may take to come, a page to be made, and a response to be taken.
const PATIENCE: u64 = 5_000;

/// How many milliseconds a client has to end a connection after its response was sent. If the server ends it while
/// bytes still come, the client's system may discard the response.
const LINGER: u64 = 1_000;

/// The stage of a connection.
#[derive(Drop)]
pub(crate) enum Stage {
    /// The head of its request is being received.
    Reading(Request),
    /// Its request has come, and its page is being made.
    Waiting(Path),
    /// Its response is being sent.
    Writing(Answer),
    /// Its response was sent.
    Closing,
}

/// How long a connection may stay at this stage, in milliseconds.
fn patience_of(stage: &Stage) -> u64
    ensures patience { result ≡ patience_of stage.now }
    ensures some { 0 < result }
{
    match stage {
        Stage::Reading(_) | Stage::Waiting(_) | Stage::Writing(_) => PATIENCE,
        Stage::Closing => LINGER,
    }
}

/// Whether a connection that has been at a stage since a moment has been there for too long. Moments are in
/// milliseconds.
pub(crate) fn is_due(stage: &Stage, since: u64, now: u64) -> bool
    ensures { IsTrue result ↔ (since + patience_of stage.now ≤ now) }
{
    now.saturating_sub(since) >= patience_of(stage)
}

/// The refusal for a client whose time is up. None if it has its response, or a part of it.
pub(crate) fn refusal_of(stage: &Stage) -> Option<Refusal>
    ensures { result ≡ refusal_of stage.now }
{
    match stage {
        Stage::Reading(_) => Some(Refusal::RequestTimeout),
        Stage::Waiting(_) => Some(Refusal::ServiceUnavailable),
        Stage::Writing(_) | Stage::Closing => None,
    }
}

/// A refusal, of which nothing was sent yet.
pub(crate) fn refused(alloc: Global, refusal: Refusal) -> Result<Stage, AllocError>
    ensures { IfOk result (λ stage. stage ≡ refused refusal) }
{
    Ok(Stage::Writing(Answer::with_refusal(alloc, refusal)?))
}

/// The stage that follows when this is known of a request.
pub(crate) fn stage_behind(alloc: Global, head: Head, request: Request) -> Result<Stage, AllocError>
    ensures { IfOk result (λ stage. stage ≡ stage_behind head request) }
{
    match head {
        Head::Incomplete => Ok(Stage::Reading(request)),
        Head::Asked(path) => Ok(Stage::Waiting(path)),
        Head::Refused(refusal) => refused(alloc, refusal),
    }
}

/// The page of a path, of which nothing was sent yet.
pub(crate) fn answered<S: PageSource>(
    alloc: Global,
    source: &mut S,
    path: Path,
) -> Result<Stage, AllocError>
    ensures { IfOk result (λ stage. (body : List ℕ) × S.shows source.old path body × (stage ≡ stages.Writing (unsent (page_text path body)))) }
{
    let mut body = Vec::new(alloc);
    source.put(path, &mut body)?;
    Ok(Stage::Writing(Answer::with_page(alloc, path, &body)?))
}
