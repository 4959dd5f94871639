//! A connection.

ghost use Rattle.std.specs.Prelude.{◌≡◌, IfSome};
ghost use Rattle.page_server.specs.Connections.{IsWithinTime, held_at, held_of};
ghost use Rattle.page_server.specs.Held.{GoesOn, IsBrief, IsTimely, accepted_at};
ghost use Rattle.page_server.specs.declared.stages.Stage.TheVariants as stages;

use crate::flow::{read_away, read_request, write_answer};
use crate::head::Head;
use crate::moments::{Moments, new_moments};
use crate::request::Request;
use crate::source::PageSource;
use crate::stages::{Stage, answered, is_due, refusal_of, refused, stage_behind};
use mio::net::TcpStream;
use std::alloc::Global;
use std::net::Shutdown;

/// A connection, its moments, and its stage.
#[derive(Drop)]
pub(crate) struct Connection {
    pub(crate) stream: TcpStream,
    pub(crate) moments: Moments,
    pub(crate) stage: Stage,
}

/// A connection that was made at this moment. Takes no memory.
pub(crate) fn new_connection(alloc: Global, stream: TcpStream, now: u64) -> Connection
    ensures timely { IsTimely now (held_of result) }
    ensures accepted { held_of result ≡ accepted_at now }
{
    Connection {
        stream,
        moments: new_moments(now),
        stage: Stage::Reading(Request::new(alloc)),
    }
}

/// Whether its page is being made.
pub(crate) fn is_waiting(connection: &Connection) -> bool {
    matches!(connection.stage, Stage::Waiting(_))
}

/// Continues reading a request. None if the client ended it, or memory is refused.
fn read_head<S: PageSource>(
    alloc: Global,
    source: &mut S,
    mut stream: TcpStream,
    mut request: Request,
    moments: Moments,
    now: u64,
) -> Option<Connection>
    ensures { IfSome result (λ c. GoesOn now (held_at moments (stages.Reading request)) (held_of c)) }
{
    let may_come = read_request(&mut stream, &mut request).ok()?;
    let head = request.head();
    let moments = match head {
        Head::Incomplete if may_come => moments,
        Head::Incomplete => return None,
        Head::Asked(_) => {
            source.ask();
            moments.begin(now)
        }
        Head::Refused(_) => moments.begin(now),
    };
    let stage = stage_behind(alloc, head, request).ok()?;
    Some(Connection {
        stream,
        moments,
        stage,
    })
}

/// Reads what has come. None if the connection is over.
fn read<S: PageSource>(
    alloc: Global,
    source: &mut S,
    connection: Connection,
    now: u64,
) -> Option<Connection>
    ensures { IfSome result (λ c. GoesOn now (held_of connection) (held_of c)) }
{
    let Connection {
        mut stream,
        moments,
        stage,
    } = connection;
    match stage {
        Stage::Reading(request) => read_head(alloc, source, stream, request, moments, now),
        Stage::Closing if !read_away(&mut stream) => None,
        // A client may end its side and wait for the response.
        Stage::Waiting(_) | Stage::Writing(_) | Stage::Closing => {
            read_away(&mut stream);
            Some(Connection {
                stream,
                moments,
                stage,
            })
        }
    }
}

/// A connection whose time is up is refused, or over if it has its response or a part of it. One that has lasted for
/// its whole time is over.
fn within_time(alloc: Global, connection: Connection, now: u64) -> Option<Connection>
    ensures timely { IfSome result (λ c. IsTimely now (held_of c)) }
    ensures brief { IfSome result (λ c. IsBrief now (held_of c)) }
    ensures told { IfSome result (λ c. IsWithinTime now connection c) }
    ensures kept { IfSome result (λ c. GoesOn now (held_of connection) (held_of c)) }
{
    let Connection {
        stream,
        moments,
        stage,
    } = connection;
    if moments.is_over(now) {
        return None;
    }
    if !is_due(&stage, moments.since, now) {
        return Some(Connection {
            stream,
            moments,
            stage,
        });
    }
    let stage = refused(alloc, refusal_of(&stage)?).ok()?;
    Some(Connection {
        stream,
        moments: moments.begin(now),
        stage,
    })
}

/// Answers a connection whose page is ready. None if memory is refused.
fn answer<S: PageSource>(
    alloc: Global,
    source: &mut S,
    connection: Connection,
    now: u64,
) -> Option<Connection>
    requires { IsTimely now (held_of connection) }
    ensures timely { IfSome result (λ c. IsTimely now (held_of c)) }
    ensures kept { IfSome result (λ c. GoesOn now (held_of connection) (held_of c)) }
{
    let Connection {
        stream,
        moments,
        stage,
    } = connection;
    match stage {
        Stage::Waiting(path) if source.is_ready() => {
            let stage = answered(alloc, source, path).ok()?;
            Some(Connection {
                stream,
                moments: moments.begin(now),
                stage,
            })
        }
        stage => Some(Connection {
            stream,
            moments,
            stage,
        }),
    }
}

/// Sends what the client takes now. None if it takes no more before it has everything.
fn write(connection: Connection, now: u64) -> Option<Connection>
    requires { IsTimely now (held_of connection) }
    ensures timely { IfSome result (λ c. IsTimely now (held_of c)) }
    ensures kept { IfSome result (λ c. GoesOn now (held_of connection) (held_of c)) }
{
    let Connection {
        mut stream,
        moments,
        stage,
    } = connection;
    match stage {
        Stage::Writing(mut answer) => {
            if !write_answer(&mut stream, &mut answer) {
                return None;
            }
            if !answer.is_sent() {
                return Some(Connection {
                    stream,
                    moments,
                    stage: Stage::Writing(answer),
                });
            }
            stream.shutdown(Shutdown::Write).ok()?;
            Some(Connection {
                stream,
                moments: moments.begin(now),
                stage: Stage::Closing,
            })
        }
        stage => Some(Connection {
            stream,
            moments,
            stage,
        }),
    }
}

/// Does what can be done at a connection now. None if it is over. Otherwise it has been at its stage, and has lasted,
/// for less than its limits.
pub(crate) fn turn<S: PageSource>(
    alloc: Global,
    source: &mut S,
    connection: Connection,
    now: u64,
) -> Option<Connection>
    ensures timely { IfSome result (λ c. IsTimely now (held_of c)) }
    ensures brief { IfSome result (λ c. IsBrief now (held_of c)) }
    ensures kept { IfSome result (λ c. GoesOn now (held_of connection) (held_of c)) }
{
    let read = read(alloc, source, connection, now)?;
    let timely = within_time(alloc, read, now)?;
    let answered = answer(alloc, source, timely, now)?;
    write(answered, now)
}
