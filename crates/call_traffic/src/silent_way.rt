//! The silent ends of calls, as they are reported.

ghost use Rattle.std.specs.Prelude.{◌≡◌, ◌≤◌, ◌<◌, ◌+◌, ◌++◌, IfOk, List, OnErr, Option, vec_capacity, vec_len};
ghost use Rattle.sip_uri.specs.declared.uri.Addr.{Addr as DeclaredAddr};
ghost use Rattle.call_traffic.specs.declared.silent_way.SilentWay.{SilentWay as DeclaredWay};
ghost use Rattle.call_traffic.specs.SilentWays.{TellsAll, TellsCall, TellsEnd, way_from};

use crate::call_traffic::CallTraffic;
use call_media::End;
use sip_uri::Addr;
use std::alloc::{AllocError, Global};

/// An end of a call from which no RTP comes, though some should.
#[derive(Clone, Copy)]
pub struct SilentWay {
    /// The number of the call.
    pub call: u64,
    pub end: End,
    /// Where RTP should come from.
    pub expected: Addr,
}

/// Appends an end of the call, if it is silent and that was not reported.
fn put_of_end(ways: &mut Vec<SilentWay>, call: &mut CallTraffic, end: End, now: u64)
    requires { vec_len ways.old < vec_capacity ways.old }
    ensures tells { (source : Option DeclaredAddr) × TellsEnd end now call.old call.new source
        × (ways.new.items ≡ ways.old.items ++ way_from call.old.number end source) }
    ensures len { vec_len ways.new ≤ vec_len ways.old + 1 }
    ensures capacity { vec_capacity ways.new ≡ vec_capacity ways.old }
{
    let number = call.number;
    if let Some(expected) = call.silent_source(end, now) {
        ways.push_reserved(SilentWay {
            call: number,
            end,
            expected,
        });
    }
}

/// The same for both ends.
fn put_of_call(ways: &mut Vec<SilentWay>, call: &mut CallTraffic, now: u64)
    requires { vec_len ways.old + 2 ≤ vec_capacity ways.old }
    ensures tells { (told : List DeclaredWay) × TellsCall now call.old call.new told × (ways.new.items ≡ ways.old.items ++ told) }
    ensures len { vec_len ways.new ≤ vec_len ways.old + 2 }
    ensures capacity { vec_capacity ways.new ≡ vec_capacity ways.old }
{
    put_of_end(ways, call, End::Caller, now);
    put_of_end(ways, call, End::Callee, now);
}

/// The ends of these calls that are silent, unless that was reported. After an error, they are yet to be reported.
pub(crate) fn silent_ways(
    alloc: Global,
    calls: &mut [CallTraffic],
    now: u64,
) -> Result<Vec<SilentWay>, AllocError>
    ensures ok { IfOk result (λ ways. TellsAll now calls.old calls.new ways.items) }
    ensures err { OnErr result (calls.new ≡ calls.old) }
{
    let room = calls.len().checked_mul(2).ok_or(AllocError)?;
    let mut ways = Vec::with_capacity(alloc, room)?;
    for call in calls.iter_mut() {
        put_of_call(&mut ways, call, now);
    }
    Ok(ways)
}
