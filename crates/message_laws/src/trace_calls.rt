//! The calls that a trace lists, with the agent's pool and relay table.

ghost use Rattle.std.specs.Prelude.{List};
ghost use Rattle.call_trace.specs.declared.call.Call.{Call};
ghost use Rattle.call_trace.specs.declared.datagram.Dialog.{Dialog};
ghost use Rattle.call_trace.specs.Promised.{AreServed};
ghost use Rattle.calls.specs.declared.standing_call.StandingCall.{StandingCall};
ghost use Rattle.plans.specs.Office.{Office};
ghost use Rattle.message_laws.specs.Serving.{KnowsServing, trace_table};
ghost use Rattle.message_laws.specs.Traced.{AreTraced, holder_by};

/// Where the agent's calls are served, and a trace lists calls of the same sessions, those are served as the media
/// promise asks of a server besides its moves: each end was sent what matches, the table is of their sessions, and
/// their pairs are held by their callers' dialogs.
pub fn traced_calls_are_served()
    ensures { (caller : StandingCall → Dialog) (s : Office) (calls : List Call) → KnowsServing s → AreTraced caller s.calls.calls calls →
        AreServed s.range.ip (trace_table s.calls.pool) (holder_by caller s) calls }
{}
