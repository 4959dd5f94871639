//! The answers that the server sent.

ghost use Rattle.std.specs.Prelude.{◌≡◌, ◌++◌, [], ℕ, List, Option, Some, slice_get};
ghost use Rattle.event_rows.specs.Rows.{after};
ghost use Rattle.event_rows.specs.State.{Contents, IsNew, office};
ghost use Rattle.call_core.specs.Calls.{dialog_of};
ghost use Rattle.call_media.specs.declared.end.End.{End};
ghost use Rattle.call_trace.specs.declared.call.Call.{Call};
ghost use Rattle.call_trace.specs.declared.datagram.Datagram.{Datagram};
ghost use Rattle.call_trace.specs.declared.datagram.Message.{Message};
ghost use Rattle.call_trace.specs.Events.{passed};
ghost use Rattle.call_trace.specs.Exchanges.{At};
ghost use Rattle.call_trace.specs.Messages.{offering};
ghost use Rattle.call_trace.specs.Moves.{Move};
ghost use Rattle.calls.specs.declared.standing_call.StandingCall.{StandingCall};
ghost use Rattle.configuration.specs.declared.config.Config.{Config};
ghost use Rattle.dialogs.specs.Counting.{IsOld};
ghost use Rattle.dialogs.specs.declared.state.Dialog.{Dialog};
ghost use Rattle.events.specs.declared.event.Event.{Event};
ghost use Rattle.events.specs.declared.sent.Sent.{Sent};
ghost use Rattle.media_laws.specs.Answers.{IsAnswerSent, KnowsAnswers};
ghost use Rattle.media_laws.specs.Taken.{KnowsTaken};
ghost use Rattle.plans.specs.Office.{Office};
ghost use Rattle.message_laws.specs.Knowing.{KnowsTokens};
ghost use Rattle.media_laws.specs.Ties.{AreTied};
ghost use Rattle.message_laws.specs.Asked.{KnowsAsked};
ghost use Rattle.transactions.specs.declared.transaction.Transaction.{Transaction};

/// For the trace of a new agent, and after any event whose messages move the calls of the trace, the following holds.
/// Each answer to an INVITE or UPDATE that was sent has a tag that was made. Where a current call has this tag in the
/// dialog with one of its ends, that has taken a request with the number of the answer, or with a greater one. So
/// each such answer in a dialog of a call is to no request that is still to come there.
pub fn answers_are_known()
    ensures begins { (config : Config) (s : Contents) → IsNew config s → KnowsAnswers (office s) [] }
    ensures step { (s : Contents) (event : Event) (begun : List Transaction) (sent : List Sent) (t : List Datagram) (ds : List Call) (k : ℕ)
        (taken : Option Message) (ms : List Message) (new : List Call) → AreTied (office s) begun sent t ds → KnowsAsked (office s) →
        KnowsTaken (office s) → KnowsAnswers (office s) t → Move offering t ds taken ms new →
        KnowsAnswers (office (after s event)) (t ++ passed k taken ms) }
    ensures dialog { (s : Office) (t : List Datagram) → KnowsTokens s → KnowsAnswers s t → (i : ℕ) (p : Datagram) → At t i p → IsAnswerSent p →
        (place : ℕ) (c : StandingCall) → slice_get s.calls.calls place ≡ Some c → (end : End) (d : Dialog) → dialog_of end c.call ≡ Some d →
        d.id.ours ≡ p.message.to_tag → IsOld d.remote_number p.message.number }
{}
