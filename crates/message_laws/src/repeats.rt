//! What is sent again.

ghost use Rattle.std.specs.Prelude.{◌++◌, [], List};
ghost use Rattle.event_rows.specs.Rows.{after, row};
ghost use Rattle.event_rows.specs.State.{Contents, IsNew, office};
ghost use Rattle.configuration.specs.declared.config.Config.{Config};
ghost use Rattle.events.specs.declared.event.Event.{Event};
ghost use Rattle.events.specs.declared.sent.Sent.{Sent};
ghost use Rattle.message_laws.specs.Sending.{KnowsSent};

/// For a new agent, which sent nothing, and after any event, the following holds. What each transaction would resend,
/// the kept ACKs, and the 200 that awaits its ACK in each call were sent before in the same bytes.
pub fn what_goes_again_was_sent()
    ensures begins { (config : Config) (s : Contents) → IsNew config s → KnowsSent (office s) [] }
    ensures step { (s : Contents) (event : Event) (sent : List Sent) →
        KnowsSent (office s) sent → KnowsSent (office (after s event)) (sent ++ (row s event).plan.sends) }
{}
