//! What a trace hears of what actions say.

ghost use Rattle.std.specs.Prelude.{◌≡◌, ℕ, List};
ghost use Rattle.call_core.specs.declared.action.Action.{Action};
ghost use Rattle.call_trace.specs.Listed.{AllOf};
ghost use Rattle.call_trace.specs.declared.datagram.Message.{Message};
ghost use Rattle.call_messages.specs.Dressing.{dress_one, dressed};
ghost use Rattle.call_messages.specs.declared.scene.Scene.{Scene};
ghost use Rattle.message_laws.specs.Saying.{OneIf};
ghost use Rattle.message_laws.specs.Said.{SaysAction};
ghost use Rattle.media_laws.specs.Heard.{HearsActions};
ghost use Rattle.message_laws.specs.Messages.{AreMessages};

/// Where each action says one message of the written form at most, a trace that reads the datagrams hears what the
/// actions say, one after another.
pub fn actions_are_heard()
    ensures { (s : Scene) (tokens : ℕ) (actions : List Action) (ms : List Message) →
        AllOf (λ action. (count : ℕ) → OneIf (SaysAction s count action) (dress_one s count action).sends) actions →
        AreMessages (dressed s tokens actions).sends ms → HearsActions s tokens actions ms }
{
    trace_reading::bytes_say_all();
    sip_writing::written_is_read();
}
