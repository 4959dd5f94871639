//! What the actions of a call say.

ghost use Rattle.std.specs.Prelude.{ℕ, List};
ghost use Rattle.call_core.specs.declared.action.Action.{Action};
ghost use Rattle.call_messages.specs.declared.scene.Scene.{Scene};
ghost use Rattle.call_messages.specs.Dressing.{dress_one, dressed};
ghost use Rattle.message_laws.specs.Saying.{OneIf};
ghost use Rattle.message_laws.specs.Said.{SaysAction, SaysActions};
ghost use Rattle.message_laws.specs.SoundScenes.{HasFitStatus, HaveFitStatuses, IsSoundScene, answer_offer, answers_offer};

/// Each datagram that an action of a call says in a sound scene is the bytes of a message of the written form, of which
/// a trace sees this; or the 200 that is sent again. No action says two.
pub fn actions_are_said()
    ensures one { (s : Scene) (tokens : ℕ) (action : Action) → IsSoundScene s (answers_offer action) → HasFitStatus action →
        OneIf (SaysAction s tokens action) (dress_one s tokens action).sends }
    ensures all { (s : Scene) (tokens : ℕ) (actions : List Action) → IsSoundScene s (answer_offer actions) → HaveFitStatuses actions →
        SaysActions s tokens actions (dressed s tokens actions).sends }
{
    trace_reading::bodies_describe();
}
