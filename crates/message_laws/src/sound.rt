//! The dialogs of the live calls.

ghost use Rattle.std.specs.Prelude.{◌≡◌, ◌<◌, ◌^◌, ℕ, List, Ok, Some};
ghost use Rattle.event_rows.specs.Rows.{after};
ghost use Rattle.event_rows.specs.State.{Contents, IsNew, office};
ghost use Rattle.event_rows.specs.Trace.{Entry, after_entries};
ghost use Rattle.configuration.specs.declared.config.Config.{Config};
ghost use Rattle.events.specs.declared.event.Event.{Event};
ghost use Rattle.call_steps.specs.Rows.{first_leg};
ghost use Rattle.dialogs.specs.Making.{reached_at};
ghost use Rattle.plans.specs.CallRows.{occasion};
ghost use Rattle.event_rows.specs.Rules.{target};
ghost use Rattle.plans.specs.Office.{Office};
ghost use Rattle.plans.specs.declared.setting.Setting.{Setting};
ghost use Rattle.message_laws.specs.Addresses.{HasOctets};
ghost use Rattle.message_laws.specs.Sound.{IsSoundLeg, IsTarget, KnowsDialogs};
ghost use Rattle.registrar.specs.Bound.{target_of};
ghost use Rattle.registrar.specs.Registrar.{bindings_at};
ghost use Rattle.sip_message.specs.Contact.{contacts_of};
ghost use Rattle.sip_message.specs.Read.{message_of};
ghost use Rattle.sip_message.specs.declared.message.Message.TheVariants as Kinds;
ghost use Rattle.sip_message.specs.declared.message.Request.{Request};
ghost use Rattle.sip_uri.specs.declared.uri.Uri.{Uri};

use dialogs::{contacts_are_read, dialogs_are_sound};

/// For a new agent, and after any event, the following holds. The texts of each dialog of a call came out of messages
/// that were read, or are tokens that were made. Its target, and where the sender of an open offer says that it is
/// reached, lead to addresses, and so does each contact that a user is bound to. Each request of the server's own
/// whose transaction is live says what a dialog is made of. The new leg of a first INVITE to a user who is bound is
/// sound too.
pub fn dialogs_are_kept_sound()
    ensures begins { (config : Config) (s : Contents) → IsNew config s → HasOctets config.ip → KnowsDialogs (office s) }
    ensures step { (s : Contents) (event : Event) → KnowsDialogs (office s) → KnowsDialogs (office (after s event)) }
    ensures bound { (s : Contents) (user : List ℕ) (now : ℕ) (uri : Uri) → KnowsDialogs (office s) →
        target_of (bindings_at s.registrar user now) ≡ Some uri → IsTarget uri }
    ensures leg { (s : Office) (e : Setting) (text : List ℕ) (r : Request) (contact to : Uri) → KnowsDialogs s → s.tokens < 2 ^ 63 →
        message_of text ≡ Ok (Kinds.Request r) → reached_at (contacts_of r.headers) ≡ Some contact → target s r e.now ≡ Some to →
        IsSoundLeg (first_leg (occasion s e) r to) }
    ensures known { (config : Config) (s : Contents) (entries : List Entry) → IsNew config s → HasOctets config.ip →
        KnowsDialogs (office (after_entries s entries)) }
{
    contacts_are_read();
    dialogs_are_sound();
}
