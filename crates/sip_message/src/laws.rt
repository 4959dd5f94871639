//! Laws of messages.

ghost use Rattle.std.specs.Prelude.{◌≡◌, ℕ, List};
ghost use Rattle.sip_message.specs.Grammar.{ReadsMessage};
ghost use Rattle.sip_message.specs.declared.message.Message.{Message};

/// The same bytes are never two messages.
pub fn one_message()
    ensures { (text : List ℕ) (a b : Message) → ReadsMessage text a → ReadsMessage text b → a ≡ b }
{}
