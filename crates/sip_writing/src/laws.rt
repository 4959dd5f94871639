//! Laws of what is written.

ghost use Rattle.sip_message.specs.Grammar.{ReadsMessage};
ghost use Rattle.sip_message.specs.declared.message.Message.{Message};
ghost use Rattle.sip_writing.specs.Writing.{message_text};
ghost use Rattle.sip_writing.specs.WritingMessage.{IsWrittenMessage};

/// The text of a message of the written form is read as that message, even beyond the limits of reading.
pub fn written_is_read()
    ensures { (m : Message) → IsWrittenMessage m → ReadsMessage (message_text m) m }
{}
