//! The descriptions that the calls keep and send.

ghost use Rattle.std.specs.Prelude.{◌≡◌, ◌≤◌, ℕ, List, length, slice_get, slice_index, Some, Ok};
ghost use Rattle.event_rows.specs.Rows.{after};
ghost use Rattle.event_rows.specs.State.{Contents, IsNew, office};
ghost use Rattle.event_rows.specs.Trace.{AreEntries, Entry, after_entries};
ghost use Rattle.call_core.specs.declared.call.Call.{Call};
ghost use Rattle.call_core.specs.declared.input.Input.{Input};
ghost use Rattle.call_core.specs.CallRows.{call_row, first_call_row};
ghost use Rattle.call_media.specs.declared.session.OpenOffer.{OpenOffer};
ghost use Rattle.call_media.specs.declared.session.Session.{Session};
ghost use Rattle.calls.specs.declared.standing_call.StandingCall.{StandingCall};
ghost use Rattle.plans.specs.Office.{Office};
ghost use Rattle.call_rules.specs.Content.{described};
ghost use Rattle.configuration.specs.declared.config.Config.{Config};
ghost use Rattle.configuration.specs.Rules.{KeepsRules};
ghost use Rattle.events.specs.declared.event.Event.{Event};
ghost use Rattle.port_pool.specs.Pool as pools;
ghost use Rattle.message_laws.specs.Addresses.{HasFourOctets, IsServerAddress};
ghost use Rattle.message_laws.specs.Bodies.{HavePorts, IsOfRead, KnowsDescriptions, KnowsMedia, KnowsStep, WasRead, WasReadIn};
ghost use Rattle.sdp.specs.declared.description.Description.{Description};
ghost use Rattle.sdp.specs.Grammar.{ReadsDescription};
ghost use Rattle.sdp.specs.Writing.{description_text};
ghost use Rattle.sip_message.specs.declared.message.Message.{Message};
ghost use Rattle.sip_message.specs.Contact.{headers_in};
ghost use Rattle.sip_message.specs.ContentLength.{max_content_length};
ghost use Rattle.sip_message.specs.Read.{message_of};
ghost use Rattle.trace_reading.specs.Message.{body_in, trace_message};

use configuration::Config;

fn four_octets(ip: &[u8; 4])
    ensures { length ip.now ≡ 4 }
{}

pub(crate) fn octets_fit(ip: &[u8])
    ensures { (i : ℕ) → slice_index ip.now i ≤ 255 }
{}

/// The address of a configuration is of the size of its type.
pub fn address_has_four_octets(config: &Config)
    ensures { HasFourOctets config.now.ip }
{
    four_octets(&config.ip);
    octets_fit(&config.ip);
}

/// For a new agent, whose configuration keeps the rules, and after any event, the following holds. Each description
/// that the media of a call keep was read of a body that fits into a datagram, or is what the server sends in place
/// of one, at its own address and ports. The same holds after any events of a new agent.
pub fn descriptions_are_known()
    ensures begins { (config : Config) (s : Contents) → KeepsRules config → HasFourOctets config.ip → IsNew config s → KnowsDescriptions (office s) }
    ensures step { (s : Contents) (event : Event) → KnowsDescriptions (office s) → KnowsDescriptions (office (after s event)) }
    ensures known { (config : Config) (s : Contents) (entries : List Entry) → KeepsRules config → HasFourOctets config.ip → IsNew config s →
        AreEntries s entries → KnowsDescriptions (office (after_entries s entries)) }
{
    trace_reading::bodies_describe();
}

/// What the rules take as the description of a message that was read, was read of its body, and is what a trace sees in
/// it.
pub fn descriptions_are_read()
    ensures read { (bytes : List ℕ) (m : Message) (d : Description) → message_of bytes ≡ Ok m → described (headers_in m) (body_in m) ≡ Some d → WasRead d }
    ensures seen { (bytes : List ℕ) (m : Message) → (trace_message bytes m).description ≡ described (headers_in m) (body_in m) }
{
    trace_reading::bodies_describe();
}

/// What a call sends on for an input is sent in place of a description that was read, where that of the input was, and
/// so are those that it keeps. What is sent so reads back, and so do the offer that is open and what was sent in the
/// session of a live call; it is no longer than a body may be.
pub fn descriptions_read_back()
    ensures call { (ip : List ℕ) (c : Call) (input : Input) (pool : pools.Contents) (now : ℕ) → IsServerAddress ip → KnowsMedia ip c.media →
        HavePorts pool → WasReadIn input → KnowsStep ip (call_row c input pool now) }
    ensures first { (ip : List ℕ) (c : Call) (offer : Description) (pool : pools.Contents) (now : ℕ) → IsServerAddress ip → KnowsMedia ip c.media →
        HavePorts pool → WasRead offer → KnowsStep ip (first_call_row c offer pool now) }
    ensures back { (ip : List ℕ) (sent : Description) → IsServerAddress ip → IsOfRead ip sent → ReadsDescription (description_text sent) sent }
    ensures offer { (s : Office) (place : ℕ) (c : StandingCall) (o : OpenOffer) → KnowsDescriptions s → slice_get s.calls.calls place ≡ Some c →
        c.call.media.offer ≡ Some o → ReadsDescription (description_text o.offer_sent) o.offer_sent }
    ensures session { (s : Office) (place : ℕ) (c : StandingCall) (x : Session) → KnowsDescriptions s → slice_get s.calls.calls place ≡ Some c →
        c.call.media.session ≡ Some x →
        ReadsDescription (description_text x.offer_sent) x.offer_sent × ReadsDescription (description_text x.answer_sent) x.answer_sent }
    ensures short { (ip : List ℕ) (sent : Description) → IsOfRead ip sent → length (description_text sent) ≤ max_content_length }
{
    offer_answer::sent_is_read();
}
