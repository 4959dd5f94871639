//! The ACKs that are kept.

ghost use Rattle.std.specs.Prelude.{◌≡◌, ◌⊎◌, ℕ, None};
ghost use Rattle.event_rows.specs.Rows.{after};
ghost use Rattle.event_rows.specs.State.{Contents, IsNew, office};
ghost use Rattle.configuration.specs.declared.config.Config.{Config};
ghost use Rattle.events.specs.declared.event.Event.{Event};
ghost use Rattle.message_laws.specs.Acks.{HasAck, KnowsAcks};
ghost use Rattle.transactions.specs.Slots.{at};

/// For a new agent, and after any event, the following holds. Each ACK that is kept is of a live client transaction
/// that had its final response. For a transaction for which one is kept, one is kept until that transaction ends,
/// whether its call is live or not.
pub fn acks_are_kept()
    ensures begins { (config : Config) (s : Contents) → IsNew config s → KnowsAcks (office s) }
    ensures step { (s : Contents) (event : Event) → KnowsAcks (office s) → KnowsAcks (office (after s event)) }
    ensures lasts { (s : Contents) (event : Event) (id : ℕ) → KnowsAcks (office s) → HasAck s.acks id →
        HasAck (after s event).acks id ⊎ (at (after s event).table.slots id ≡ None) }
{}
