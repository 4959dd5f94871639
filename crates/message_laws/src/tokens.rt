//! The texts that the server draws: tags, branches and Call-IDs.

ghost use Rattle.std.specs.Prelude.{◌≡◌, ◌<◌, ◌^◌, ℕ};
ghost use Rattle.event_rows.specs.Rows.{after};
ghost use Rattle.event_rows.specs.State.{Contents, IsNew, office};
ghost use Rattle.configuration.specs.declared.config.Config.{Config};
ghost use Rattle.events.specs.declared.event.Event.{Event};
ghost use Rattle.message_laws.specs.Knowing.{KnowsTokens};
ghost use Rattle.responses.specs.Tokens.{token};

/// Two tokens of different counts differ, whatever their salts.
pub fn tokens_of_other_counts_differ()
    ensures differ { (salt other count next : ℕ) → count < 2 ^ 64 → next < 2 ^ 64 → token salt count ≡ token other next → count ≡ next }
{}

/// For a new agent, and after any event, the following holds. The branch and From tag of each request of the server's
/// own whose transaction is live, and the server's tags in the two dialogs of each call, are tokens that were made,
/// whatever the salts. No tag is of two dialogs.
pub fn tokens_are_drawn_once()
    ensures begins { (config : Config) (s : Contents) → IsNew config s → KnowsTokens (office s) }
    ensures step { (s : Contents) (event : Event) → KnowsTokens (office s) → KnowsTokens (office (after s event)) }
{}
