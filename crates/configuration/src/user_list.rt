//! A list of users.

ghost use Rattle.std.specs.Prelude.{◌≡◌};
ghost use Rattle.configuration.specs.Rules.{is_user_list};

use crate::names::{are_distinct, are_users};
use text::Text;

/// How many users may register at most.
pub(crate) const MAX_USERS: usize = 1000;

/// Whether the key `users` may list these: 1 to 1000, each well formed, none twice. Takes no memory.
#[tactic(auto, unfolding(crate::specs::Rules::is_user_list))]
pub fn is_user_list(users: &[Text<'static>]) -> bool
    ensures { result ≡ is_user_list users.now }
{
    1 <= users.len() && users.len() <= MAX_USERS && are_users(users) && are_distinct(users)
}
