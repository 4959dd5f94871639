//! What an operator has for the agent.

ghost use Rattle.std.specs.Prelude.{◌≡◌};
ghost use Rattle.live.specs.News.{what_of};

use events::What;
use text::Texts;

/// What an operator has for the agent.
#[derive(Drop)]
pub enum News {
    /// The media of the call of this number have stopped for too long.
    Silent(u64),
    /// These are the office's users from now on.
    Users(Texts<'static>),
}

/// The event that news becomes.
pub(crate) fn what_of(news: News) -> What
    ensures { result ≡ what_of news }
{
    match news {
        News::Silent(number) => What::Silent(number),
        News::Users(users) => What::Users(users),
    }
}
