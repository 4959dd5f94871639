//! The users of the configuration's file, on their way to the agent, and what is logged of them.

ghost use Rattle.std.specs.Prelude.{◌≡◌, false, None, is_some, option_map, string_bytes, true, IfOk, OnErr};
ghost use Rattle.live_users.specs.UserDesks.{HandsFile, TakesNews, change_line};
ghost use Rattle.live_users.specs.Waiting.{due_at, handed_in, put_off, settled, taken};

use crate::ends::FileEnds;
use crate::news::{FileNews, OtherUsers};
use crate::user_file::UserFile;
use crate::waiting_users::{UsersChange, WaitingUsers};
use rtrb::{Consumer, Producer};
use std::alloc::{AllocError, Global};
use text::{Text, Texts};

/// What the signalling has of the file, for which it never waits.
#[derive(Drop)]
pub struct UserDesk {
    pub(crate) alloc: Global,
    pub(crate) begun: Producer<UserFile>,
    pub(crate) news: Consumer<FileNews>,
    pub(crate) waiting: WaitingUsers,
}

/// The line for users that the agent took.
fn change_line(alloc: Global, change: UsersChange) -> Result<String, AllocError>
    ensures { IfOk result (λ line. string_bytes line ≡ change_line change) }
{
    let (added, removed, count) = (change.added, change.removed, change.count);
    format!(in alloc; "users-changed added={added} removed={removed} count={count}\n")
}

impl UserDesk {
    /// The desk for a file, whose users were these at the start. Its thread looks at the file from now on.
    pub fn new(
        alloc: Global,
        ends: FileEnds,
        users: &[Text<'static>],
    ) -> Result<UserDesk, AllocError>
        ensures file { IfOk result (λ desk. HandsFile users.now ends.begun desk.begun) }
        ensures news { IfOk result (λ desk. desk.news ≡ ends.news) }
        ensures wanted { IfOk result (λ desk. desk.waiting.wanted ≡ None) }
        ensures counts { IfOk result (λ desk. (desk.waiting.added ≡ 0) × (desk.waiting.removed ≡ 0)) }
        ensures not_yet { IfOk result (λ desk. desk.waiting.are_handed_in ≡ false) }
    {
        let FileEnds { mut begun, news } = ends;
        let file = UserFile::new(alloc, users)?;
        let _ = begun.push(file);
        Ok(UserDesk {
            alloc,
            begun,
            news,
            waiting: WaitingUsers::new(alloc),
        })
    }

    /// Takes news of the file, if there are any: other users wait from now on. Returns the line to be logged for them,
    /// with its end. Takes no memory.
    pub fn look(&mut self) -> Option<Text<'static>>
        ensures news { TakesNews self.old.news self.new.news self.old.waiting self.new.waiting result }
        ensures begun { self.new.begun ≡ self.old.begun }
    {
        let FileNews { users, line } = self.news.pop().ok()?;
        if let Some(
            OtherUsers {
                users,
                added,
                removed,
            },
        ) = users
        {
            self.waiting.want(users, added, removed);
        }
        line
    }

    /// The users to be handed in at this moment, in milliseconds, if there are any. They may be handed in again a
    /// second later, also if memory is refused.
    pub fn hand_in(&mut self, now: u64) -> Result<Option<Texts<'static>>, AllocError>
        ensures due { IfOk result (λ users. users ≡ due_at now self.old.waiting) }
        ensures handed { IfOk result (λ users. self.new ≡ record self.old { waiting = handed_in now self.old.waiting }) }
        ensures err { OnErr result (self.new ≡ record self.old { waiting = put_off now self.old.waiting }) }
    {
        self.waiting.hand_in(now)
    }

    /// A round is over that lost its event or had none: users that were handed in for it are handed in again. Takes no
    /// memory.
    pub fn lose(&mut self)
        ensures { self.new ≡ record self.old { waiting = record self.old.waiting { are_handed_in = false } } }
    {
        self.waiting.lose();
    }

    /// The agent took the event of a round: returns the line for the users that were handed in for it, if any were. If
    /// memory is refused, they count as taken all the same.
    pub fn settle(&mut self) -> Result<Option<String>, AllocError>
        ensures line { IfOk result (λ line. option_map string_bytes line ≡ option_map change_line (taken self.old.waiting)) }
        ensures err { OnErr result (is_some (taken self.old.waiting) ≡ true) }
        ensures waiting { self.new ≡ record self.old { waiting = settled self.old.waiting } }
    {
        match self.waiting.settle() {
            Some(change) => Ok(Some(change_line(self.alloc, change)?)),
            None => Ok(None),
        }
    }
}
