//! The thread that looks at the configuration's file, so that the signalling does not.

ghost use Rattle.std.specs.Prelude.{◌≡◌};
ghost use Rattle.live_users.specs.Turns.{Begins, IsTurn, LooksIfDue, Turns, next_wait};

use crate::file_look::hand_over;
use crate::file_watch::FileWatch;
use crate::news::FileNews;
use crate::user_file::UserFile;
use rtrb::{Consumer, Producer};
use std::fs::Files;
use std::rt::Clock;
use std::sync::Wait;
use std::sync::atomic::{AtomicBool, Ordering};
use std::thread;
use std::time::Duration;

/// How many milliseconds are waited at once.
const WAIT: u64 = 100;

/// After this many waits the file is looked at again: after two seconds.
const WAITS_BETWEEN_LOOKS: u32 = 20;

/// The thread's end.
#[derive(Drop)]
pub struct FileThread {
    pub(crate) watch: FileWatch,
    pub(crate) begun: Consumer<UserFile>,
    pub(crate) news: Producer<FileNews>,
    /// What was reported of the file, once telephones are served.
    pub(crate) file: Option<UserFile>,
    /// How many waits are left until the next look.
    pub(crate) left: u32,
}

impl FileThread {
    /// Takes the file, if telephones are served from now on: the first look is due.
    fn begin(&mut self)
        ensures { Begins self.old self.new }
    {
        if let Ok(file) = self.begun.pop() {
            self.file = Some(file);
            self.left = 0;
        }
    }

    /// Looks at the file if a look is due.
    fn look_if_due<R: Files + AllocGlobal>(&mut self, rt: &R)
        ensures { LooksIfDue self.old self.new }
    {
        if self.left == 0
            && let Some(file) = &mut self.file
        {
            hand_over(rt, &mut self.watch, file, &mut self.news);
        }
    }

    /// One more wait has passed.
    fn count_down(&mut self)
        ensures { self.new ≡ record self.old { left = next_wait self.old.left } }
    {
        self.left = if self.left == 0 {
            WAITS_BETWEEN_LOOKS - 1
        } else {
            self.left - 1
        };
    }

    /// What the thread does between two waits.
    fn turn<R: Files + AllocGlobal>(&mut self, rt: &R)
        ensures { IsTurn self.old self.new }
    {
        self.begin();
        self.look_if_due(rt);
        self.count_down();
    }

    /// Looks at the file every two seconds once telephones are served, until the flag is set. If memory is refused, the
    /// next look does it.
    pub fn run<R: Files + Clock + Wait + AllocGlobal>(&mut self, rt: &R, is_over: &AtomicBool)
        ensures { Turns self.old self.new }
    {
        for _ in rt.forever() {
            if is_over.load(Ordering::SeqCst) {
                return;
            }
            self.turn(rt);
            thread::sleep(rt, Duration::from_millis(WAIT));
        }
    }
}
