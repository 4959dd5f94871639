//! The snapshot that the page shows, and how old it is.

ghost use Rattle.std.specs.Prelude.{◌≡◌, Some, None, option_copied};
ghost use Rattle.page_desk.specs.Latest.{is_fresh};

use status::Status;

/// For this many milliseconds a snapshot is fresh.
const FRESH_FOR: u64 = 1_000;

/// The snapshot that came last, when it came, and the current moment, in milliseconds.
#[derive(Drop)]
pub(crate) struct Latest {
    pub(crate) status: Option<Status>,
    pub(crate) came: u64,
    pub(crate) moment: u64,
}

impl Latest {
    /// No snapshot came.
    pub(crate) fn new() -> Latest
        ensures { result ≡ record { status = None; came = 0; moment = 0 } }
    {
        Latest {
            status: None,
            came: 0,
            moment: 0,
        }
    }

    /// A snapshot comes now.
    pub(crate) fn take(&mut self, status: Status)
        ensures { self.new ≡ record { status = Some status; came = self.old.moment; moment = self.old.moment } }
    {
        self.status = Some(status);
        self.came = self.moment;
    }

    /// Whether a snapshot came less than a second ago.
    pub(crate) fn is_fresh(&self) -> bool
        ensures { result ≡ is_fresh self.now }
    {
        self.status.is_some() && self.moment.saturating_sub(self.came) < FRESH_FOR
    }
}
