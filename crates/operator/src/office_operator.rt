//! What the operator of an office is told, as lines of the log, and what is news to the agent.

ghost use Rattle.std.specs.Prelude.{◌≡◌, true, false};
ghost use Rattle.configuration.specs.declared.level.LogLevel.TheVariants as levels;
ghost use Rattle.log_pipe.specs.Losses.{PassesOn};
ghost use Rattle.log_rules.specs.Levels.{is_up_to};

use crate::event_log::EventLog;
use crate::snapshot::show;
use agent::Agent;
use call_core::NoteOfCall;
use call_traffic::{MediaLog, PortCounter, SilentWay};
use configuration::{Config, LogLevel};
use live::{News, NewsLog, Operator, Report, ReportLog, Trouble};
use live_users::UserDesk;
use log_pipe::LogLines;
use log_rules::{logs_calls, logs_trouble};
use note_lines::{MediaCounts, NotedEvent};
use page_desk::StatusDesk;
use plans::Note;
use sip_uri::Addr;
use std::alloc::{AllocError, Global};
use std::snapshot::Snapshot;

/// What the signalling hands on and looks at beside its events.
#[derive(Drop)]
pub struct Desks {
    /// Where a page is served, if one is.
    pub page: Option<StatusDesk>,
    /// What is known of the configuration's file, if there is a file.
    pub users: Option<UserDesk>,
}

/// Writes what it is told to the log, and the news of an office: other users, and silent calls.
#[derive(Drop)]
pub struct OfficeOperator<C> {
    /// What it was asked and told, and the news that it handed in. Only clauses read them.
    told: ReportLog,
    handed: NewsLog,
    /// A call without media for this many minutes is silent.
    silent_minutes: Option<u32>,
    level: LogLevel,
    alloc: Global,
    lines: LogLines,
    log: EventLog,
    media: MediaLog<C>,
    /// Where a page is served, if one is.
    desk: Option<StatusDesk>,
    /// What is known of the configuration's file, if there is a file.
    users: Option<UserDesk>,
}

impl<C: PortCounter> OfficeOperator<C> {
    /// The operator of an office with this configuration, to whom nothing was told. Takes no memory.
    pub fn new(
        alloc: Global,
        config: &Config,
        lines: LogLines,
        media: MediaLog<C>,
        desks: Desks,
    ) -> OfficeOperator<C>
        ensures minutes { result.silent_minutes ≡ config.now.silent_minutes }
        ensures level { (result.level ≡ config.now.log) × (result.log.level ≡ config.now.log) }
        ensures lines { result.lines ≡ lines }
        ensures media { result.media ≡ media }
        ensures desks { (result.desk ≡ desks.page) × (result.users ≡ desks.users) }
    {
        OfficeOperator {
            told: ReportLog::new(),
            handed: NewsLog::new(alloc),
            silent_minutes: config.silent_minutes,
            level: config.log,
            alloc,
            lines,
            log: EventLog::new(alloc, config.log),
            media,
            desk: desks.page,
            users: desks.users,
        }
    }

    /// Passes a line of trouble on, unless nothing is logged.
    fn put(&mut self, line: &[u8])
        ensures told { self.new.told ≡ self.old.told }
        ensures handed { self.new.handed ≡ self.old.handed }
        ensures passed { is_up_to levels.Trouble self.old.level ≡ true → PassesOn line.now self.old.lines self.new.lines }
        ensures quiet { is_up_to levels.Trouble self.old.level ≡ false → self.new ≡ self.old }
    {
        if logs_trouble(self.level) {
            self.hand_over(line);
        }
    }

    /// Passes lines on, each with its end: to the log, and to the page, if there is one.
    fn hand_over(&mut self, lines: &[u8])
        ensures told { self.new.told ≡ self.old.told }
        ensures handed { self.new.handed ≡ self.old.handed }
        ensures passed { PassesOn lines.now self.old.lines self.new.lines }
    {
        self.lines.put(lines);
        if let Some(desk) = &mut self.desk {
            desk.put_lines(lines);
        }
    }

    /// Takes news of the configuration's file, and logs what changed.
    fn look_at_file(&mut self)
        ensures told { self.new.told ≡ self.old.told }
        ensures handed { self.new.handed ≡ self.old.handed }
    {
        if let Some(users) = &mut self.users
            && let Some(line) = users.look()
        {
            self.put(line.as_bytes());
        }
    }

    /// A silent call, or otherwise other users.
    fn find_news(&mut self, now: u64) -> Option<News>
        ensures told { self.new.told ≡ self.old.told }
        ensures handed { self.new.handed ≡ self.old.handed }
    {
        if let Some(minutes) = self.silent_minutes
            && let Some(number) = self.media.silent_call(now, minutes)
        {
            return Some(News::Silent(number));
        }
        let users = self.users.as_mut()?.hand_in(now).ok()??;
        Some(News::Users(users))
    }

    /// The agent took the event of a round: logs the users that it has from now on, if the event was about that.
    fn settle_users(&mut self)
        ensures told { self.new.told ≡ self.old.told }
        ensures handed { self.new.handed ≡ self.old.handed }
    {
        if let Some(users) = &mut self.users
            && let Ok(Some(line)) = users.settle()
            && logs_calls(self.level)
        {
            self.hand_over(line.as_bytes());
        }
    }

    /// Passes the server's status to the page, if it was asked for.
    fn look_at(&mut self, agent: &Agent, now: u64)
        ensures told { self.new.told ≡ self.old.told }
        ensures handed { self.new.handed ≡ self.old.handed }
    {
        if let Some(desk) = &mut self.desk {
            show(self.alloc, desk, agent, &mut self.media, now);
        }
    }

    /// The ends of calls that are silent, if it is time to look at the calls.
    fn silent_ways(&mut self, now: u64) -> Result<Vec<SilentWay>, AllocError>
        ensures told { self.new.told ≡ self.old.told }
        ensures handed { self.new.handed ≡ self.old.handed }
    {
        if self.media.look(now) && logs_calls(self.level) {
            self.media.silent_ways(now)
        } else {
            Ok(Vec::new(self.alloc))
        }
    }

    /// Follows what happened to a call, so that its media are counted. Returns how many datagrams it carried if it is
    /// over.
    fn follow(&mut self, agent: &Agent, note: NoteOfCall, now: u64) -> Option<MediaCounts>
        ensures told { self.new.told ≡ self.old.told }
        ensures handed { self.new.handed ≡ self.old.handed }
    {
        let _ = self.media.follow(agent.calls(), note, now);
        let carried = self.media.end(note)?;
        Some(MediaCounts {
            from_caller: carried.from_caller,
            from_callee: carried.from_callee,
        })
    }

    /// The lines that are due at this moment, in milliseconds.
    fn due_lines(&mut self, agent: &Agent, now: u64) -> Result<Vec<u8>, AllocError>
        ensures told { self.new.told ≡ self.old.told }
        ensures handed { self.new.handed ≡ self.old.handed }
    {
        let ways = self.silent_ways(now)?;
        let mut lines = Vec::new(self.alloc);
        self.log.put_due(&mut lines, agent.tally(), &ways, now)?;
        Ok(lines)
    }

    /// The same, followed by the line of an event that the agent took then.
    fn event_lines(
        &mut self,
        agent: &Agent,
        source: Option<Addr>,
        now: u64,
    ) -> Result<Vec<u8>, AllocError>
        ensures told { self.new.told ≡ self.old.told }
        ensures handed { self.new.handed ≡ self.old.handed }
    {
        let due = self.due_lines(agent, now);
        let note = agent.note();
        let media = match note {
            Note::Call(note) => self.follow(agent, note, now),
            _ => None,
        };
        let event = NotedEvent {
            note,
            calls: agent.calls(),
            registrar: agent.registrar(),
            user: agent.registered_user(),
            moment: agent.moment(),
            source,
            media,
        };
        let mut lines = due?;
        self.log.put_event(&mut lines, event, now)?;
        Ok(lines)
    }

    /// Passes lines on, if there are any.
    fn hand_over_made(&mut self, lines: Result<Vec<u8>, AllocError>)
        ensures told { self.new.told ≡ self.old.told }
        ensures handed { self.new.handed ≡ self.old.handed }
    {
        if let Ok(lines) = lines
            && !lines.is_empty()
        {
            self.hand_over(lines.as_slice());
        }
    }
}

impl<C: PortCounter> Operator for OfficeOperator<C> {
    ghost told = { λ t. t.told.entries };

    ghost use Rattle.live.specs.News.{logged};

    ghost handed = { λ t. logged t.handed };

    fn news(&mut self, now: u64) -> Option<News> {
        self.told.note(&Report::Asked(now));
        self.look_at_file();
        let news = self.find_news(now)?;
        if self.handed.note(&news).is_err() {
            return None;
        }
        Some(news)
    }

    fn tell(&mut self, trouble: Trouble) {
        self.told.note(&Report::Begins(trouble));
        match trouble {
            Trouble::Socket => self.put(b"office: trouble: the socket for SIP fails\n"),
            Trouble::Memory => self.put(b"office: trouble: memory is refused for an event\n"),
        }
    }

    fn tell_end(&mut self, trouble: Trouble) {
        self.told.note(&Report::Ends(trouble));
        match trouble {
            Trouble::Socket => self.put(b"office: trouble is over: the socket for SIP\n"),
            Trouble::Memory => self.put(b"office: trouble is over: memory for events\n"),
        }
    }

    fn noted(&mut self, agent: &Agent, source: Option<Addr>, now: u64) {
        self.told
            .note(&Report::Noted(Snapshot::of(agent), source, now));
        let lines = self.event_lines(agent, source, now);
        self.hand_over_made(lines);
        self.settle_users();
        self.look_at(agent, now);
    }

    fn look(&mut self, agent: &Agent, now: u64) {
        self.told.note(&Report::Looked(Snapshot::of(agent), now));
        if let Some(users) = &mut self.users {
            users.lose();
        }
        let lines = self.due_lines(agent, now);
        self.hand_over_made(lines);
        self.lines.tell_lost();
        self.look_at(agent, now);
    }
}
