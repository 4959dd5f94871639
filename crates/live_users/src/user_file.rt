//! A configuration's file while the server runs: who its users are.

ghost use Rattle.std.specs.Prelude.{◌≡◌, false, Some, IfOk, OnOk, OnErr};
ghost use Rattle.configuration.specs.declared.config.Config.{Config};
ghost use Rattle.configuration.specs.Reading.{ReadsConfig};
ghost use Rattle.live_users.specs.Reports.{right_report, users_after, IsReportOf};

use crate::lists::{keep_all, missing_count};
use crate::report::FileReport;
use configuration::{ConfigError, fault_of, read_config};
use std::alloc::{AllocError, Global};
use std::marker::Model;
use text::{Text, Texts};

/// What was reported of a configuration's file.
pub struct UserFile {
    alloc: Global,
    /// Those that were reported last.
    users: Vec<Text<'static>>,
    is_refused: bool,
}

impl Drop for UserFile {
    fn drop(self) {
        let UserFile {
            alloc: _,
            users: _,
            is_refused: _,
        } = self;
    }
}

impl Model for UserFile {
    ghost use Rattle.live_users.specs.Reports.{Contents};

    ghost Value = { Contents };

    ghost view = { λ f. record { users = f.users.items; is_refused = f.is_refused } };
}

impl UserFile {
    /// A file that is right, and has these users.
    pub fn new(alloc: Global, users: &[Text<'static>]) -> Result<UserFile, AllocError>
        ensures users { IfOk result (λ file. file.users ≡ users.now) }
        ensures right { IfOk result (λ file. file.is_refused ≡ false) }
    {
        Ok(UserFile {
            alloc,
            users: keep_all(alloc, users)?,
            is_refused: false,
        })
    }

    /// Whether it was refused when it was last read. Takes no memory.
    pub fn is_refused(&self) -> bool
        ensures { result ≡ self.now.is_refused }
    {
        self.is_refused
    }

    /// Whether it counts as refused from now on.
    pub(crate) fn set_refused(&mut self, is_refused: bool)
        ensures { self.new ≡ record self.old { is_refused = is_refused } }
    {
        self.is_refused = is_refused;
    }

    /// The file is right, and these are its users.
    fn accept(&mut self, users: &[Text<'static>]) -> Result<Option<FileReport>, AllocError>
        ensures report { IfOk result (λ report. report ≡ right_report self.old users.now) }
        ensures file { IfOk result (λ report. self.new ≡ users_after self.old report) }
        ensures err { OnErr result (self.new ≡ self.old) }
    {
        let added = missing_count(users, &self.users);
        let removed = missing_count(&self.users, users);
        if added == 0 && removed == 0 {
            let was_refused = self.is_refused;
            self.is_refused = false;
            return Ok(was_refused.then_some(FileReport::RightAgain));
        }
        let reported = keep_all(self.alloc, users)?;
        self.users = keep_all(self.alloc, users)?;
        self.is_refused = false;
        Ok(Some(FileReport::Users {
            users: Texts::from_vec(reported),
            added,
            removed,
        }))
    }

    /// The bytes say no configuration that keeps the rules.
    fn refuse(&mut self, bytes: &[u8]) -> Result<Option<FileReport>, AllocError>
        requires { (c : Config) → ¬ (ReadsConfig bytes.now c) }
        ensures report { IfOk result (IsReportOf self.old bytes.now) }
        ensures file { IfOk result (λ report. self.new ≡ users_after self.old report) }
        ensures err { OnErr result (self.new ≡ self.old) }
    {
        let fault = fault_of(self.alloc, bytes)?;
        self.is_refused = true;
        Ok(Some(FileReport::Refused(fault)))
    }

    /// What is to be reported of a file that can't be read. Takes no memory.
    pub fn miss(&mut self) -> FileReport
        ensures report { result ≡ FileReport.Refused None }
        ensures file { self.new ≡ users_after self.old (Some result) }
    {
        self.is_refused = true;
        FileReport::Refused(None)
    }

    /// What is to be reported of the bytes of the file: other users, that it is right again, or why it is refused;
    /// nothing where all is as it was reported last. If memory is refused, nothing counts as reported.
    pub fn read(&mut self, bytes: &[u8]) -> Result<Option<FileReport>, AllocError>
        ensures report { IfOk result (IsReportOf self.old bytes.now) }
        ensures file { IfOk result (λ report. self.new ≡ users_after self.old report) }
        ensures err { OnErr result (self.new ≡ self.old) }
    {
        match read_config(self.alloc, bytes) {
            Ok(config) => self.accept(config.users.as_slice()),
            Err(ConfigError::OutOfMemory) => Err(AllocError),
            Err(_) => self.refuse(bytes),
        }
    }
}
