//! What an operator was asked and told, only for clauses: it has no bytes.

ghost use Rattle.std.specs.Prelude.{◌≡◌, List, [], ◌∷◌, ◌++◌};
ghost use Rattle.std.specs.Coded.{codes};
ghost use Rattle.port_pool.specs.Pool.{coded_contents};
ghost use Rattle.live.specs.declared.report.Report as declared;
ghost use base.Fml.{ftrue};

use crate::report::Report;
use std::marker::Model;

/// Reports in the order in which they were noted. A program learns nothing from this: an operator uses it in its
/// clauses to say what it was asked and told.
#[derive(Drop)]
pub struct ReportLog {
    pub ghost entries: { List declared.Report } by { Prim.hlevel (codes, coded_contents) },
}

impl Model for ReportLog {
    ghost also_owns = { λ _. ftrue };
}

impl ReportLog {
    /// Nothing was noted. Takes no memory.
    pub fn new() -> ReportLog
        ensures { result.entries ≡ [] }
    {
        ReportLog {}
    }

    /// Notes a report after the earlier ones. Takes no memory.
    pub fn note(&mut self, report: &Report)
        ensures { self.new.entries ≡ self.old.entries ++ report.now ∷ [] }
    {
        let _ = report;
    }
}
