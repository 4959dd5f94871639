//! What is handed over of a configuration's file that changed.

ghost use Rattle.std.specs.Prelude.{◌≡◌, true, IfOk, OnErr};
ghost use Rattle.live_users.specs.News.{IsNewsOf, IsRefusalOf, end_of, is_refusal, known_reason};

use crate::report::FileReport;
use configuration::ConfigFault;
use std::alloc::{AllocError, Global};
use std::fmt::Display;
use text::{Text, Texts};

/// Why a file is refused that can't be read.
const UNREADABLE: &str = "the file of the configuration cannot be read";

/// The line for a file that is right again.
const END_LINE: &[u8] = b"office: trouble is over: config\n";

/// Other users of the file: how many were added, and how many removed.
#[derive(Drop)]
pub struct OtherUsers {
    pub(crate) users: Texts<'static>,
    pub(crate) added: usize,
    pub(crate) removed: usize,
}

/// What the thread hands over of a file that changed.
#[derive(Drop)]
pub struct FileNews {
    pub(crate) users: Option<OtherUsers>,
    /// The line to be logged, with its end.
    pub(crate) line: Option<Text<'static>>,
}

/// The line for a file that is refused for this reason.
fn refusal_line<D: Display>(alloc: Global, reason: &D) -> Result<Text<'static>, AllocError>
    ensures { IfOk result (IsRefusalOf (D.output reason.now)) }
{
    let reason = reason.to_string(alloc)?;
    let line = format!(in alloc; "office: trouble: config: {reason}\n")?;
    Ok(Text::from_vec(line.into_bytes()))
}

/// The line for a file with this fault, or one that can't be read.
fn line_of(alloc: Global, fault: Option<ConfigFault>) -> Result<Text<'static>, AllocError>
    ensures { IfOk result (IsRefusalOf (known_reason fault)) }
{
    match fault {
        Some(fault) => refusal_line(alloc, &fault),
        None => refusal_line(alloc, &UNREADABLE),
    }
}

/// The line for a file that is right, if it was refused.
fn end_line(was_refused: bool) -> Option<Text<'static>>
    ensures { result ≡ end_of was_refused }
{
    was_refused.then_some(Text::lent(END_LINE))
}

/// What is handed over for a report on a file. Memory is refused for the line of a refusal only.
pub(crate) fn news_of(
    alloc: Global,
    report: FileReport,
    was_refused: bool,
) -> Result<FileNews, AllocError>
    ensures news { IfOk result (IsNewsOf was_refused report) }
    ensures err { OnErr result (is_refusal report ≡ true) }
{
    match report {
        FileReport::Users {
            users,
            added,
            removed,
        } => Ok(FileNews {
            users: Some(OtherUsers {
                users,
                added,
                removed,
            }),
            line: end_line(was_refused),
        }),
        FileReport::RightAgain => Ok(FileNews {
            users: None,
            line: end_line(was_refused),
        }),
        FileReport::Refused(fault) => Ok(FileNews {
            users: None,
            line: Some(line_of(alloc, fault)?),
        }),
    }
}
