//! A look at the configuration's file, and what is handed over for it.

ghost use Rattle.std.specs.Prelude.{◌≡◌, IfOk, OnErr};
ghost use Rattle.live_users.specs.FileLooks.{AreNewsOf, HandsOver, IsLook, IsReading, IsRefusal, IsReported};

use crate::file_watch::{FileWatch, Look};
use crate::news::{FileNews, news_of};
use crate::report::FileReport;
use crate::user_file::UserFile;
use rtrb::Producer;
use std::alloc::{AllocError, Global};
use std::fs;
use std::fs::Files;

/// What there is to report of the file at a path now.
fn read<R: Files + AllocGlobal>(
    rt: &R,
    path: &str,
    file: &mut UserFile,
) -> Result<Option<FileReport>, AllocError>
    ensures reading { IfOk result (IsReading file.old file.new) }
    ensures err { OnErr result (file.new ≡ file.old) }
{
    match fs::read(rt, path) {
        Ok(bytes) => file.read(&bytes),
        Err(_) => Ok(Some(file.miss())),
    }
}

/// What there is to report of the file after such a look at its path.
fn report_at<R: Files + AllocGlobal>(
    rt: &R,
    look: Look,
    path: &str,
    file: &mut UserFile,
) -> Result<Option<FileReport>, AllocError>
    ensures report { IfOk result (IsReported look file.old file.new) }
    ensures err { OnErr result (file.new ≡ file.old) }
{
    match look {
        Look::Same => Ok(None),
        Look::Changed => read(rt, path, file),
        Look::Gone => Ok(Some(file.miss())),
    }
}

/// What is handed over for a report. If memory is refused, the file counts as refused only if it did before.
fn tell(
    alloc: Global,
    report: Option<FileReport>,
    was_refused: bool,
    file: &mut UserFile,
) -> Result<Option<FileNews>, AllocError>
    ensures news { IfOk result (λ news. AreNewsOf was_refused report news × (file.new ≡ file.old)) }
    ensures err { OnErr result (IsRefusal report × (file.new ≡ record file.old { is_refused = was_refused })) }
{
    let Some(report) = report else {
        return Ok(None);
    };
    match news_of(alloc, report, was_refused) {
        Ok(news) => Ok(Some(news)),
        Err(error) => {
            file.set_refused(was_refused);
            Err(error)
        }
    }
}

/// Looks at the file: what is to be handed over, if it has changed since the last look. If memory is refused, nothing
/// counts as reported.
fn look<R: Files + AllocGlobal>(
    rt: &R,
    watch: &mut FileWatch,
    file: &mut UserFile,
) -> Result<Option<FileNews>, AllocError>
    ensures look { IfOk result (IsLook watch.old.last watch.new.last file.old file.new) }
    ensures err { OnErr result (file.new ≡ file.old) }
    ensures path { watch.new.path ≡ watch.old.path }
{
    let was_refused = file.is_refused();
    let look = watch.look(rt);
    let report = report_at(rt, look, watch.path(), file)?;
    tell(rt.alloc(), report, was_refused, file)
}

/// Looks at the file, unless news of it still wait, and hands over what there is. If memory is refused, the next look
/// does it.
pub(crate) fn hand_over<R: Files + AllocGlobal>(
    rt: &R,
    watch: &mut FileWatch,
    file: &mut UserFile,
    news: &mut Producer<FileNews>,
)
    ensures hands { HandsOver watch.old.last watch.new.last file.old file.new news.old news.new }
    ensures path { watch.new.path ≡ watch.old.path }
{
    if news.is_full() {
        return;
    }
    match look(rt, watch, file) {
        Ok(Some(found)) => news.push_reserved(found),
        Ok(None) => {}
        Err(_) => watch.forget(),
    }
}
