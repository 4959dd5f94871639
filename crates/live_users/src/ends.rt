//! Both ends of the news of the configuration's file.

ghost use Rattle.std.specs.Prelude.{◌≡◌, None, IfOk};
ghost use Rattle.live_users.specs.Ends.{IsUnused};

use crate::file_thread::FileThread;
use crate::file_watch::FileWatch;
use crate::news::FileNews;
use crate::user_file::UserFile;
use rtrb::{Consumer, Producer, RingBuffer};
use std::alloc::{AllocError, Global};

/// The ends of the signalling: where it hands the file over as telephones are served, and where it gets news of it.
#[derive(Drop)]
pub struct FileEnds {
    pub(crate) begun: Producer<UserFile>,
    pub(crate) news: Consumer<FileNews>,
}

/// Both ends of the news of the file at a path, at which nothing has looked yet. At most one of them waits.
pub fn file_ends(alloc: Global, path: String) -> Result<(FileThread, FileEnds), AllocError>
    ensures begun { IfOk result (λ ends. IsUnused ends.1.begun ends.0.begun) }
    ensures news { IfOk result (λ ends. IsUnused ends.0.news ends.1.news) }
    ensures path { IfOk result (λ ends. ends.0.watch.path ≡ path) }
    ensures unseen { IfOk result (λ ends. ends.0.watch.last ≡ None) }
    ensures none { IfOk result (λ ends. ends.0.file ≡ None) }
    ensures due { IfOk result (λ ends. ends.0.left ≡ 0) }
{
    let (begun, begun_out) = RingBuffer::new(alloc, 1)?;
    let (news, news_out) = RingBuffer::new(alloc, 1)?;
    let thread = FileThread {
        watch: FileWatch::new(path),
        begun: begun_out,
        news,
        file: None,
        left: 0,
    };
    let ends = FileEnds {
        begun,
        news: news_out,
    };
    Ok((thread, ends))
}
