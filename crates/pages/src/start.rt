//! When the server started.

ghost use Rattle.std.specs.Prelude.{◌≡◌, ◌++◌, OnOk};
ghost use Rattle.httpdate.specs.Date.{date_text};
ghost use Rattle.pages.specs.Start.{PutsStart};

use crate::piece::put_number;
use httpdate::HttpDate;
use std::alloc::AllocError;

fn put_date(out: &mut Vec<u8>, date: HttpDate) -> Result<(), AllocError>
    ensures { OnOk result (out.new.items ≡ out.old.items ++ date_text date) }
{
    out.extend_from_slice(&date.to_bytes())
}

/// Writes the moment this many seconds after the beginning of 1970, as `Sun, 06 Nov 1994 08:49:37 GMT`; from the year
/// 10000 on, the seconds themselves. If memory runs out, a part may be written.
pub(crate) fn put_start(out: &mut Vec<u8>, seconds: u64) -> Result<(), AllocError>
    ensures { OnOk result (PutsStart seconds out.old.items out.new.items) }
{
    match HttpDate::from_unix_secs(seconds) {
        Ok(date) => {
            put_date(out, date)?;
            Ok(())
        }
        Err(_) => {
            put_number(out, seconds)?;
            Ok(())
        }
    }
}
