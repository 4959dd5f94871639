//! The reason text of each status (RFC 3261 section 21).

ghost use Rattle.std.specs.Prelude.{◌≡◌};
ghost use Rattle.sip_writing.specs.Reasons.{reason_of};

/// The text that the server writes for a status; `Other` for a number without a text.
#[tactic(auto, unfolding(crate::specs::Reasons::reason_of))]
pub(crate) fn reason_of(status: u16) -> &'static [u8]
    ensures { result.now ≡ reason_of status }
{
    match status {
        100 => b"Trying",
        180 => b"Ringing",
        181 => b"Call Is Being Forwarded",
        182 => b"Queued",
        183 => b"Session Progress",
        200 => b"OK",
        400 => b"Bad Request",
        403 => b"Forbidden",
        404 => b"Not Found",
        405 => b"Method Not Allowed",
        408 => b"Request Timeout",
        415 => b"Unsupported Media Type",
        420 => b"Bad Extension",
        423 => b"Interval Too Brief",
        480 => b"Temporarily Unavailable",
        481 => b"Call/Transaction Does Not Exist",
        482 => b"Loop Detected",
        483 => b"Too Many Hops",
        486 => b"Busy Here",
        487 => b"Request Terminated",
        488 => b"Not Acceptable Here",
        491 => b"Request Pending",
        500 => b"Server Internal Error",
        501 => b"Not Implemented",
        503 => b"Service Unavailable",
        505 => b"Version Not Supported",
        600 => b"Busy Everywhere",
        603 => b"Decline",
        606 => b"Not Acceptable",
        _ => b"Other",
    }
}
