//! Why a request gets no page.

ghost use Rattle.std.specs.Prelude.{◌≡◌};
ghost use Rattle.page_server.specs.Responses.{allow_of, kind_of_refusals, status_of};

/// Why a request gets no page, by the names of the statuses (RFC 9110 section 15, RFC 6585 section 5).
#[derive(Clone, Copy, Debug)]
pub enum Refusal {
    BadRequest,
    NotFound,
    MethodNotAllowed,
    RequestTimeout,
    HeadTooLarge,
    ServiceUnavailable,
}

/// The status code and its reason phrase.
pub(crate) fn status_of(refusal: Refusal) -> &'static [u8]
    ensures { result.now ≡ status_of refusal }
{
    match refusal {
        Refusal::BadRequest => b"400 Bad Request",
        Refusal::NotFound => b"404 Not Found",
        Refusal::MethodNotAllowed => b"405 Method Not Allowed",
        Refusal::RequestTimeout => b"408 Request Timeout",
        Refusal::HeadTooLarge => b"431 Request Header Fields Too Large",
        Refusal::ServiceUnavailable => b"503 Service Unavailable",
    }
}

/// The header field that a refusal has besides those of each response: the methods, if another one was used.
pub(crate) fn allow_of(refusal: Refusal) -> &'static [u8]
    ensures { result.now ≡ allow_of refusal }
{
    match refusal {
        Refusal::MethodNotAllowed => b"Allow: GET\r\n",
        Refusal::BadRequest
        | Refusal::NotFound
        | Refusal::RequestTimeout
        | Refusal::HeadTooLarge
        | Refusal::ServiceUnavailable => b"",
    }
}

/// The Content-Type line of a response without a page.
#[tactic(auto, unfolding(crate::specs::Responses::kind_of_refusals))]
pub(crate) fn kind_of_refusals() -> &'static [u8]
    ensures { result.now ≡ kind_of_refusals }
{
    b"Content-Type: text/plain; charset=utf-8\r\n"
}
