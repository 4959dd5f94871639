//! What is served.

ghost use Rattle.std.specs.Prelude.{◌≡◌};
ghost use Rattle.page_server.specs.Requests.{path_named, path_of};
ghost use Rattle.page_server.specs.Responses.{kind_of_page};

use text::cut;

/// What is served.
#[derive(Clone, Copy, Debug)]
pub enum Path {
    /// `/`: HTML, for people.
    Page,
    /// `/status.json`.
    Json,
    /// `/metrics`: the text form of Prometheus.
    Metrics,
}

fn path_named(text: &[u8]) -> Option<Path>
    ensures { result ≡ path_named text.now }
{
    if text == b"/".as_slice() {
        Some(Path::Page)
    } else if text == b"/status.json".as_slice() {
        Some(Path::Json)
    } else if text == b"/metrics".as_slice() {
        Some(Path::Metrics)
    } else {
        None
    }
}

/// What a request's target names, whatever query follows it.
pub(crate) fn path_of(target: &[u8]) -> Option<Path>
    ensures { result ≡ path_of target.now }
{
    path_named(cut(target, b'?').0)
}

/// The Content-Type line.
#[tactic(auto, unfolding(crate::specs::Responses::kind_of_page))]
pub(crate) fn kind_of_page(path: Path) -> &'static [u8]
    ensures { result.now ≡ kind_of_page path }
{
    match path {
        Path::Page => b"Content-Type: text/html; charset=utf-8\r\n",
        Path::Json => b"Content-Type: application/json\r\n",
        Path::Metrics => b"Content-Type: text/plain; version=0.0.4\r\n",
    }
}
