//! What a start says: where telephones are served, and a warning.

ghost use Rattle.std.specs.Prelude.{◌≡◌, ◌==◌, IfSome, is_some};
ghost use Rattle.std.specs.List.{list_all};
ghost use Rattle.host.specs.Warnings.{is_examples_key, warning_text};

use configuration::Config;

/// The warning.
const EXAMPLES_KEY: &str =
    "office: random_key is the example's key of zeros: anyone can guess tags and branches\n";

/// Announces that telephones are served.
pub trait Announcer {
    /// Says where they are served.
    fn announce(&self);
}

/// Where they are served, for standard output.
#[derive(Drop)]
pub struct Announcement<'a, R> {
    pub rt: &'a R,
    pub config: &'a Config,
}

fn is_zero(key: &[u8]) -> bool
    ensures { result ≡ is_examples_key key.now }
{
    key.iter().all(|byte| *byte == 0)
}

/// The line that warns of the example's key of the random numbers, which everybody knows, if a configuration has it.
/// Takes no memory.
pub fn warning(config: &Config) -> Option<&'static str>
    ensures warned { is_some result ≡ is_examples_key config.now.random_key }
    ensures text { IfSome result (λ text. text.now ≡ warning_text) }
{
    if is_zero(&config.random_key) {
        Some(EXAMPLES_KEY)
    } else {
        None
    }
}

impl<R: Print> Announcer for Announcement<'_, R> {
    fn announce(&self) {
        let Config { ip, sip_port, .. } = self.config;
        let [a, b, c, d] = ip;
        let _ = println!(self.rt; "listening {a}.{b}.{c}.{d} {sip_port}");
    }
}
