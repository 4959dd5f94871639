//! The salts of events, drawn from the configured key.

ghost use Rattle.std.specs.Prelude.{◌≡◌, ◌≢◌, ◌<◌, ◌/◌, ◌^◌, ℕ, List};
ghost use Rattle.std.specs.Duration.{as_nanos};
ghost use Rattle.rand_chacha.specs.ChaCha.{ChaCha};
ghost use Rattle.live.specs.Salts.{after_salt, behind_salts, next_place, print_key_at, salt_at};
ghost use Rattle.live.specs.Starts.{begun_at};

use index::PrintKey;
use rand_chacha::ChaCha20Rng;
use rand_core::SeedableRng;
use rand_core::utils::next_u64_via_u32;
use std::time::Duration;

/// How many words of a stream each microsecond of a second has.
const WORDS_A_MICROSECOND: u128 = 1 << 48;

/// The generator of a key at `start`, the time since 1970: its stream is the second, and its first place the
/// microsecond's. Takes no memory.
pub fn salts_of(key: [u8; 32], start: Duration) -> ChaCha20Rng
    ensures { result ≡ begun_at key (as_nanos start) }
{
    let mut salts = ChaCha20Rng::from_seed(key);
    salts.set_stream(start.as_secs());
    salts.set_word_pos(u128::from(start.subsec_micros()) * WORDS_A_MICROSECOND);
    salts
}

/// The next two words of the stream, the first as the low half. Takes no memory.
pub fn next_salt(salts: &mut ChaCha20Rng) -> u64
    ensures salt { result ≡ salt_at salts.old }
    ensures place { salts.new ≡ record salts.old { word_pos = next_place (next_place salts.old.word_pos) } }
{
    next_u64_via_u32(salts)
}

/// A print key: the next two salts of the stream, which no event gets then. Takes no memory.
pub fn next_print_key(salts: &mut ChaCha20Rng) -> PrintKey
    ensures key { result ≡ print_key_at salts.old }
    ensures place { salts.new ≡ after_salt (after_salt salts.old) }
{
    let first = next_salt(salts);
    let second = next_salt(salts);
    PrintKey { first, second }
}

/// Fewer than 2^67 salts each have their own place in the stream.
pub fn salts_have_their_own_places()
    ensures { (g : ChaCha) (m n : ℕ) → m < n → n < 2 ^ 67 → (behind_salts g m).word_pos ≢ (behind_salts g n).word_pos }
{}

/// Two starts at different microseconds share no place of a stream among their first 2^47 salts.
pub fn starts_have_their_own_places()
    ensures { (key : List ℕ) (a b m n : ℕ) → a / 1_000 ≢ b / 1_000 → m < 2 ^ 47 → n < 2 ^ 47
        → (behind_salts (begun_at key a) m).stream ≡ (behind_salts (begun_at key b) n).stream
        → (behind_salts (begun_at key a) m).word_pos ≢ (behind_salts (begun_at key b) n).word_pos }
{}
