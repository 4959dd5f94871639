//! What holds for the pairs of an offer.

ghost use Rattle.std.specs.Prelude.{◌≡◌, ◌≤◌, ℕ, Bool, List, Option, Some, IsTrue, length};
ghost use Rattle.std.specs.List.{list_all};
ghost use Rattle.port_pool.specs.declared.pair.Pair.{Pair};
ghost use Rattle.sdp.specs.declared.description.Media.{Media};
ghost use Rattle.offer_answer.specs.Rows.{are_distinct};
ghost use Rattle.call_media.specs.declared.seat.Seat.{Seat};
ghost use Rattle.port_pool.specs.Pool.{Contents};
ghost use Rattle.offer_answer.specs.Alike.{Alike};
ghost use Rattle.offer_answer.specs.Direct.{direct};
ghost use Rattle.offer_answer.specs.Joined.{joined};
ghost use Rattle.offer_answer.specs.Session.{leads_by};
ghost use Rattle.call_media.specs.declared.session.Session.{Session};
ghost use Rattle.call_media.specs.declared.state.CallMedia.{CallMedia};
ghost use Rattle.call_media.specs.Sessions.{pairs_of_session};
ghost use Rattle.call_media.specs.Serving.{Serves, SameFor, are_held};
ghost use Rattle.call_media.specs.Seats.{are_apart, are_seated, evens, pairs_needed, pairs_of, seated};

/// The pairs of an offer are those of the media in use and the fresh ones, each for one medium and one end; and with as
/// many fresh ones as it needs, each medium has pairs whose port is not 0.
pub fn seats_are_apart()
    ensures each { (caller_offers : Bool) (media : List Media) (kept : List (Option Seat)) (fresh : List Pair) (p : ℕ → Bool) →
        IsTrue (list_all p (pairs_of kept)) → IsTrue (list_all p (evens fresh)) →
        IsTrue (list_all p (pairs_of (seated caller_offers media kept fresh))) }
    ensures distinct { (caller_offers : Bool) (media : List Media) (kept : List (Option Seat)) (fresh : List Pair) →
        IsTrue (are_distinct (pairs_of kept)) → IsTrue (are_distinct (evens fresh)) →
        IsTrue (are_apart (pairs_of kept) (evens fresh)) →
        IsTrue (are_distinct (pairs_of (seated caller_offers media kept fresh))) }
    ensures there { (caller_offers : Bool) (media : List Media) (kept : List (Option Seat)) (fresh : List Pair) →
        pairs_needed media kept ≤ length fresh →
        IsTrue (are_seated media (seated caller_offers media kept fresh)) }
{}

/// Where the session of a call is live, its two legs, joined by the relay table, mean what the offerer's own offer
/// and the answerer's own answer mean directly. Each was asked what the other offered.
pub fn session_is_direct()
    ensures joined { (media : CallMedia) (pool : Contents) (s : Session) → Serves media pool → media.session ≡ Some s →
        joined media.range.ip (leads_by pool.rows) s.offer_taken s.answer_sent s.offer_sent s.answer_taken
        ≡ direct s.offer_taken s.answer_taken }
    ensures offers { (media : CallMedia) (pool : Contents) (s : Session) → Serves media pool → media.session ≡ Some s →
        Alike s.offer_taken s.offer_sent }
    ensures answers { (media : CallMedia) (pool : Contents) (s : Session) → Serves media pool → media.session ≡ Some s →
        Alike s.answer_taken s.answer_sent }
    ensures held { (media : CallMedia) (pool : Contents) (s : Session) → Serves media pool → media.session ≡ Some s →
        IsTrue (are_held media.number pool (pairs_of_session s)) }
{
    offer_answer::joined_is_direct();
}

/// The media of a call that has the same pairs and the same rows at them are served as before.
pub fn spared_call_serves()
    ensures { (media : CallMedia) (pool after : Contents) → Serves media pool → SameFor media.number pool after → Serves media after }
{
    offer_answer::rows_of_session_stand();
}
