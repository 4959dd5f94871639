//! Laws of the definitions, for all descriptions, and a plain call worked by them.

ghost use Rattle.std.specs.Prelude.{◌≡◌, ◌≢◌, ℕ, All, List, [], ◌∷◌, codes, true, false, Option, Some, None, IsTrue};
ghost use Rattle.std.specs.List.{list_all};
ghost use Rattle.std.specs.FinMap as map;
ghost use Rattle.sip_uri.specs.declared.uri.Addr.{Addr};
ghost use Rattle.port_pool.specs.RelayTable.{Rows};
ghost use Rattle.port_pool.specs.Pool.{Contents, AreOwn, StandOnce};
ghost use Rattle.sdp.specs.declared.address.Address.TheVariants.{Ip4};
ghost use Rattle.sdp.specs.declared.description.Description.{Description};
ghost use Rattle.sdp.specs.declared.description.Media.{Media};
ghost use Rattle.sdp.specs.Addresses.{is_unicast};
ghost use Rattle.sdp.specs.Grammar.{ReadsDescription};
ghost use Rattle.sdp.specs.PlaceOf.{address_of_medium};
ghost use Rattle.sdp.specs.Writing.{description_text};
ghost use Rattle.offer_answer.specs.declared.range.OwnRange.{OwnRange};
ghost use Rattle.offer_answer.specs.declared.sent_description.ServerOrigin.{ServerOrigin};
ghost use Rattle.offer_answer.specs.Alike.{Alike};
ghost use Rattle.offer_answer.specs.Checks.{is_carried, is_same_media, medium_fault, answered_fault};
ghost use Rattle.offer_answer.specs.Direct.{hold_address, direct};
ghost use Rattle.offer_answer.specs.Joined.{is_at_server, joined};
ghost use Rattle.offer_answer.specs.Readdressing.{AreOfTheirSizes, readdressed_description};
ghost use Rattle.offer_answer.specs.Relayed.{SentBy};
ghost use Rattle.offer_answer.specs.Rows.{HasRows, are_distinct, is_even, pairs_named, rows_of, table_of};
ghost use Rattle.offer_answer.specs.Session.{HoldsPairs, leads_by, session_lines};
ghost use Rattle.offer_answer.specs.Worked.{server, ann, bob, attribute, offer_at, answer_at, with_video, offer_taken, offer_sent, answer_taken, answer_sent, address, row, four_rows, audio_stream};

/// Being alike is an equivalence.
pub fn alike_is_equivalence()
    ensures reflexive { (d : Description) → Alike d d }
    ensures symmetric { (d e : Description) → Alike d e → Alike e d }
    ensures transitive { (d e f : Description) → Alike d e → Alike e f → Alike d f }
{}

/// Two legs that a relay table joins mean what the offer and the answer of the two ends mean directly. X is the
/// offerer's leg, Y the answerer's: each end is sent what the other said except the server's address and ports, and
/// the table has the rows of the four.
pub fn joined_is_direct()
    ensures { (server : List ℕ) (table : ℕ → Option Addr) (OX SX OY SY : Description) →
        Alike OX OY → Alike SY SX → IsTrue (is_at_server server SX) → IsTrue (is_at_server server OY) →
        HasRows table OX SX OY SY → joined server table OX SX OY SY ≡ direct OX SY }
{}

/// The table of only a session's rows has them, where the pairs that the session names are even and differ.
pub fn rows_lead()
    ensures { (OX SX OY SY : Description) →
        IsTrue (list_all is_even (pairs_named OX SX OY SY)) → IsTrue (are_distinct (pairs_named OX SX OY SY)) →
        HasRows (table_of (rows_of OX SX OY SY)) OX SX OY SY }
{}

/// What the server sends on in place of an offer and of its answer, with only the session's rows, means what the
/// offer and the answer mean directly, where the pairs that the session names are even and differ.
pub fn relayed_is_direct()
    ensures { (server : List ℕ) (offer answer offer_sent answer_sent : Description) →
        SentBy server offer offer_sent → SentBy server answer answer_sent →
        IsTrue (list_all is_even (pairs_named offer answer_sent offer_sent answer)) →
        IsTrue (are_distinct (pairs_named offer answer_sent offer_sent answer)) →
        joined server (table_of (rows_of offer answer_sent offer_sent answer)) offer answer_sent offer_sent answer
        ≡ direct offer answer }
{}

/// What the server sends on in place of a description that was read reads back, where the server's address is below
/// 224.0.0.0 (RFC 4566 section 5.7): its bytes, as `write_description` gives them, are that description.
pub fn sent_is_read()
    ensures { (text : List ℕ) (taken : Description) (origin : ServerOrigin) (ports : List ℕ) →
        ReadsDescription text taken → AreOfTheirSizes origin ports → IsTrue (is_unicast origin.ip) →
        ReadsDescription (description_text (readdressed_description origin ports taken))
        (readdressed_description origin ports taken) }
{}

/// The lines of a session are of the ports of a call that holds the session's pairs, no port is in two of them, and a
/// table with these lines has the rows of the session.
pub fn rows_of_session_stand()
    ensures own { (pool : Contents) (call : ℕ) (OX SX OY SY : Description) →
        IsTrue (list_all is_even (pairs_named OX SX OY SY)) → HoldsPairs pool call OX SX OY SY →
        AreOwn pool call (session_lines OX SX OY SY) }
    ensures once { (OX SX OY SY : Description) →
        IsTrue (list_all is_even (pairs_named OX SX OY SY)) → IsTrue (are_distinct (pairs_named OX SX OY SY)) →
        StandOnce (session_lines OX SX OY SY) }
    ensures rows { (rows : Rows) (OX SX OY SY : Description) →
        All (λ l. map.get rows l.port ≡ l.hop) (session_lines OX SX OY SY) → HasRows (leads_by rows) OX SX OY SY }
{}

/// A medium at the address 0.0.0.0 is refused neither in an offer nor in an answer because of its place, whatever the
/// server's own places are (RFC 3264 section 8.4).
pub fn hold_passes()
    ensures offer { (range : OwnRange) (d : Description) (m : Media) →
        address_of_medium d m ≡ Some (Ip4 hold_address) → IsTrue (is_carried m.proto) → m.count ≡ None →
        medium_fault range d m ≡ None }
    ensures answer { (range : OwnRange) (o : Media) (d : Description) (m : Media) →
        address_of_medium d m ≡ Some (Ip4 hold_address) → IsTrue (is_same_media o m) → m.count ≡ None → o.port ≢ 0 →
        answered_fault range o d m ≡ None }
{}

/// A plain call: its rows, and what it means with them.
#[tactic(auto, unfolding(sdp::specs::WayOf::way_of, crate::specs::Formats::formats_match, crate::specs::Direct::is_answered, crate::specs::Direct::stream_of))]
pub fn plain_call()
    ensures direct { direct offer_taken answer_taken
        ≡ audio_stream true true (Some (address ann 5004)) ∷ [] }
    ensures rows { rows_of offer_taken answer_sent offer_sent answer_taken ≡ four_rows }
    ensures joined { joined server (table_of four_rows) offer_taken answer_sent offer_sent answer_taken
        ≡ direct offer_taken answer_taken }
    ensures alike_offers { Alike offer_taken offer_sent }
    ensures alike_answers { Alike answer_taken answer_sent }
{}

/// The plain call where the offerer holds: `sendonly` turns off the side to the offerer, and the address 0.0.0.0 also
/// leaves it without a destination (RFC 3264 section 8.4).
#[tactic(auto, unfolding(sdp::specs::WayOf::way_of, crate::specs::Formats::formats_match, crate::specs::Direct::is_answered, crate::specs::Direct::stream_of))]
pub fn held_call()
    ensures sendonly { direct (offer_at (codes "ann") ann 5004 (codes "sendonly"))
        (answer_at (codes "bob") bob 6000 (attribute (codes "recvonly") ∷ []))
        ≡ audio_stream true false (Some (address ann 5004)) ∷ [] }
    ensures nowhere { direct (offer_at (codes "ann") hold_address 5004 (codes "sendonly"))
        (answer_at (codes "bob") bob 6000 (attribute (codes "recvonly") ∷ []))
        ≡ audio_stream true false None ∷ [] }
{}

/// A call whose video is refused has no row for it, and a place at the last port has no row for reports.
pub fn fewer_rows()
    ensures video { rows_of (with_video (codes "ann") ann 5004 5006) (with_video (codes "-") server 40000 0)
        (with_video (codes "-") server 40002 40006) (with_video (codes "bob") bob 6000 0) ≡ four_rows }
    ensures last { rows_of (offer_at (codes "ann") ann 65535 (codes "sendrecv")) answer_sent offer_sent answer_taken
        ≡ row 40000 bob 6000 40002 ∷ row 40001 bob 6001 40003 ∷ row 40002 ann 65535 40000 ∷ [] }
{}
