//! Theorems about the definitions, each the contract of a function with an empty body.
ghost use Rattle.std.specs.Prelude.{◌≡◌, ◌<◌, ◌≤◌, ◌+◌, ◌∷◌, ◌++◌, ℕ, List, [], Option, None, length, map};
ghost use Rattle.oa_frame.specs.declared.ends.End.{End as AnEnd};
ghost use Rattle.oa_frame.specs.declared.ends.End.TheVariants.{ReadFault};
ghost use Rattle.oa_frame.specs.promise.Framings.{records};
ghost use Rattle.oa_frame.specs.promise.Sessions.{ReadTo};
ghost use Rattle.oa_frame.specs.promise.Sessions.Halt.{At};
ghost use Rattle.oa_mux.specs.promise.Frames.{InHead, all_clients, frame_of, max_frame_bytes, pieces_in};
ghost use Rattle.oa_mux.specs.promise.Marks.{Tagged, Last, Flush, Of, StreamPiece, States, tag_all};
ghost use Rattle.oa_mux.specs.Marks.{own, pieces};
ghost use Rattle.oa_mux.specs.promise.Readers.{Body, Brought, Ends, ClientState, Reads, asked_in, records_of};
ghost use Rattle.oa_mux.specs.Readers.{brought_in};
ghost use Rattle.oa_mux.specs.promise.Shared.{Demultiplexes, SharedState};

/// A client's requests depend only on its own bytes, whatever comes between them.
pub fn each_has_its_own()
    ensures { (reads : Reads (Option ClientState)) (states : States (Option ClientState)) (stream : List (Tagged StreamPiece)) (client : ℕ)
        → own client (asked_in reads states stream) ≡ brought_in reads (states client) (own client stream) }
{}

/// With a single client, all requests are those of its bytes.
pub fn one_client_has_all()
    ensures { (reads : Reads (Option ClientState)) (states : States (Option ClientState)) (client : ℕ) (stream : List StreamPiece)
        → asked_in reads states (tag_all client stream) ≡ tag_all client (brought_in reads (states client) stream) }
{}

/// A session of records reads from some bytes what they contain as one client's stream: its bodies,
/// and its end.
pub fn each_is_a_session()
    ensures reads { (bytes rest : List ℕ) (bodies : List (List ℕ)) (why : AnEnd) → ReadTo records (At why) bodies bytes rest → (why ≡ ReadFault → ⊥)
        → brought_in records_of None (pieces bytes ++ Last ∷ []) ≡ map Body bodies ++ Ends why ∷ [] }
    // (and all bytes are read so)
    ensures read { (bytes : List ℕ)
        → (bodies : List (List ℕ)) × (why : AnEnd) × (rest : List ℕ) × ReadTo records (At why) bodies bytes rest × (why ≡ ReadFault → ⊥) }
{}

/// The meaning of frames: a client's bytes, its end, or *now*: everything is to be committed and
/// answered.
pub fn frames_are_read()
    ensures bytes { (client : ℕ) (bytes rest : List ℕ) → client < all_clients → 0 < length bytes → length bytes ≤ max_frame_bytes
        → pieces_in (InHead []) (frame_of client bytes ++ rest) ≡ tag_all client (pieces bytes) ++ pieces_in (InHead []) rest }
    ensures last { (client : ℕ) (rest : List ℕ) → client < all_clients
        → pieces_in (InHead []) (frame_of client [] ++ rest) ≡ Of client Last ∷ pieces_in (InHead []) rest }
    ensures now { (rest : List ℕ) → pieces_in (InHead []) (frame_of all_clients [] ++ rest) ≡ Flush ∷ pieces_in (InHead []) rest }
{}

/// The division of a client's bytes into frames does not matter, as long as nothing comes between
/// them.
pub fn cuts_do_not_matter()
    ensures { (client : ℕ) (front back rest : List ℕ) → client < all_clients → 0 < length front → 0 < length back
        → length front + length back ≤ max_frame_bytes
        → pieces_in (InHead []) (frame_of client (front ++ back) ++ rest)
        ≡ pieces_in (InHead []) (frame_of client front ++ (frame_of client back ++ rest)) }
{}

/// The requests of one part of a stream and then of the next are those of both.
pub fn parts_are_asked_in_turn()
    ensures { (old mid new : SharedState) (front back : List ℕ) (before after : List (Tagged Brought))
        → Demultiplexes old front before mid → Demultiplexes mid back after new → Demultiplexes old (front ++ back) (before ++ after) new }
{}
