//! What holds of every request and every stream of them. Each law is the contract of a function that does nothing.

ghost use Rattle.std.specs.Prelude.{◌≡◌, ℕ, ◌≤◌, List, [], ◌++◌, length};
ghost use Rattle.marshal.specs.Spellings.{IsPartial};
ghost use Rattle.rsr_message.specs.Requests.{version_1, version_2, format_of, Spells, SpellsEither, IsMessage, IsProper};
ghost use Rattle.rsr_message.specs.Streams.{SpellsAll, IsStream, Flow, CutsInto, Passes};
ghost use Rattle.rsr_message.specs.Listings.{FirstFault};
ghost use Rattle.rsr_message.specs.declared.faults.MessageFault.{MessageFault};
ghost use Rattle.rsr_message.specs.declared.requests.Request.{Request};
ghost use Rattle.rsr_message.specs.declared.versions.Version.{Version};

/// In each version a request has at most one spelling.
pub fn one_spelling()
    ensures { (version : Version) (request : Request) (bytes other : List ℕ)
        → Spells (format_of version) request bytes → Spells (format_of version) request other → bytes ≡ other }
{}

/// In each version exactly the proper requests have a spelling: their numbers fit their fields, their values are few enough,
/// and void stands in a reply alone.
pub fn proper_has_one()
    ensures has { (version : Version) (request : Request)
        → IsProper (format_of version) request → (bytes : List ℕ) × Spells (format_of version) request bytes }
    ensures only { (version : Version) (request : Request) (bytes : List ℕ)
        → Spells (format_of version) request bytes → IsProper (format_of version) request }
{}

/// A message of version 1 has 126 bytes at most, and one of version 2 has 53,271.
pub fn longest()
    ensures first { (request : Request) (bytes : List ℕ) → Spells version_1 request bytes → length bytes ≤ 126 }
    ensures second { (request : Request) (bytes : List ℕ) → Spells version_2 request bytes → length bytes ≤ 53271 }
{}

/// A spelling is that of one request in one version.
pub fn one_request()
    ensures { (version second : Version) (request other : Request) (bytes : List ℕ)
        → Spells (format_of version) request bytes → Spells (format_of second) other bytes → (version ≡ second) × (request ≡ other) }
{}

/// No spelling is a proper front of another, in whichever versions.
pub fn no_proper_front()
    ensures { (request other : Request) (bytes more : List ℕ)
        → SpellsEither request bytes → SpellsEither other (bytes ++ more) → more ≡ [] }
{}

/// Bytes are the messages of at most one list of requests with less than a message behind them.
pub fn one_cut()
    ensures { (bytes : List ℕ) (requests others : List Request) (rest other_rest : List ℕ)
        → CutsInto bytes requests rest → IsPartial IsMessage rest
        → CutsInto bytes others other_rest → IsPartial IsMessage other_rest
        → (requests ≡ others) × (rest ≡ other_rest) }
{}

/// Bytes are the messages of at most one list of requests, and where of none they have one first fault.
pub fn one_list()
    ensures one { (bytes : List ℕ) (requests others : List Request)
        → SpellsAll requests bytes → SpellsAll others bytes → requests ≡ others }
    ensures no_fault { (bytes : List ℕ) (fault : MessageFault) (at : ℕ)
        → IsStream bytes → FirstFault bytes fault at → ⊥ }
    ensures one_fault { (bytes : List ℕ) (fault other : MessageFault) (at place : ℕ)
        → FirstFault bytes fault at → FirstFault bytes other place → (fault ≡ other) × (at ≡ place) }
{}

/// Two pieces that a stream passes, one after the other, do what they do as one piece. So it does not matter where a stream is cut.
pub fn pieces_join()
    ensures { (first second third : Flow) (piece more : List ℕ) (before between after : List Request)
        → Passes first piece second before between
        → Passes second more third between after
        → Passes first (piece ++ more) third before after }
{}
