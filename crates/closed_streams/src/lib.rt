//! The law that a stream of messages, once it is closed, stays closed, whatever comes.
//!
//! The crate knows the splitter's contract (`rsr_message`). It must know nothing of its body.
#![tactic(auto)]

ghost use Rattle.std.specs.Prelude.{◌≡◌, ℕ, List, Some, Err, length, replicate};
ghost use Rattle.rsr_message.specs.Streams.{Flow, Feeds};
ghost use Rattle.rsr_message.specs.declared.faults.MessageFault.{MessageFault};
ghost use Rattle.rsr_message.specs.declared.requests.Request.{Request};
ghost use Rattle.rsr_message.specs.declared.splitter.FeedFault.{FeedFault};
ghost use Rattle.closed_streams.specs.Calls.{Answer, Calls};

/// After a call of `feed` that answers `Bad`, each later call answers `Closed` with the same place and fault, and neither the stream nor the list of
/// requests changes. What a call does is `Feeds`: the clauses `ok` and `err` of `Splitter::feed`.
pub fn closed_for_ever()
    ensures { (old closed new : Flow) (piece : List ℕ) (before between after : List Request) (at : ℕ) (fault : MessageFault) (answers : List Answer)
        → Feeds old piece closed before between (Err (FeedFault.Bad at fault)) → Calls answers closed new between after
        → (answers ≡ replicate (length answers) (Err (FeedFault.Closed at fault))) × (new ≡ closed) × (after ≡ between) }
{}
