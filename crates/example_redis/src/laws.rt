//! A law of requests.
ghost use Rattle.std.specs.Prelude.{ℕ, List};
ghost use Rattle.example_redis.specs.Sent.{AreSendable, IsReadBack};

/// A request that a client sends ends where the client has it end, whatever comes behind it, and
/// has the words that were sent.
pub fn a_request_is_read_back()
    ensures { (words : List (List ℕ)) → AreSendable words → IsReadBack words }
{}
