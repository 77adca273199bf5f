//! What holds of all lines.
ghost use Rattle.std.specs.Prelude.{◌<◌, ◌^◌, ℕ, List};
ghost use Rattle.std.specs.List.{AllByRecursion};
ghost use Rattle.sws_access.specs.Escapes.{IsHarmless, escaped};

/// Whatever bytes a client has sent, a log shows them by bytes from 32 to 126 that are no quotes. So
/// they end neither the line nor what stands between quotes. A call does nothing.
pub fn no_client_forges_a_line()
    ensures { (bytes : List ℕ) → AllByRecursion (λ byte. byte < 2 ^ 8) bytes
        → AllByRecursion IsHarmless (escaped bytes) }
{}
