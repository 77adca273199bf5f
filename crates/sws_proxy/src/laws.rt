//! What holds of headers beside what is told of each.
ghost use Rattle.std.specs.Prelude.{◌≡◌, ◌++◌, ℕ, List};
ghost use Rattle.sws_proxy.specs.declared.proxied.Proxied.{Proxied};
ghost use Rattle.sws_proxy.specs.declared.proxied.Proxied.TheVariants as proxied;
ghost use Rattle.sws_proxy.specs.Headers.{TellsHeader};

/// What is told of some bytes, but that more are to come, is told of them with any others behind too:
/// whoever asks as bytes come may act on the first such answer.
pub fn more_bytes_change_nothing()
    ensures { (bytes : List ℕ) (more : List ℕ) (told : Proxied) → TellsHeader bytes told
        → (told ≡ proxied.More → ⊥) → TellsHeader (bytes ++ more) told }
{}
