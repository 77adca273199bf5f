//! What holds of all logs.
ghost use Rattle.std.specs.Prelude.{◌≡◌, ◌≤◌, List, ℕ, ◌++◌};
ghost use Rattle.std.specs.List.{sum_by};
ghost use Rattle.sws_log.specs.declared.line.LogLine.{LogLine};
ghost use Rattle.sws_log.specs.Lines.{lines_within};

/// The lines within a number of bytes are the longest front of the lines whose lengths sum to no
/// more.
pub fn lines_within_are_the_longest_front()
    ensures front { (written : ℕ) (lines : List LogLine)
        → (behind : List LogLine) × (lines ≡ lines_within written lines ++ behind) }
    ensures within { (written : ℕ) (lines : List LogLine)
        → sum_by (λ line. line.length) (lines_within written lines) ≤ written }
    ensures longest { (written : ℕ) (front behind : List LogLine)
        → sum_by (λ line. line.length) front ≤ written
        → (rest : List LogLine) × (lines_within written (front ++ behind) ≡ front ++ rest) }
{}
