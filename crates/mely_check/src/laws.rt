//! What holds of all texts.
ghost use Rattle.std.specs.Prelude.{◌≡◌, ◌+◌, ◌<◌, ℕ, List};
ghost use Rattle.mely_check.specs.Journals.{IsRead, IsFirstOutside, line_limit};

/// A text goes wrong at one line at most, and a journal of fewer than 4,294,967,295 lines, those of
/// its shards and of its entries, at none.
pub fn a_text_goes_wrong_once()
    ensures one { (shards : ℕ) (text : List ℕ) (one other : ℕ)
        → IsFirstOutside shards text one → IsFirstOutside shards text other → one ≡ other }
    ensures none { (shards : ℕ) (text : List ℕ) (entries line : ℕ) → shards < 65536
        → IsRead shards text entries → shards + entries < line_limit
        → IsFirstOutside shards text line → ⊥ }
{}
