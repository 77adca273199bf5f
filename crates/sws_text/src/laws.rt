//! What holds of all texts.
ghost use Rattle.std.specs.Prelude.{◌≡◌, ◌≤◌, ◌<◌, ◌*◌, List, ℕ, length};
ghost use Rattle.std.specs.List.{AllByRecursion};
ghost use Rattle.sws_text.specs.Texts.{StandsFor, text_of};

/// A text stands for one list of bytes, however it is spelled, and is made of bytes that can be
/// seen, at most four for each byte.
pub fn a_text_stands_for_one_list()
    ensures one { (text one other : List ℕ) → StandsFor text one → StandsFor text other
        → one ≡ other }
    ensures seen { (text bytes : List ℕ) → StandsFor text bytes
        → AllByRecursion (λ byte. (32 ≤ byte) × (byte < 127)) text }
    ensures few { (text bytes : List ℕ) → StandsFor text bytes → length text ≤ 4 * length bytes }
{}

/// The text that is written for bytes stands for them, and no shorter text does.
pub fn what_is_written_is_read()
    ensures stands { (bytes : List ℕ) → AllByRecursion (λ byte. byte < 256) bytes
        → StandsFor (text_of bytes) bytes }
    ensures shortest { (text bytes : List ℕ) → StandsFor text bytes
        → length (text_of bytes) ≤ length text }
{}
