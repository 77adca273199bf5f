//! What holds of the responses to any bytes.
ghost use Rattle.std.specs.Prelude.{◌≡◌, ◌<◌, ◌≤◌, Bool, true, ℕ, List, ◌++◌, length};
ghost use Rattle.sws_site.specs.Limits.{IsWithinLimits};
ghost use Rattle.sws_site.specs.Site.{SiteState};
ghost use Rattle.sws_answer.specs.Asked.{Asked, too_long};
ghost use Rattle.sws_answer.specs.Answers.{answer_of, text_of, text_limit};
ghost use Rattle.sws_answer.specs.Responses.{answers_to, responses_of, Begins};

/// The answers to more bytes begin with those to the first ones, each with its code, its length and
/// its target, so what a log of them said stands.
pub fn answers_only_grow()
    ensures { (site : SiteState) (bytes more : List ℕ)
        → Begins (answers_to site bytes) (answers_to site (bytes ++ more)) }
{}

/// The responses to more bytes begin with those to the first ones, so what was sent stands.
pub fn responses_only_grow()
    ensures { (site : SiteState) (bytes more : List ℕ)
        → Begins (responses_of site bytes) (responses_of site (bytes ++ more)) }
{}

/// Every answer has a head, and the last answer of a connection closes it, as does the one to a
/// head that is too long. Out of a site within its limits none is longer than 2^34 bytes.
pub fn every_answer()
    ensures head { (site : SiteState) (asked : Asked) (last : Bool)
        → 0 < length (answer_of site asked last).head }
    ensures last { (site : SiteState) (asked : Asked) → (answer_of site asked true).closes ≡ true }
    ensures too_long { (site : SiteState) (last : Bool)
        → (answer_of site too_long last).closes ≡ true }
    ensures short { (site : SiteState) (asked : Asked) (last : Bool) → IsWithinLimits site.files
        → length (text_of (answer_of site asked last)) ≤ text_limit }
{}
