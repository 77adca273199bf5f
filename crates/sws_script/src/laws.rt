//! What holds of all texts.
ghost use Rattle.std.specs.Prelude.{◌≡◌, ◌≤◌, ◌+◌, ◌⊎◌, ℕ, List, Bool, length, replicate};
ghost use Rattle.sws_script.specs.declared.fault.ScriptFault.{ScriptFault as FaultValue};
ghost use Rattle.sws_script.specs.declared.fault.ScriptFault.TheVariants.{Memory};
ghost use Rattle.sws_script.specs.declared.input.Input.{Input as InputValue};
ghost use Rattle.sws_script.specs.Inputs.{IsInput};
ghost use Rattle.sws_script.specs.Grammar.{Spells, IsCause};
ghost use Rattle.sws_script.specs.Limits.{byte_limit};
ghost use Rattle.sws_link.specs.Limits.{conn_limit};
ghost use Rattle.sws_script.specs.Printed.{print_input};
ghost use Rattle.sws_script.specs.Scripted.{fill_pieces};
ghost use Rattle.sws_link.specs.LinkItems.{all_bytes};

/// A text spells one input at most. One that spells an input of at most 1,024 connections has no
/// fault but want of memory, and any other has one fault beside it.
pub fn a_text_has_one_answer()
    ensures input { (schedule : Bool) (cores : ℕ) (text : List ℕ) (one other : InputValue)
        → Spells schedule cores text one → Spells schedule cores text other → one ≡ other }
    ensures whole { (schedule : Bool) (cores : ℕ) (text : List ℕ) (input : InputValue)
        (fault : FaultValue) → Spells schedule cores text input → length input.conns ≤ conn_limit
        → IsCause schedule cores text fault → fault ≡ Memory }
    ensures fault { (schedule : Bool) (cores : ℕ) (text : List ℕ) (one other : FaultValue)
        → IsCause schedule cores text one → IsCause schedule cores text other
        → (one ≡ other) ⊎ ((one ≡ Memory) ⊎ (other ≡ Memory)) }
{}

/// What is printed of an input spells it, and nothing else, with a schedule and without.
pub fn what_is_printed_is_read()
    ensures spells { (schedule : Bool) (cores : ℕ) (input : InputValue)
        → IsInput schedule cores input → length (print_input schedule input) ≤ byte_limit
        → Spells schedule cores (print_input schedule input) input }
    ensures only { (schedule : Bool) (cores : ℕ) (input other : InputValue)
        → IsInput schedule cores input → length (print_input schedule input) ≤ byte_limit
        → Spells schedule cores (print_input schedule input) other → other ≡ input }
{}

/// What is printed of an input is the shortest of its texts, but for the LF at its end,
/// which any other may lack.
pub fn what_is_printed_is_short()
    ensures { (schedule : Bool) (cores : ℕ) (text : List ℕ) (input : InputValue)
        → Spells schedule cores text input → length (print_input schedule input) ≤ length text + 1 }
{}

/// The pieces of a filling have as many bytes as it says.
pub fn a_filling_has_its_bytes()
    ensures { (count : ℕ) → all_bytes (fill_pieces count) ≡ replicate count 97 }
{}
