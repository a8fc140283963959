//! Laws over the definitions alone: these functions do nothing, and their contracts are what is proved.

ghost use Rattle.std.specs.Prelude.{◌≡◌, ◌<◌, ◌^◌, ◌↔◌, ℕ, List, Some, Err};
ghost use Rattle.std.specs.Fmt.{decimal};
ghost use Rattle.bgp_script.specs.declared.speakers.Speakers.{Speakers};
ghost use Rattle.bgp_script.specs.Faults.{IsFirstFault};
ghost use Rattle.bgp_script.specs.Lines.{Told};
ghost use Rattle.bgp_script.specs.Number.{number_of};
ghost use Rattle.bgp_script.specs.Script.{moves_of};

/// A number is read from its printed form, and from no other text.
pub fn numbers_are_read_as_they_are_printed()
    ensures read { (n : ℕ) → n < 2 ^ 64 → number_of (decimal n) ≡ Some n }
    ensures printed { (word : List ℕ) (n : ℕ) → n < 2 ^ 64 → number_of word ≡ Some n → word ≡ decimal n }
{}

/// The fault of a schedule is its first line that isn't a move, and no other line.
pub fn a_fault_is_the_first_line_that_is_no_move()
    ensures { (speakers : Speakers) (lines : List Told) (n : ℕ)
        → (moves_of speakers lines ≡ Err n) ↔ IsFirstFault speakers lines n }
{}
