//! What holds of names and numbers.

ghost use Rattle.std.specs.Prelude.{◌≡◌, ℕ, List};
ghost use Rattle.name_index.specs.Names.{first_number, number_of, with_name};

/// With one name more, each name has the number that it had, and the new one's where it had none.
pub fn names_keep_their_first_number()
    ensures { (names : List (List ℕ × ℕ)) (name : List ℕ) (number : ℕ) (other : List ℕ) → number_of (with_name names name number) other ≡ first_number (number_of names other) other name number }
{}
