//! What a table tells of the chains of its pairs.

ghost use Rattle.std.specs.Prelude.{◌<◌, ◌≤◌, ◌↔◌, ℕ, IsTrue, List};
ghost use Rattle.std.specs.List.{list_all};
ghost use Rattle.order_core.specs.Members.{IsMember};
ghost use Rattle.order_core.specs.Walk.{is_pair_below};
ghost use Rattle.reachability.specs.declared.reach.Reachability.{Reachability};
ghost use Rattle.reachability.specs.Leads.{leads_through};
ghost use Rattle.reachability.specs.Reach.{reach, rank, IsReach, IsFirstItself, NoneItself};
ghost use Rattle.reachability.specs.Reaches.{IsFirstBack, NoneBack, Reaches};

/// The table leads nowhere from and to numbers outside of its bound.
pub fn tables_stay_within()
    ensures { (n : ℕ) (pairs : List (ℕ × ℕ)) (made : Reachability) → IsReach n pairs made → IsTrue (list_all (is_pair_below n) pairs) → (a b : ℕ) → IsTrue (reach made a b) → (a < n) × (b < n) }
{}

/// The least number that the table leads back to itself from is the least that a chain does, and where there is none, no chain comes back.
pub fn tables_tell_what_comes_back()
    ensures first { (n : ℕ) (pairs : List (ℕ × ℕ)) (made : Reachability) → IsReach n pairs made → (i : ℕ) → IsFirstItself made i → IsFirstBack n pairs i }
    ensures none { (n : ℕ) (pairs : List (ℕ × ℕ)) (made : Reachability) → IsReach n pairs made → NoneItself made → NoneBack n pairs }
{}

/// A rank is at most the bound, and where no chain comes back, each pair leads to a lower one.
pub fn ranks_fall()
    ensures within { (n : ℕ) (pairs : List (ℕ × ℕ)) (made : Reachability) → IsReach n pairs made → (a : ℕ) → rank made a ≤ n }
    ensures falls { (n : ℕ) (pairs : List (ℕ × ℕ)) (made : Reachability) → IsReach n pairs made → NoneBack n pairs → (a b : ℕ) → IsMember {A = ℕ × ℕ} (a, b) pairs → b < n → rank made b < rank made a }
{}

/// Where all pairs are of numbers below a bound, what is worked out through the numbers below it is where chains lead.
pub fn chains_are_worked_out()
    ensures { (n : ℕ) (pairs : List (ℕ × ℕ)) → IsTrue (list_all (is_pair_below n) pairs) → (a b : ℕ) → IsTrue (leads_through pairs n a b) ↔ Reaches pairs a b }
{}
