//! What holds of lists of faults.

ghost use Rattle.std.specs.Prelude.{◌≡◌, ◌++◌, ℕ, List, Some, []};
ghost use Rattle.fault_list.specs.Faults.{InPlaces, at_place, by_place, earlier, first_fault, least};
ghost use Rattle.fault_list.specs.declared.fault.Fault.{Fault};

/// Where a list has a fault, it is the first one of any list that begins with it. The least fault of two lists is the earlier one of their least ones, and the least fault of a list is the first one by place.
pub fn first_faults_are_found_in_parts()
    ensures joined { (fault : Fault) (xs ys : List Fault) → first_fault xs ≡ Some fault → first_fault (xs ++ ys) ≡ Some fault }
    ensures least { (xs ys : List Fault) → least (xs ++ ys) ≡ earlier (least xs) (least ys) }
    ensures by_place { (xs : List Fault) → first_fault (by_place xs) ≡ least xs }
    ensures none { (xs : List Fault) → by_place xs ≡ [] → xs ≡ [] }
{}

/// A sort by places makes the places rise, and keeps the faults of each place in their order.
pub fn places_are_sorted_stably()
    ensures rises { (xs : List Fault) → InPlaces (by_place xs) }
    ensures keeps { (k : ℕ) (xs : List Fault) → at_place k (by_place xs) ≡ at_place k xs }
{}
