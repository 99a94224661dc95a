ghost use Rattle.std.specs.Prelude.{◌≡◌, IsTrue};
ghost use Rattle.order_core.specs.Num.{
  is_number,
  number_leq,
  greater_of,
  lesser_of,
  number_sum,
  number_product,
};
ghost use Rattle.order_core.specs.declared.num.Num.{Num};

/// The greater and the lesser of two numbers, their sum and their product are numbers.
pub fn numbers_make_numbers()
    ensures greater { (x y : Num) → IsTrue (is_number x) → IsTrue (is_number y) → IsTrue (is_number (greater_of x y)) }
    ensures lesser { (x y : Num) → IsTrue (is_number x) → IsTrue (is_number y) → IsTrue (is_number (lesser_of x y)) }
    ensures sum { (x y : Num) → IsTrue (is_number (number_sum x y)) }
    ensures product { (x y : Num) → IsTrue (is_number (number_product x y)) }
{}

/// The greater and the lesser of two numbers, their sum and their product are the greater the greater both are.
pub fn number_operations_are_monotone()
    ensures greater { (x y z w : Num) → IsTrue (number_leq x z) → IsTrue (number_leq y w) → IsTrue (number_leq (greater_of x y) (greater_of z w)) }
    ensures lesser { (x y z w : Num) → IsTrue (number_leq x z) → IsTrue (number_leq y w) → IsTrue (number_leq (lesser_of x y) (lesser_of z w)) }
    ensures sum { (x y z w : Num) → IsTrue (number_leq x z) → IsTrue (number_leq y w) → IsTrue (number_leq (number_sum x y) (number_sum z w)) }
    ensures product { (x y z w : Num) → IsTrue (number_leq x z) → IsTrue (number_leq y w) → IsTrue (number_leq (number_product x y) (number_product z w)) }
{}

/// Sums and products don't depend on the order, and zero and one leave the other number as it is.
pub fn number_operations_are_commutative()
    ensures sum { (x y : Num) → number_sum x y ≡ number_sum y x }
    ensures zero { (x : Num) → IsTrue (is_number x) → number_sum (Num.Count 0) x ≡ x }
    ensures product { (x y : Num) → number_product x y ≡ number_product y x }
    ensures one { (x : Num) → IsTrue (is_number x) → number_product (Num.Count 1) x ≡ x }
{}

/// Sums, products and values between, worked out.
pub fn numbers_worked_out()
    ensures sum { number_sum (Num.Count 2) (Num.Count 3) ≡ Num.Count 5 }
    ensures greatest_sum { number_sum (Num.Count 9999999999999999999) (Num.Count 1) ≡ Num.Count 10000000000000000000 }
    ensures sum_above { number_sum (Num.Count 10000000000000000000) (Num.Count 1) ≡ Num.Top }
    ensures product { number_product (Num.Count 6) (Num.Count 7) ≡ Num.Count 42 }
    ensures product_above { number_product (Num.Count 4294967296) (Num.Count 4294967296) ≡ Num.Top }
    ensures nothing { number_product (Num.Count 0) Num.Top ≡ Num.Count 0 }
    ensures greater { greater_of (Num.Count 5) Num.Top ≡ Num.Top }
    ensures lesser { lesser_of (Num.Count 5) Num.Top ≡ Num.Count 5 }
{}
