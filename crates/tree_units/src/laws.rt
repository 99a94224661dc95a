//! What holds of constants and ports. Each law is the promise of a function that does nothing.

ghost use Rattle.std.specs.Prelude.{◌≡◌, ℕ, Bool, IsTrue, List, [], Option, Some};
ghost use Rattle.design_lexer.specs.declared.tree.ConstantTree.{ConstantTree};
ghost use Rattle.design_lexer.specs.declared.tree.PortTree.{PortTree};
ghost use Rattle.tree_units.specs.Constants.{IsConstant, IsProduct, constant_faults, constant_of, product_faults, product_of};
ghost use Rattle.tree_units.specs.Ports.{all_posets, port_faults, port_of};
ghost use Rattle.tree_units.specs.declared.constant.Constant.{Constant};
ghost use Rattle.value_type.specs.Ports.{is_whole};
ghost use Rattle.value_type.specs.declared.port.Port.{Port};

/// A constant has a meaning exactly where it has no fault.
pub fn constants_have_meanings_or_faults()
    ensures meaning { (c : ConstantTree) → constant_faults c ≡ [] → (k : Constant) × (constant_of c ≡ Some k) }
    ensures faultless { (c : ConstantTree) (k : Constant) → constant_of c ≡ Some k → constant_faults c ≡ [] }
{}

/// A product of two constants has a meaning exactly where it has no fault.
pub fn products_have_meanings_or_faults()
    ensures meaning { (at : ℕ) (a b : Constant) → product_faults at a b ≡ [] → (k : Constant) × (product_of a b ≡ Some k) }
    ensures faultless { (at : ℕ) (a b k : Constant) → product_of a b ≡ Some k → product_faults at a b ≡ [] }
{}

/// A constant is exactly its two numbers' quotient times its unit's size, and a product exactly the product.
pub fn constants_are_exact()
    ensures written { (c : ConstantTree) (k : Constant) → constant_of c ≡ Some k → IsConstant c k }
    ensures product { (a b k : Constant) → product_of a b ≡ Some k → IsProduct a b k }
{}

/// The type of a port has a meaning exactly where it has no fault.
pub fn ports_have_meanings_or_faults()
    ensures meaning { (posets : List ℕ → Option ℕ) (tree : PortTree) → port_faults posets tree ≡ [] → (port : Port) × (port_of posets tree ≡ Some port) }
    ensures faultless { (posets : List ℕ → Option ℕ) (tree : PortTree) (port : Port) → port_of posets tree ≡ Some port → port_faults posets tree ≡ [] }
{}

/// A port has the name that its tree writes, its unit has the form of its type, and its type names only posets that a name stands for.
pub fn ports_are_whole()
    ensures name { (posets : List ℕ → Option ℕ) (tree : PortTree) (port : Port) → port_of posets tree ≡ Some port → port.name ≡ tree.name.name }
    ensures whole { (posets : List ℕ → Option ℕ) (tree : PortTree) (port : Port) → port_of posets tree ≡ Some port → IsTrue (is_whole port) }
    ensures posets { (posets : List ℕ → Option ℕ) (test : ℕ → Bool) (tree : PortTree) (port : Port) → ((name : List ℕ) (k : ℕ) → posets name ≡ Some k → IsTrue (test k)) → port_of posets tree ≡ Some port → IsTrue (all_posets test port.kind) }
{}
