//! What holds of the names of a library. Each law is the promise of a function that does nothing.

ghost use Rattle.std.specs.Prelude.{◌≡◌, ◌<◌, ◌↔◌, ℕ, IsTrue, List, length};
ghost use Rattle.design_lexer.specs.declared.tree.PosetTree.{PosetTree};
ghost use Rattle.name_table.specs.Library.{ArePosets};
ghost use Rattle.name_table.specs.Orders.{declared_pairs, has_cycle};
ghost use Rattle.name_table.specs.Ranks.{AreRanks};
ghost use Rattle.name_table.specs.References.{references};
ghost use Rattle.name_table.specs.declared.source.SourceFile.{SourceFile};
ghost use Rattle.order_core.specs.Walk.{BothWays};
ghost use Rattle.reachability.specs.Leads.{leads_through};
ghost use Rattle.reachability.specs.Reaches.{Reaches};
ghost use Rattle.value_type.specs.declared.poset.Poset.{Poset};

use crate::names::Names;

/// Each file has a higher rank than those that it refers to, so no chain of references comes back. No rank is greater than
/// the number of files.
pub fn references_fall(names: &Names)
    ensures { AreRanks (length names.now.files) (references names.now.files) names.now.ranks }
{
    let _names = names;
}

/// A file is called circular exactly where a chain of references, of one at least, leads back to it.
pub fn circular_files_come_back()
    ensures { (files : List SourceFile) (i : ℕ) → IsTrue (leads_through (references files) (length files) i i) ↔ Reaches (references files) i i }
{}

/// A poset is called no order exactly where walks through the pairs that it declares lead both ways between two different elements.
pub fn cycles_lead_both_ways()
    ensures { (tree : PosetTree) → IsTrue (has_cycle (length tree.elements) (declared_pairs tree)) ↔ ((a : ℕ) × (b : ℕ) × (a < b) × (b < length tree.elements) × BothWays (declared_pairs tree) a b) }
{}

/// The poset files of a library have one list of posets at most.
pub fn files_have_one_list_of_posets()
    ensures { (files : List SourceFile) (a b : List Poset) → ArePosets files a → ArePosets files b → a ≡ b }
{}
