//! What holds of the designs that references denote. Each law is the promise of a function that does nothing.

ghost use Rattle.std.specs.Prelude.{◌≡◌, ℕ, List, [], Some};
ghost use Rattle.design_lexer.specs.declared.tree.BodyTree.{BodyTree};
ghost use Rattle.design_lexer.specs.declared.tree.RefTree.{RefTree};
ghost use Rattle.design_model.specs.declared.design.Design.{Design};
ghost use Rattle.reference_meaning.specs.Denotes.{Binding, Denotes, FileDenotes, Matches};
ghost use Rattle.reference_meaning.specs.Linking.{AreModules, IsModuleOf, resolved_of};
ghost use Rattle.reference_meaning.specs.Modules.{Makes, ModuleMakes, Modules};
ghost use Rattle.reference_meaning.specs.Ranked.{AreRanked, FallsIn};
ghost use Rattle.reference_meaning.specs.Sources.{Source, body_of, params_of};
ghost use Rattle.reference_meaning.specs.declared.module.Module.{Module};
ghost use Rattle.reference_meaning.specs.declared.module.Resolved.{Resolved};

/// A reference denotes at most one design.
pub fn meaning_is_unique()
    ensures { (sources : List Source) (bindings : List Binding) (q : RefTree) (X Y : Design) → Denotes sources bindings q X → Denotes sources bindings q Y → X ≡ Y }
{}

/// Where each reference falls below its file's rank, each reference denotes a design.
pub fn falling_references_denote()
    ensures { (sources : List Source) (rank : List ℕ → ℕ) (k : ℕ) → AreRanked sources rank k → (params : List (List ℕ)) (bindings : List Binding) → Matches params bindings → (r : ℕ) (q : RefTree) → FallsIn sources rank k params r q → (X : Design) × Denotes sources bindings q X }
{}

/// What a reference denotes as it is written it denotes with its names resolved, and what a file without parameters
/// denotes its module denotes.
pub fn modules_denote_what_files_do()
    ensures references { (sources : List Source) (modules : Modules) → AreModules sources modules → (q : RefTree) (r : Resolved) (X : Design) → resolved_of sources [] q ≡ Some r → Denotes sources [] q X → Makes modules [] r X }
    ensures files { (sources : List Source) (modules : Modules) → AreModules sources modules → (source : Source) (b : BodyTree) (m : Module) (X : Design) → body_of source.tree ≡ Some b → params_of source.tree ≡ [] → IsModuleOf sources source b m → FileDenotes sources source X → ModuleMakes modules m X }
{}
