//! What the rules give. Each law is the promise of a function that does nothing.

ghost use Rattle.std.specs.Prelude.{◌≡◌, ℕ, List, [], Option, Some};
ghost use Rattle.design_lexer.specs.declared.tree.BodyTree.{BodyTree};
ghost use Rattle.design_lexer.specs.declared.tree.RefTree.{RefTree};
ghost use Rattle.design_model.specs.Typed.{IsTyped};
ghost use Rattle.design_model.specs.declared.design.Design.{Design};
ghost use Rattle.reference_meaning.specs.Denotes.{Denotes, FileDenotes};
ghost use Rattle.reference_meaning.specs.Sources.{Source, body_of, name_of, source_named};
ghost use Rattle.reference_rules.specs.Outlines.{outlines_of};
ghost use Rattle.reference_rules.specs.ReferenceFaults.{AreFronts, Front, NoFaults, ports_in, reference_faults, referred};
ghost use Rattle.reference_rules.specs.TypedFiles.{IsTypedFile};
ghost use Rattle.value_type.specs.declared.poset.Types.{Types};

/// What a reference without faults denotes has the ports that are known without expanding it, and is typed where each
/// file is. So is what a file without parameters denotes.
pub fn references_denote_typed_designs()
    ensures ports { (front : List ℕ → Option Front) (sources : List Source) → AreFronts sources front → NoFaults sources front → (q : RefTree) (X : Design) → (referred front [] q).faults ≡ [] → Denotes sources [] q X → outlines_of X ≡ ports_in (front (name_of q)) }
    ensures typed { (t : Types) (front : List ℕ → Option Front) (sources : List Source) → AreFronts sources front → NoFaults sources front → ((name : List ℕ) (s : Source) (b : BodyTree) (f : Front) → source_named sources name ≡ Some s → body_of s.tree ≡ Some b → front name ≡ Some f → IsTypedFile t front f.wanted s.content b) → (q : RefTree) (X : Design) → (referred front [] q).faults ≡ [] → Denotes sources [] q X → IsTyped t X }
    ensures files { (t : Types) (front : List ℕ → Option Front) (sources : List Source) → AreFronts sources front → NoFaults sources front → ((name : List ℕ) (s : Source) (b : BodyTree) (f : Front) → source_named sources name ≡ Some s → body_of s.tree ≡ Some b → front name ≡ Some f → IsTypedFile t front f.wanted s.content b) → (source : Source) (b : BodyTree) (X : Design) → body_of source.tree ≡ Some b → reference_faults front [] b ≡ [] → IsTypedFile t front [] source.content b → FileDenotes sources source X → IsTyped t X }
{}
