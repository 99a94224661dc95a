ghost use Rattle.std.specs.Prelude.{◌≡◌, Option, IfOk};
ghost use Rattle.design_lexer.specs.declared.tree.PlaceTree.{PlaceTree};
ghost use Rattle.expr_lower.specs.declared.meaning.Lower.{Lower};

use crate::meaning::Lower;
use design_lexer::PlaceTree;
use order_core::NoMemory;
use std::alloc::Global;

/// The ports that an expression may read, by the places that name them.
pub trait Readable {
    /// The port that a place names, lowered, if an expression may read one there.
    ghost readable: { Self → PlaceTree → Option Lower };

    /// The port that the place names, lowered, if an expression may read one there.
    fn read(&self, alloc: Global, place: &PlaceTree) -> Result<Option<Lower>, NoMemory>
        ensures { IfOk result (λ found. found ≡ readable self.now place.now) };
}
