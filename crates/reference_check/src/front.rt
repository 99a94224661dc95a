ghost use Rattle.std.specs.Prelude.{◌≡◌, ℕ, List};
ghost use Rattle.std.specs.Option.{option_copied};
ghost use Rattle.name_index.specs.Names.{number_of};
ghost use Rattle.name_index.specs.Places.{named_item, place_of};

use name_index::NameIndex;
use order_core::{List, Text};
use side_ports::SidePorts;
use unit_check::Shared;

/// A parameter, and the ports of its interface.
#[derive(Drop)]
pub struct Wanted {
    pub name: Text,
    pub ports: Shared<SidePorts>,
}

/// What references need to know of a design or template: its parameters, each found by its name, and its ports.
#[derive(Drop)]
pub struct Front {
    pub wanted: List<Wanted>,
    pub ports: Shared<SidePorts>,
    pub(crate) numbers: NameIndex,
    pub ghost numbered: { (name : List ℕ) → number_of numbers name ≡ place_of (λ w. w.name) wanted name },
}

impl Front {
    /// The parameter of this name.
    pub fn named(&self, name: &str) -> Option<&Wanted>
        ensures { option_copied result ≡ named_item (λ w. w.name) self.now.wanted name.now }
    {
        let number = self.numbers.get(name)?;
        self.wanted.items().get(number as usize)
    }
}
