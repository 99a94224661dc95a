ghost use Rattle.std.specs.Prelude.{◌≡◌, ◌<◌, ◌^◌, ℕ, List, IfOk, length};
ghost use Rattle.std.specs.Option.{option_copied};
ghost use Rattle.name_index.specs.Names.{number_of};
ghost use Rattle.name_index.specs.Places.{named_item, place_of};
ghost use Rattle.unit_check.specs.Declaring.{named_file};

use design_lexer::ParamTree;
use name_index::NameIndex;
use name_rules::places_of;
use name_table::Names;
use order_core::NoMemory;
use std::alloc::Global;

/// The parameters of a file. Each is found by its name, however many there are.
#[derive(Drop)]
pub struct Parameters<'a> {
    pub trees: &'a [ParamTree],
    numbers: NameIndex,
    pub ghost numbered: { (name : List ℕ) → number_of numbers name ≡ place_of (λ p. p.name.name) trees.now name },
}

impl<'a> Parameters<'a> {
    /// These parameters.
    pub fn of(alloc: Global, trees: &'a [ParamTree]) -> Result<Parameters<'a>, NoMemory>
        requires few { length trees.now < 2 ^ 32 }
        ensures { IfOk result (λ made. made.trees.now ≡ trees.now) }
    {
        let numbers = places_of(alloc, trees)?;
        Ok(Parameters { trees, numbers })
    }

    /// The number of the first parameter of this name.
    pub fn number(&self, name: &str) -> Option<u32>
        ensures { result ≡ place_of (λ p. p.name.name) self.now.trees.now name.now }
    {
        self.numbers.get(name)
    }

    /// The first parameter of this name.
    fn named(&self, name: &str) -> Option<&ParamTree>
        ensures { option_copied result ≡ named_item (λ p. p.name.name) self.now.trees.now name.now }
    {
        let number = self.number(name)?;
        self.trees.get(number as usize)
    }

    /// The file that a name stands for: the interface of the parameter that has it, or else the design or template of
    /// this name.
    pub fn file(&self, names: &Names, name: &str) -> Option<u32>
        ensures { result ≡ named_file names.now.files self.now.trees.now name.now }
    {
        match self.named(name) {
            Some(param) => names.interface(param.interface.name.as_str()),
            None => names.design(name),
        }
    }
}
