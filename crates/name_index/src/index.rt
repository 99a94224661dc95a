ghost use Rattle.std.specs.Prelude.{◌≡◌, [], IfOk, OnErr, OnOk};
ghost use Rattle.name_index.specs.Names.{number_of, with_name};

use indexmap::IndexMap;
use order_core::NoMemory;
use std::alloc::Global;
use std::marker::Model;

/// Names in the order in which they were added, each with a number.
///
/// Contracts see it as the list of its names and numbers. A look-up takes as long however many names there are.
#[derive(Drop)]
pub struct NameIndex {
    numbers: IndexMap<String, u32>,
}

impl Model for NameIndex {
    ghost use Rattle.std.specs.Prelude.{ℕ, List};
    ghost use Rattle.name_index.specs.Entries.{entries_of};

    ghost Value = { List (List ℕ × ℕ) };

    ghost view = { λ index. entries_of index.numbers.entries };
}

impl NameIndex {
    /// No names.
    pub fn new(alloc: Global) -> NameIndex
        ensures { result ≡ [] }
    {
        NameIndex {
            numbers: IndexMap::new(alloc),
        }
    }

    /// The number of the name.
    pub fn get(&self, name: &str) -> Option<u32>
        ensures { result ≡ number_of self.now name.now }
    {
        self.numbers.get(name).copied()
    }

    /// Adds a name with its number. A name that was there before keeps the number that it has, and this one is answered.
    pub fn add(&mut self, alloc: Global, name: &str, number: u32) -> Result<Option<u32>, NoMemory>
        ensures before { IfOk result (λ before. before ≡ number_of self.old name.now) }
        ensures names { OnOk result (self.new ≡ with_name self.old name.now number) }
        ensures err { OnErr result (self.new ≡ self.old) }
    {
        if let Some(before) = self.get(name) {
            return Ok(Some(before));
        }
        let key = String::from_str(alloc, name)?;
        self.numbers.insert(key, number)?;
        Ok(None)
    }
}
