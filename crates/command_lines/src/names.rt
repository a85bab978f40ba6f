//! Names in the order of their declaration.

ghost use Rattle.std.specs.Prelude.{◌≡◌, ◌<◌, ◌∷◌, ◌++◌, [], None, length, OnOk, IfOk, IfSome};
ghost use Rattle.command_lines.specs.Names.{name_at, place_of};

use indexmap::IndexSet;
use std::alloc::Global;
use std::marker::Model;
use zone_graph::{Names, NoMemory, Word};

/// Names, each declared once, which are found without a look at the others. Contracts see the list
/// of their bytes, in the order of declaration.
#[derive(Drop)]
pub struct NameTable {
    names: IndexSet<Vec<u8>>,
}

impl Model for NameTable {
    ghost use Rattle.std.specs.Prelude.{List, ℕ, map};

    ghost Value = { List (List ℕ) };

    ghost view = { λ table. map (λ name. name.items) table.names.keys };
}

impl NameTable {
    /// No names.
    pub fn new(alloc: Global) -> NameTable
        ensures { result ≡ [] }
    {
        NameTable {
            names: IndexSet::new(alloc),
        }
    }

    /// How many names there are.
    pub fn len(&self) -> usize
        ensures { result ≡ length self.now }
    {
        self.names.len()
    }

    /// The place of a name in the order of declaration, counted from 0: `None` where it is not
    /// declared.
    pub fn place(&self, name: &[u8]) -> Option<usize>
        ensures value { result ≡ place_of self.now name.now }
        ensures within { IfSome result (λ place. place < length self.now) }
    {
        self.names.get_index_of(name)
    }

    /// The name at a place, counted from 0.
    pub fn name(&self, place: usize) -> &[u8]
        requires { place < length self.now }
        ensures { result.now ≡ name_at self.now place }
    {
        self.names[place].as_slice()
    }

    /// Puts a name that is not declared at the end.
    pub fn declare(&mut self, alloc: Global, name: &[u8]) -> Result<(), NoMemory>
        requires { place_of self.old name.now ≡ None }
        ensures { OnOk result (self.new ≡ self.old ++ name.now ∷ []) }
    {
        self.names.insert(Vec::from_slice(alloc, name)?)?;
        Ok(())
    }

    /// A list of the names.
    pub fn words(&self, alloc: Global) -> Result<Names, NoMemory>
        ensures { IfOk result (λ words. words ≡ self.now) }
    {
        let mut words = Names::new(alloc);
        for name in self.names.as_slice() {
            words.push(Word::new(alloc, name.as_slice())?)?;
        }
        Ok(words)
    }
}
