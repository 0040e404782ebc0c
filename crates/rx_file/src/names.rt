// Where names stand.
ghost use Rattle.std.specs.Prelude.{◌≡◌, ◌++◌, ◌∷◌, [], ℕ, List, None, length, IfErr, OnOk};
ghost use Rattle.rx_file.specs.declared.faults.FileFault.TheVariants.{NoMemory};
ghost use Rattle.rx_file.specs.Fields.{place_of};
ghost use Rattle.rx_file.specs.Index.{IsIndex};

use crate::faults::FileFault;
use std::alloc::Global;
use std::collections::BTreeMap;

/// Where each name stands among those of some rows, from 0. The names lie in the document.
#[derive(Drop)]
pub(crate) struct NameIndex<'a> {
    places: BTreeMap<&'a [u8], u32>,
}

impl<'a> NameIndex<'a> {
    /// The index of no names.
    pub(crate) fn new(alloc: Global) -> NameIndex<'a>
        ensures { IsIndex result [] }
    {
        NameIndex {
            places: BTreeMap::new(alloc),
        }
    }

    /// The place of a name. Its cost grows with the logarithm of the number of names.
    pub(crate) fn place(&self, name: &'a [u8]) -> Option<u32>
        ensures { (names : List (List ℕ)) → IsIndex self.now names → result ≡ place_of names name.now }
    {
        self.places.get(&name).copied()
    }

    /// Puts in a name that comes after all others and differs from them. Its cost grows with the logarithm of their number.
    pub(crate) fn push(&mut self, name: &'a [u8], place: u32) -> Result<(), FileFault>
        ensures index { OnOk result ((names : List (List ℕ)) → IsIndex self.old names → place_of names name.now ≡ None → place ≡ length names
            → IsIndex self.new (names ++ name.now ∷ [])) }
        ensures memory { IfErr result (λ fault. fault ≡ NoMemory) }
    {
        match self.places.insert(name, place) {
            Ok(_) => Ok(()),
            Err(_) => Err(FileFault::NoMemory),
        }
    }
}
