//! Names that are looked up often.

ghost use Rattle.std.specs.Prelude.{◌≡◌, ◌++◌, ◌∷◌, [], OnOk};

use std::alloc::{AllocError, Global};

/// Names, in order once they are sorted.
#[derive(Drop)]
pub struct Names<'a> {
    names: Vec<&'a [u8]>,
}

impl<'a> Names<'a> {
    /// None yet.
    pub fn new(alloc: Global) -> Names<'a>
        ensures { result.names.items ≡ [] }
    {
        Names {
            names: Vec::new(alloc),
        }
    }

    /// Adds a name.
    pub fn push(&mut self, name: &'a [u8]) -> Result<(), AllocError>
        ensures { OnOk result (self.new.names.items ≡ self.old.names.items ++ name.entry ∷ []) }
    {
        self.names.push(name)?;
        Ok(())
    }

    /// Adds the words of a list, which has blanks between them.
    pub fn add(&mut self, list: &'a [u8]) -> Result<(), AllocError> {
        for name in list.split(|byte| *byte == b' ') {
            self.names.push(name)?;
        }
        Ok(())
    }

    /// Puts them in order, each once.
    pub fn sort(&mut self) {
        self.names.sort_unstable();
        self.names.dedup();
    }

    /// Whether this name is among them, once they are in order.
    pub fn has(&self, name: &[u8]) -> bool {
        self.names.binary_search(&name).is_ok()
    }

    /// The names.
    pub fn as_slice(&self) -> &[&'a [u8]] {
        self.names.as_slice()
    }
}

/// The words of these lists, in order.
pub fn names_of<'a>(alloc: Global, lists: &[&'a [u8]]) -> Result<Names<'a>, AllocError> {
    let mut names = Names::new(alloc);
    for list in lists {
        names.add(list)?;
    }
    names.sort();
    Ok(names)
}
