ghost use Rattle.std.specs.Prelude.{◌≡◌, [], ◌∷◌, ◌++◌, None, OnOk, OnErr};
ghost use Rattle.cc_names.specs.Table.{entry};

use ccpp_edge::Text;
use indexmap::IndexMap;
use std::alloc::{AllocError, Global};
use std::marker::Model;

/// Names in declared order, each once, with what they stand for. Contracts see the list of both.
#[derive(Debug, Drop)]
pub(crate) struct Table<V> {
    entries: IndexMap<String, V>,
}

impl<V> Model for Table<V> {
    ghost use Rattle.std.specs.Prelude.{ℕ, List};
    ghost use Rattle.cc_names.specs.Table.{text_entries};

    ghost Value = { List (List ℕ × V) };

    ghost view = { λ table. text_entries table.entries.entries };
}

impl<V: Copy> Table<V> {
    /// The table without names, which takes no memory.
    pub(crate) fn new(alloc: Global) -> Table<V>
        ensures { result ≡ [] }
    {
        Table {
            entries: IndexMap::new(alloc),
        }
    }

    /// What a name stands for, and `None` exactly where it is not in the table.
    pub(crate) fn get(&self, name: &Text) -> Option<V>
        ensures { result ≡ entry self.now name.now }
    {
        self.entries.get(name.as_str()).copied()
    }

    /// Puts a name that is not in the table at its end. Want of memory leaves the table as it was.
    pub(crate) fn push(&mut self, alloc: Global, name: &Text, value: V) -> Result<(), AllocError>
        requires { entry self.old name.now ≡ None }
        ensures ok { OnOk result (self.new ≡ self.old ++ (name.now, value) ∷ []) }
        ensures err { OnErr result (self.new ≡ self.old) }
    {
        let name = String::from_str(alloc, name.as_str())?;
        self.entries.insert(name, value)?;
        Ok(())
    }
}
