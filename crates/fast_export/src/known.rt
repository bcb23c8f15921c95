// The lines of directories that were written.
ghost use Rattle.std.specs.Prelude.{◌≡◌, ◌⊎◌, [], OnOk};
ghost use Rattle.std.specs.Option.{option_map};
ghost use Rattle.indexmap.specs.IndexMap.{insert_entry};
ghost use Rattle.fast_export.specs.Given.{is_named};
ghost use Rattle.fast_export.specs.Known.{IsAdded, found_lines};
ghost use Rattle.fast_export.specs.declared.known.Lines.{Lines};

use git_objects::Name;
use indexmap::IndexMap;
use std::alloc::{AllocError, Global};
use std::marker::Model;

// How many bytes of lines are kept at most.
const MOST: usize = 67_108_864;

/// The lines of a directory's leaves, and what stands in front of its paths.
#[derive(Drop)]
pub struct Lines {
    front: Vec<u8>,
    text: Vec<u8>,
}

/// The lines of directories that were written, by the names of their trees. They only save work: without memory for
/// them, and where there are too many, they are forgotten.
#[derive(Drop)]
pub struct KnownLines {
    alloc: Global,
    bytes: usize,
    lines: IndexMap<Name, Lines>,
}

impl Model for KnownLines {
    ghost use Rattle.std.specs.Prelude.{List};
    ghost use Rattle.git_objects.specs.declared.name.Name.{Name};
    ghost use Rattle.fast_export.specs.declared.known.Lines.{Lines};

    ghost Value = { List (Name × Lines) };

    ghost view = { λ k. k.lines.entries };
}

impl KnownLines {
    pub fn new(alloc: Global) -> KnownLines
        ensures { result ≡ [] }
    {
        KnownLines {
            alloc,
            bytes: 0,
            lines: IndexMap::new(alloc),
        }
    }

    /// The lines of a tree behind a front, where they are known.
    pub fn find(&self, tree: &Name, front: &[u8]) -> Option<&[u8]>
        ensures { option_map (λ t. t.now) result ≡ found_lines tree.now front.now self.now }
    {
        let lines = self.lines.get(tree)?;
        if lines.front.as_slice() != front {
            return None;
        }
        Some(&lines.text)
    }

    /// Keeps the lines of a tree behind a front.
    pub fn add(&mut self, tree: Name, front: &[u8], text: &[u8])
        ensures { IsAdded tree front.now text.now self.old self.new }
    {
        self.make_room(text.len());
        if self.put(tree, front, text).is_err() {
            self.forget();
        }
    }

    // Forgets all lines.
    fn forget(&mut self)
        ensures { self.new ≡ [] }
    {
        self.lines.clear();
        self.bytes = 0;
    }

    // Counts so many bytes more. Where they are too many, all others are forgotten.
    fn make_room(&mut self, size: usize)
        ensures { (self.new ≡ self.old) ⊎ (self.new ≡ []) }
    {
        if size > MOST.saturating_sub(self.bytes) {
            self.forget();
        }
        self.bytes = self.bytes.saturating_add(size);
    }

    // Puts copies of lines.
    fn put(&mut self, tree: Name, front: &[u8], text: &[u8]) -> Result<(), AllocError>
        ensures { OnOk result ((l : Lines) × (l.front.items ≡ front.now) × (l.text.items ≡ text.now) ×
            (self.new ≡ insert_entry is_named self.old tree l)) }
    {
        let lines = Lines {
            front: front.to_vec(self.alloc)?,
            text: text.to_vec(self.alloc)?,
        };
        self.lines.insert(tree, lines)?;
        Ok(())
    }
}
