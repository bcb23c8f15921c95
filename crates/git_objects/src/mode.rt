// The modes of a tree's entries.
ghost use Rattle.std.specs.Prelude.{◌≡◌};
ghost use Rattle.git_objects.specs.Entries.{is_dir};

/// What an entry of a tree is: a file, an executable, a link, a module (another repository's commit) or a directory.
#[derive(Clone, Copy, Debug, PartialEq, Eq)]
pub enum Mode {
    File,
    Exec,
    Link,
    Module,
    Dir,
}

impl Mode {
    /// Whether it is that of a directory.
    pub fn is_dir(self) -> bool
        ensures { result ≡ is_dir self }
    {
        self == Mode::Dir
    }
}
