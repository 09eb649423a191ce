//! A file in memory: its name and its bytes.
ghost use Rattle.std.specs.Prelude.{◌≡◌};

use lf_base::{ListOf, Text};

/// A file in memory.
#[derive(Debug, Drop)]
pub struct File {
    /// The word by which a shelf finds it.
    pub name: Text,
    /// All that it holds.
    pub bytes: ListOf<u8>,
}

impl File {
    ghost use Rattle.std.specs.Option.{option_copied, option_map};
    ghost use Rattle.lf_io.specs.MemoryFiles.{by_name};

    /// The first file of a name.
    pub fn find<'a>(files: &'a [File], name: &str) -> Option<&'a File>
        ensures { option_map (λ file. file.bytes) (option_copied result)
            ≡ by_name files.now name.now }
    {
        files.iter().find(|file| file.name.as_str() == name)
    }
}
