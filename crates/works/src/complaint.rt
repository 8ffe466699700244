//! Why a run ends without its whole output.

ghost use Rattle.std.specs.Prelude.{◌≡◌};
ghost use Rattle.works.specs.Complaints.{name_text};

use fux_pitch::Label;

/// The name of a file that cannot be read.
#[derive(Drop)]
pub enum FileName<'a> {
    /// The words give it.
    Given(&'a str),
    /// A list has it.
    Listed(Label),
}

impl<'a> FileName<'a> {
    /// The name, lent without memory.
    pub fn as_str(&self) -> &str
        ensures { result.now ≡ name_text self.now }
    {
        match self {
            FileName::Given(name) => name,
            FileName::Listed(name) => name.as_str(),
        }
    }
}

/// Why a run ends without its whole output.
#[derive(Drop)]
pub enum Complaint<'a> {
    /// The words are of no command's form.
    Usage,
    /// A file is not what the command needs: what is said of it.
    Refused { text: Label },
    /// The file of this name cannot be read.
    Unreadable { name: FileName<'a> },
    /// Standard output cannot be written.
    Unwritable,
    /// There is not enough memory.
    OutOfMemory,
}
