//! Files of text, by their paths.
ghost use Rattle.std.specs.Prelude.{◌≡◌, ℕ, List, Option, None, Bool, false, IfOk, OnOk};

use ctl_run::Stop;
use std::fs::File;
use std::io;
use std::io::{ErrorKind, Read};

/// What opens files of text.
pub trait TextFiles {
    /// What reads one.
    type Text: Read + Drop;

    /// What stands in the file of this path, where that is known.
    ghost text_of: { Self → List ℕ → Option (List ℕ) };

    /// Whether it is known that the file of this path can't be opened.
    ghost is_shut: { Self → List ℕ → Bool };

    /// Opens the file of this path, to be read from its beginning.
    fn open_text(&self, path: &str) -> io::Result<Self::Text>
        ensures text { IfOk result (λ text. Self.Text.remaining text ≡ text_of self.now path.now) }
        ensures open { OnOk result (is_shut self.now path.now ≡ false) };
}

impl TextFiles for HostRuntime {
    type Text = File;

    ghost text_of = { λ _ _. None };

    ghost is_shut = { λ _ _. false };

    fn open_text(&self, path: &str) -> io::Result<File> {
        File::open(self, path)
    }
}

/// Why a file of text that the words name gives nothing.
#[derive(Clone, Copy)]
pub enum TextFault {
    /// It can't be opened.
    Closed(ErrorKind),
    /// It can't be read, what it has is bad, or memory was refused.
    Stopped(Stop),
}
