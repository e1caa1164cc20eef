//! Files that are opened by their names.
ghost use Rattle.std.specs.Prelude.{◌≡◌, ℕ, List, IfErr, IfOk, MatchResult};
ghost use Rattle.nom_io.specs.Account.{one_more};
ghost use Rattle.nom_io.specs.declared.counted.Counted.{Counted};

use crate::error::RunError;
use nom_io::counted::Counted;
use nom_io::stream::{Fault, Source};
use std::fs::File;
use std::io::Read;
use std::rt::Files;

/// Files that are opened by their names.
pub trait Folder {
    /// An open file.
    type File: Source + Drop;

    // How many files couldn't be opened; the count stays at the greatest `u64`.
    ghost missed: { Self → ℕ };

    // Whether a source is the file of a name, as it is when it is opened.
    ghost is_file: { Self → List ℕ → Self.File → Type 0 };

    /// Opens the file of a name.
    fn open(&mut self, name: &str) -> Result<Self::File, Fault>
        ensures file { IfOk result (is_file self.old name.now) }
        ensures counts { MatchResult result (λ _. missed self.new ≡ missed self.old) (λ _. missed self.new ≡ one_more (missed self.old)) };
}

/// The files of a runtime.
///
/// A trait of std says nothing about which file it opens. The body of `open` shows that it is the one of the
/// name, and that it is opened once; this isn't proved.
#[derive(Drop)]
pub struct Disk<'a, R: Files> {
    files: &'a R,
    missed: u64,
}

impl<'a, R: Files> Disk<'a, R> {
    /// Returns the files of a runtime, with a count that starts at 0.
    pub fn new(files: &'a R) -> Self {
        Disk { files, missed: 0 }
    }
}

impl<'a, R: Files> Folder for Disk<'a, R> {
    type File = Counted<R::File>;

    ghost missed = { λ d. d.missed };

    ghost is_file = { λ _ _ _. Unit {0} };

    fn open(&mut self, name: &str) -> Result<Counted<R::File>, Fault> {
        match File::open(self.files, name) {
            Ok(file) => Ok(Counted::new(file)),
            Err(_) => {
                self.missed = self.missed.saturating_add(1);
                Err(Fault)
            }
        }
    }
}

/// Opens the file of a name, and returns its reader, of which no call was made.
///
/// The answer is `Read` if it can't be opened.
pub fn open_reader<T: Read + Drop, F: Folder<File = Counted<T>>>(
    folder: &mut F,
    name: &str,
) -> Result<T, RunError>
    ensures file { IfOk result (λ reader. (file : Counted T) × F.is_file folder.old name.now file × (reader ≡ file.inner)) }
    ensures none { IfOk result (λ _. F.missed folder.new ≡ F.missed folder.old) }
    ensures missed { IfErr result (λ e. (e ≡ RunError.Read) × (F.missed folder.new ≡ one_more (F.missed folder.old))) }
{
    match folder.open(name) {
        Ok(file) => Ok(file.into_inner()),
        Err(_) => Err(RunError::Read),
    }
}
