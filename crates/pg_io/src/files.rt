//! A shelf over the files of the system, opened by their names. It does not tell their texts, since the outside
//! does not. That it gives a whole file is proved where the file's bytes are known.
ghost use Rattle.std.specs.Prelude.{◌≡◌, ◌<◌, ◌≤◌, ◌⊎◌, ℕ, List, [], length, IfOk, IfSome, IsErrOf, OnOk};
ghost use Rattle.std.specs.Io.KnownBytes.{IsAtEnd};
ghost use Rattle.pg_io.specs.Faults.{Rose, raised};
ghost use Rattle.pg_io.specs.Shelves.{count_of, untold};

use crate::counts::NameCounts;
use crate::shelf::{FetchFault, Shelf};
use std::alloc::Global;
use std::fs;
use std::io::Read;
use std::marker::Model;
use std::rt::Files;

/// The most bytes that one call asks of a file.
const PIECE: usize = 4096;

/// A shelf of files. A name that can't be opened is a fault, and so is a file that can't be read to its end.
#[derive(Drop)]
pub struct FileShelf<'a, R: Files> {
    files: &'a R,
    counts: NameCounts,
}

impl<'a, R: Files> Model for FileShelf<'a, R> {
    ghost use Rattle.pg_io.specs.Shelves.{FileShelfState};

    ghost Value = { FileShelfState };

    ghost view = { λ s. record { counts = s.counts } };
}

impl<'a, R: Files> FileShelf<'a, R> {
    /// A shelf of the files of the system. Each count of faults begins at 0.
    pub fn new(alloc: Global, files: &'a R) -> FileShelf<'a, R>
        ensures { result.counts ≡ [] }
    {
        FileShelf {
            files,
            counts: NameCounts::new(alloc),
        }
    }
}

impl<'a, R: Files> Shelf for FileShelf<'a, R> {
    ghost text = { λ _ _. untold };

    ghost faults = { λ s name. count_of s.counts name };

    fn fetch(&mut self, alloc: Global, name: &str, limit: usize) -> Result<Vec<u8>, FetchFault>
        ensures whole { IfOk result (λ v. IfSome untold (λ t. v.items ≡ t)) }
        ensures within { IfOk result (λ v. length v.items ≤ limit) }
        ensures too_long { IsErrOf result FetchFault.TooLong → IfSome untold (λ t. limit < length t) }
        ensures cause { IsErrOf result FetchFault.Failed → Rose (count_of self.old.counts name.now) (count_of self.new.counts name.now) }
        ensures count { IsErrOf result FetchFault.Failed → count_of self.new.counts name.now ≡ raised (count_of self.old.counts name.now) }
        ensures count_stays { IsErrOf result FetchFault.Failed ⊎ (count_of self.new.counts name.now ≡ count_of self.old.counts name.now) }
        ensures count_never_falls { count_of self.old.counts name.now ≤ count_of self.new.counts name.now }
        ensures others_stay { (m : List ℕ) → (m ≡ name.now → ⊥) → count_of self.new.counts m ≡ count_of self.old.counts m }
    {
        match read_file(alloc, self.files, name, limit) {
            Err(FetchFault::Failed) => {
                self.counts.raise(alloc, name)?;
                Err(FetchFault::Failed)
            }
            answer => answer,
        }
    }
}

// The bytes of a file of this name, if it has at most `limit`.
fn read_file<R: Files>(
    alloc: Global,
    files: &R,
    name: &str,
    limit: usize,
) -> Result<Vec<u8>, FetchFault>
    ensures { IfOk result (λ v. length v.items ≤ limit) }
{
    match fs::open(files, name) {
        Ok(mut file) => read_whole(alloc, &mut file, limit),
        Err(_) => Err(FetchFault::Failed),
    }
}

// The bytes of a reader up to its end, if they are at most `limit`.
fn read_whole<F: Read>(alloc: Global, file: &mut F, limit: usize) -> Result<Vec<u8>, FetchFault>
    ensures whole { IfOk result (λ v. IfSome (F.remaining file.old) (λ t. v.items ≡ t)) }
    ensures at_end { OnOk result (IsAtEnd (F.remaining file.new)) }
    ensures within { IfOk result (λ v. length v.items ≤ limit) }
    ensures too_long { IsErrOf result FetchFault.TooLong → IfSome (F.remaining file.old) (λ t. limit < length t) }
{
    let mut bytes = Vec::new(alloc);
    let mut piece = [0; PIECE];
    // The label is for the proof: see docs/CONTRIBUTING.md.
    'reads: while bytes.len() <= limit {
        let room = PIECE.min((limit - bytes.len()).saturating_add(1));
        match file.read(&mut piece[..room]) {
            Ok(0) => return Ok(bytes),
            Ok(n) => bytes.extend_from_slice(&piece[..n])?,
            Err(_) => return Err(FetchFault::Failed),
        }
    }
    Err(FetchFault::TooLong)
}
