//! The files of a folder that are open: at most so many.
use lru::LruCache;
use std::alloc::{AllocError, Global};
use std::collections::HashSet;
use std::fs::File;
use std::io;
use std::io::ErrorKind;
use std::num::NonZeroUsize;
use txn_base::FileId;

/// How many files a disk keeps open, where nothing else is asked for: one for each part that a folder can have.
pub const OPEN_FILES: usize = 64;

/// A file that is open, and whether it was written since its last sync.
#[derive(Drop)]
struct Opened {
    file: File,
    pending: bool,
}

/// The open files, of which the longest unused is closed for a further one, and the names of those that are broken. After
/// a sync that failed a file is broken: a later sync can answer Ok for bytes that the system has dropped, so no call on it
/// is answered Ok again.
#[derive(Drop)]
pub struct OpenFiles {
    kept: LruCache<FileId, Opened>,
    broken: HashSet<FileId>,
    all_broken: bool,
}

impl OpenFiles {
    /// At most so many, and one at least.
    pub fn new(alloc: Global, bound: usize) -> Result<Self, AllocError> {
        let bound = NonZeroUsize::new(bound).unwrap_or(NonZeroUsize::MIN);
        Ok(OpenFiles {
            kept: LruCache::sparse(alloc, bound)?,
            broken: HashSet::new(alloc),
            all_broken: false,
        })
    }

    /// An error where the file is broken.
    pub fn test(&self, id: FileId) -> io::Result<()> {
        if self.all_broken || (!self.broken.is_empty() && self.broken.contains(&id)) {
            return Err(ErrorKind::Other.into());
        }
        Ok(())
    }

    /// Whether a file is open. It is then the last to be closed.
    pub fn use_file(&mut self, id: FileId) -> bool {
        self.kept.promote(&id)
    }

    /// The open file of this name.
    pub fn file(&self, id: FileId) -> io::Result<&File> {
        match self.kept.peek(&id) {
            Some(opened) => Ok(&opened.file),
            None => Err(ErrorKind::NotFound.into()),
        }
    }

    /// Closes the longest unused file where no further one may be opened.
    pub fn make_room(&mut self) {
        if self.kept.len() < self.kept.cap().get() {
            return;
        }
        if let Some((key, old)) = self.kept.pop_lru() {
            // A file that is closed forgets what became of its bytes, so they are brought to the disk first.
            if old.pending && old.file.sync_all().is_err() {
                self.break_file(key);
            }
        }
    }

    /// Keeps a file that was just opened.
    pub fn keep(&mut self, id: FileId, file: File) -> io::Result<()> {
        let opened = Opened {
            file,
            pending: false,
        };
        match self.kept.put(id, opened) {
            Ok(_) => Ok(()),
            Err(_) => Err(ErrorKind::OutOfMemory.into()),
        }
    }

    /// The open file of this name, which is about to be written.
    pub fn file_to_write(&mut self, id: FileId) -> io::Result<&File> {
        match self.kept.get_mut(&id) {
            Some(opened) => {
                opened.pending = true;
                Ok(&opened.file)
            }
            None => Err(ErrorKind::NotFound.into()),
        }
    }

    /// Brings an open file to the disk. Where that fails the file is broken.
    pub fn sync(&mut self, id: FileId) -> io::Result<()> {
        match self.kept.get_mut(&id) {
            Some(opened) => match opened.file.sync_all() {
                Ok(()) => {
                    opened.pending = false;
                    Ok(())
                }
                Err(e) => {
                    self.break_file(id);
                    Err(e)
                }
            },
            None => Err(ErrorKind::NotFound.into()),
        }
    }

    /// A name that there is no memory to keep breaks all files.
    fn break_file(&mut self, key: FileId) {
        if self.broken.insert(key).is_err() {
            self.all_broken = true;
        }
    }
}
