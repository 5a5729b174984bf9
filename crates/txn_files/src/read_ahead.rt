//! Bytes of one file that were read ahead, for small reads behind each other.
use std::alloc::Global;
use std::fs::File;
use std::io;
use std::os::unix::fs::FileExt;
use txn_base::FileId;

/// How many bytes are read ahead.
const WINDOW: usize = 65_536;

/// The window of the file that was read last. It has only bytes that the file had, and is dropped before each write and
/// each change of size of that file.
#[derive(Drop)]
pub struct ReadAhead {
    bytes: Vec<u8>,
    of: Option<FileId>,
    start: u64,
    kept: usize,
    next: u64,
}

impl ReadAhead {
    pub fn new(alloc: Global) -> Self {
        ReadAhead {
            bytes: Vec::new(alloc),
            of: None,
            start: 0,
            kept: 0,
            next: 0,
        }
    }

    /// Forgets what was read of this file.
    pub fn drop_file(&mut self, id: FileId) {
        if self.of == Some(id) {
            self.of = None;
            self.kept = 0;
        }
    }

    /// Fills the piece from the window. Whether all of it stands there.
    pub fn serve(&mut self, id: FileId, offset: u64, into: &mut [u8]) -> bool {
        if self.of != Some(id) || offset < self.start {
            return false;
        }
        let Ok(from) = usize::try_from(offset - self.start) else {
            return false;
        };
        let Some(front) = self.bytes.get(..self.kept) else {
            return false;
        };
        let Some(rest) = front.get(from..) else {
            return false;
        };
        let Some(piece) = rest.get(..into.len()) else {
            return false;
        };
        into.copy_from_slice(piece);
        self.next = offset.saturating_add(into.len() as u64);
        true
    }

    /// Reads the whole piece from the file, which has this name, and more behind it where a read of it came just before.
    pub fn read(
        &mut self,
        id: FileId,
        file: &File,
        offset: u64,
        into: &mut [u8],
    ) -> io::Result<()> {
        if self.follows(id, offset) && into.len() < WINDOW {
            self.fill(file, offset);
            if self.serve(id, offset, into) {
                return Ok(());
            }
        }
        self.of = Some(id);
        self.kept = 0;
        self.next = offset.saturating_add(into.len() as u64);
        file.read_exact_at(into, offset)
    }

    /// Whether this is a read a little behind the end of the last one.
    fn follows(&self, id: FileId, offset: u64) -> bool {
        self.of == Some(id) && self.next <= offset && offset - self.next < WINDOW as u64
    }

    /// Reads what the file has there, as far as one call gives it. Nothing where that fails, or there is no memory for it.
    fn fill(&mut self, file: &File, offset: u64) {
        self.kept = 0;
        if self.bytes.resize(WINDOW, 0).is_err() {
            return;
        }
        if let Ok(count) = file.read_at(&mut self.bytes, offset) {
            self.start = offset;
            self.kept = count;
        }
    }
}
