//! How the files of a disk are named in its folder.
ghost use Rattle.std.specs.Prelude.{Some};
ghost use Rattle.txn_base.specs.FileName.{file_name};

use crate::file_id::FileId;
use std::fmt;
use std::fmt::{Display, Formatter};

/// The name of a file in its folder: `p01-r0000000002` is row 2 of part 1.
#[derive(Clone, Copy)]
pub struct FileName(pub FileId);

impl Display for FileName {
    ghost output = { λ name. Some (file_name name.0) };

    fn fmt<W: fmt::Write>(&self, f: &mut Formatter<W>) -> fmt::Result {
        write!(f, "p{:02}-r{:010}", self.0.part, self.0.row)
    }
}
