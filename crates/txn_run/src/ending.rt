//! What the program tells of how a run ended: its status, and the line beside it.
ghost use Rattle.std.specs.Prelude.{◌≡◌, Some};
ghost use Rattle.txn_run.specs.Ending.{exit_status, line_of};

use crate::status::RunStatus;
use std::fmt;
use std::fmt::{Display, Formatter};
use txn_base::FileName;

impl RunStatus {
    /// The program's status.
    pub fn number(&self) -> u8
        ensures { result ≡ exit_status self.now }
    {
        match self {
            RunStatus::Ok => 0,
            RunStatus::Usage(_) => 1,
            RunStatus::Damaged { file: _, entry: _ } => 2,
            RunStatus::ReadFault => 3,
            RunStatus::WriteFault => 4,
            RunStatus::DiskFault => 5,
            RunStatus::NoMemory => 6,
            RunStatus::TooMuch => 7,
        }
    }
}

/// The line on standard error, with its newline; nothing where all went well.
impl Display for RunStatus {
    ghost output = { λ status. Some (line_of status) };

    fn fmt<W: fmt::Write>(&self, f: &mut Formatter<W>) -> fmt::Result {
        match self {
            RunStatus::Ok => Ok(()),
            RunStatus::Usage(_) => f.write_str("usage\n"),
            RunStatus::Damaged { file, entry } => write!(
                f,
                "damaged {} {entry}\n",
                FileName(*file)
            ),
            RunStatus::ReadFault => f.write_str("read fault\n"),
            RunStatus::WriteFault => f.write_str("write fault\n"),
            RunStatus::DiskFault => f.write_str("disk fault\n"),
            RunStatus::NoMemory => f.write_str("no memory\n"),
            RunStatus::TooMuch => f.write_str("too much\n"),
        }
    }
}
