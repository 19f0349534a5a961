ghost use Rattle.std.specs.Prelude.{◌≡◌};
ghost use Rattle.ccpp_top.specs.Status.{number_of};

use global_ptr::Standing;

/// How a call of `ccpp` ended. The numbers are the exit statuses of the program.
#[derive(Clone, Copy, Debug, PartialEq, Eq)]
pub enum Status {
    /// 0: the run is done, or another command gave its answer.
    Done = 0,
    /// 1: the run ended at a fault of the program.
    ProgramFault = 1,
    /// 2: the run rests with threads left.
    Blocked = 2,
    /// 3: the run made as many steps as the limit allows, and some thread can still move.
    Limit = 3,
    /// 4: the file is no program.
    SourceRefused = 4,
    /// 5: the words are no command.
    WordsRefused = 5,
    /// 6: the file could not be read.
    ReadFault = 6,
    /// 7: the answer, or a file, could not be written.
    WriteFault = 7,
    /// 8: want of memory.
    Memory = 8,
    /// 9: the answer of a command that checks something is no.
    No = 9,
    /// 10: there is no such file.
    NoFile = 10,
    /// 11: the number of ints is not that of the program's parameters.
    IntCount = 11,
}

impl Status {
    /// The exit status of the program.
    pub fn number(self) -> u8
        ensures { result ≡ number_of self }
    {
        self as u8
    }
}

impl From<Standing> for Status {
    ghost use Rattle.std.specs.Prelude.{◌≡◌};
    ghost use Rattle.ccpp_top.specs.Status.{status_of};

    ghost from_gives = { λ standing status. status ≡ status_of standing };

    fn from(standing: Standing) -> Status {
        match standing {
            Standing::Done(_) => Status::Done,
            Standing::Blocked(_) => Status::Blocked,
            Standing::Fault(_) => Status::ProgramFault,
            Standing::Limit(_) => Status::Limit,
        }
    }
}
