/// How a call ended.
#[derive(Clone, Copy, Debug, PartialEq, Eq)]
pub enum Status {
    /// All was written.
    Done = 0,
    /// The script isn't of the form that is built so far.
    Script = 1,
    /// The words are no command.
    Words = 2,
    /// The input couldn't be read.
    ReadFault = 3,
    /// The output couldn't be written.
    WriteFault = 4,
    /// No memory was left.
    NoMemory = 6,
    /// The input is over its limit.
    TooLong = 7,
}

impl Status {
    ghost use Rattle.std.specs.Prelude.{◌≡◌};
    ghost use Rattle.search_main.specs.Top.{exit_code};

    /// The exit status of a process.
    pub fn code(self) -> u8
        ensures { result ≡ exit_code self }
    {
        self as u8
    }
}
