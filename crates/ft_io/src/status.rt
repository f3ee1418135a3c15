//! How a call over a source and a sink ended.

ghost use Rattle.std.specs.Prelude.{◌≡◌};
ghost use Rattle.ft_io.specs.Status.{code_of};

/// How a call ended that reads a source and writes a sink. A program ends with the number as its exit
/// status. Which of them a call gives, and when, its contract says.
#[derive(Clone, Copy, PartialEq, Eq)]
pub enum Status {
    /// The source was read to its end, and what was asked for was written in full.
    Done = 0,
    /// A log was judged: it is broken at the line that was written.
    Broken = 1,
    /// The words aren't in the command's language. Nothing was read or written.
    Language = 2,
    /// The source was read to its end, what it gave is refused, and the line that says where and why
    /// was written in full.
    Refused = 3,
    /// The source failed. Nothing was written.
    ReadFault = 4,
    /// The sink failed. A beginning of the text or of the line was written.
    WriteFault = 5,
    /// Out of memory. Nothing was written.
    NoMemory = 6,
    /// The source gave more bytes than the input may have. Nothing was written.
    TooLong = 7,
}

impl Status {
    /// The exit status.
    pub fn code(self) -> u8
        ensures { result ≡ code_of self }
    {
        self as u8
    }
}
