/// How a command ended; `status as u8` is the program's exit status.
#[derive(Clone, Copy, PartialEq, Eq)]
pub enum Status {
    /// The module ran to its end, or another command did its work.
    Done,
    /// The module breaks a rule of the language.
    Refused,
    /// The words are no command line.
    Usage,
    /// The module ended with a fault.
    Raised,
    /// The module used up its turns.
    Spent,
    /// The library or the input failed.
    ReadFault,
    /// A sink failed.
    WriteFault,
    NoMemory,
    /// The library doesn't hold the file.
    NoFile,
    /// The module or its input is longer than the limit.
    TooLarge,
}
