//! How a run ends.
ghost use Rattle.std.specs.Prelude.{◌≡◌};
ghost use Rattle.config_cli.specs.Statuses.{number_of};

/// How a run ends.
#[derive(Clone, Copy, Debug, PartialEq, Eq)]
pub enum Status {
    /// A configuration is preferred, and meets all requests.
    Preferred,
    /// No configuration meets all requests.
    Conflict,
    /// The checked answer satisfies the model and meets all requests.
    Satisfied,
    /// The checked answer breaks a test of the model, or doesn't meet a request.
    Broken,
    /// The words are none of the accepted forms.
    Usage,
    /// A file has a fault.
    Refused,
    /// A read failed.
    ReadFailed,
    /// The write failed.
    WriteFailed,
    /// Memory ran out.
    OutOfMemory,
    /// The words of the command line can't be got. No run gives it.
    NoWords,
}

impl Status {
    /// The number that the system is told.
    pub fn number(self) -> u8
        ensures { result ≡ number_of self }
    {
        match self {
            Status::Preferred => 0,
            Status::Conflict => 1,
            Status::Satisfied => 0,
            Status::Broken => 1,
            Status::Usage => 2,
            Status::Refused => 3,
            Status::ReadFailed => 4,
            Status::WriteFailed => 5,
            Status::OutOfMemory => 6,
            Status::NoWords => 7,
        }
    }
}
