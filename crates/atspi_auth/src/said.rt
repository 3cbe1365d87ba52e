//! The lines that the two ends send.

ghost use Rattle.std.specs.Prelude.{◌≡◌};
ghost use Rattle.atspi_auth.specs.Said.{bytes_of};

/// A line to send. `Granted`, `Rejected` and `Error` are a server's, `Hail` and `Begin` a client's, and `Data` both
/// ends'.
#[derive(Clone, Copy, Debug, PartialEq, Eq)]
pub enum AuthLine {
    /// `OK` and the server's number in 32 hex digits.
    Granted,
    /// `DATA`: a server asks for the uid, and a client leaves it to the socket.
    Data,
    /// `REJECTED` and the one mechanism that there is.
    Rejected,
    /// `ERROR`: the line was not understood where it came.
    Error,
    /// The zero byte that opens a connection, and `AUTH EXTERNAL`.
    Hail,
    /// `BEGIN`: messages follow.
    Begin,
}

impl AuthLine {
    /// The line's bytes with its CR LF, and with the zero byte in front of a `Hail`.
    pub fn bytes(&self) -> &'static [u8]
        ensures { result.now ≡ bytes_of self.now }
    {
        match self {
            AuthLine::Granted => b"OK 61747370693200000000000000000001\r\n",
            AuthLine::Data => b"DATA\r\n",
            AuthLine::Rejected => b"REJECTED EXTERNAL\r\n",
            AuthLine::Error => b"ERROR\r\n",
            AuthLine::Hail => b"\0AUTH EXTERNAL\r\n",
            AuthLine::Begin => b"BEGIN\r\n",
        }
    }
}
