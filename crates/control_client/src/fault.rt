//! Why asking ended early.

ghost use Rattle.std.specs.Prelude.{◌≡◌};
ghost use Rattle.control_client.specs.declared.fault.AskFault.TheVariants.{Connection, Memory};

use std::alloc::AllocError;
use std::io;

/// What is wrong with a connection.
#[derive(Clone, Copy, Debug, Drop)]
pub enum ConnectionFault {
    /// There is none: the server was not reached.
    Unreachable(io::Error),
    /// Sending or reading failed, or nothing came in time.
    Lost(io::Error),
}

/// Why asking ended early.
#[derive(Clone, Copy, Debug, Drop)]
pub enum AskFault {
    /// A connection failed.
    Connection(ConnectionFault),
    /// What is printed to failed.
    Output,
    /// There was no memory.
    Memory,
}

impl From<ConnectionFault> for AskFault {
    ghost from_gives = { λ fault given. given ≡ Connection fault };

    fn from(fault: ConnectionFault) -> AskFault {
        AskFault::Connection(fault)
    }
}

impl From<AllocError> for AskFault {
    ghost from_gives = { λ _ given. given ≡ Memory };

    fn from(_error: AllocError) -> AskFault {
        AskFault::Memory
    }
}
