//! What a top call answers, and the gate that tests hang into a run.

use ostore_base::ClientNo;

/// What a top call answers: the status for the shell, and the disk that it was given.
#[derive(Debug, Drop)]
pub struct Outcome<D> {
    pub status: u8,
    pub disk: D,
}

/// Is called in `run` before each line of a client's script, with the number of lines that the
/// client has begun so far. It is there for tests.
pub trait Gate {
    fn before(&self, client: ClientNo, command: u32);
}

/// A gate that always returns at once.
#[derive(Clone, Copy, Debug)]
pub struct OpenGate;

impl Gate for OpenGate {
    fn before(&self, _client: ClientNo, _command: u32) {}
}
