//! Hooks in which a test may hold up the workers.

/// Two hooks: one before a job runs, one after its message is answered. Those of a server outside tests do nothing (`OpenGate`).
pub trait Gate {
    /// A worker calls this just before it runs the job of this ticket.
    fn before(&self, ticket: u64);

    /// The dispatcher calls this just after the message of this ticket was answered.
    fn answered(&self, ticket: u64);
}

/// The gate that does nothing.
#[derive(Clone, Copy)]
pub struct OpenGate;

impl Gate for OpenGate {
    fn before(&self, _ticket: u64) {}

    fn answered(&self, _ticket: u64) {}
}
