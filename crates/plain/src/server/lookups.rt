//! Which volumes the server has, and which of them are sealed.

ghost use Rattle.std.specs.Prelude.{◌≡◌};
ghost use Rattle.plain.specs.Server.{server_state};

use super::Server;

impl Server {
    /// Whether a volume is made.
    pub(super) fn has_volume(&self, a: u16, v: u16) -> bool
        ensures { result ≡ (server_state self.now).made (a, v) }
    {
        self.volumes.contains_key(&(a, v))
    }

    /// Whether a volume is sealed.
    pub(super) fn is_sealed(&self, a: u16, v: u16) -> bool
        ensures { result ≡ (server_state self.now).sealed (a, v) }
    {
        self.volumes
            .get(&(a, v))
            .is_some_and(|volume| volume.sealed)
    }
}
