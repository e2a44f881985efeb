ghost use Rattle.std.specs.Prelude.{◌≡◌};
ghost use Rattle.targets.specs.Address.{is_same};

/// An IPv4 address and a UDP port.
#[derive(Clone, Copy, Debug, Default, PartialEq, Eq)]
pub struct Address {
    pub host: [u8; 4],
    pub port: u16,
}

impl Address {
    /// Whether they are the same host and port.
    pub fn is(&self, other: &Address) -> bool
        ensures { result ≡ is_same self.now other.now }
    {
        self.host == other.host && self.port == other.port
    }
}
