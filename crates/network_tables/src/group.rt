ghost use Rattle.std.specs.Prelude.{◌≡◌};
ghost use Rattle.network_tables.specs.Groups.{is_multicast};

/// Whether an address is that of a multicast group (RFC 5771): 224.0.0.0 to 239.255.255.255.
pub fn is_multicast(host: [u8; 4]) -> bool
    ensures { result ≡ is_multicast host }
{
    host[0] >= 224 && host[0] <= 239
}
