//! Why an offer or an answer is refused.

use thiserror::Error;

/// Why an offer is refused: the first fault in the order of the variants, after `FewerMedia` medium by medium.
#[derive(Clone, Copy, Debug, Error)]
pub enum OfferFault {
    /// The description that this end gave before has more media (RFC 3264 section 8).
    #[error("O1: fewer media")]
    FewerMedia,
    /// The relay doesn't carry the protocol of a medium.
    #[error("O2: protocol")]
    Protocol,
    /// A number of ports is written after a port.
    #[error("O3: port count")]
    PortCount,
    /// The address is a host name.
    #[error("O4: host name")]
    HostName,
    #[error("O5: IP6")]
    Ip6Address,
    #[error("O6: multicast")]
    MulticastAddress,
    /// The place is the server's own: media sent there would go round and round.
    #[error("O7: own range")]
    OwnPlace,
}

/// Why an answer is refused: the first fault in the order of the variants, after `NumberOfMedia` medium by medium.
#[derive(Clone, Copy, Debug, Error)]
pub enum AnswerFault {
    /// The answer doesn't have as many media as the offer (RFC 3264 section 6).
    #[error("N1: number of media")]
    NumberOfMedia,
    /// The kind or the protocol is not the offered one (RFC 3264 section 6.1).
    #[error("N2: kind or protocol")]
    OtherMedia,
    /// The medium was offered with port 0, and answered with another (RFC 3264 section 8.2).
    #[error("N3: port for a zero port")]
    UnwantedPort,
    /// The place is the server's own, or has more than one port, or no unicast IPv4 address.
    #[error("N4: bad place")]
    BadPlace,
}
