//! Why a call of the system that accepts gave no link.

ghost use Rattle.std.specs.Prelude.{◌≡◌};
ghost use Rattle.stream_host.specs.Refusals.{refusal_of};

/// Why a call of the system that accepts gave no link.
#[derive(Clone, Copy, Debug, PartialEq, Eq)]
pub enum Refused {
    /// What the next call need not meet: an error of the connection that waited, which is gone, or a signal.
    Once,
    /// Something is short that others give back, as descriptors and memory are.
    Short,
    /// Anything else, which the next call would meet again.
    Broken,
}

const EPERM: u32 = 1;

const EINTR: u32 = 4;

const ENOMEM: u32 = 12;

const ENFILE: u32 = 23;

const EMFILE: u32 = 24;

const ENONET: u32 = 64;

const EPROTO: u32 = 71;

const ENOPROTOOPT: u32 = 92;

const EOPNOTSUPP: u32 = 95;

const ENETDOWN: u32 = 100;

const ENETUNREACH: u32 = 101;

const ECONNABORTED: u32 = 103;

const ENOBUFS: u32 = 105;

const ETIMEDOUT: u32 = 110;

const EHOSTDOWN: u32 = 112;

const EHOSTUNREACH: u32 = 113;

/// Why a call that accepts gave no link, by Linux's number of its error.
pub fn refusal_of(number: u32) -> Refused
    ensures { result ≡ refusal_of number }
{
    match number {
        EPERM
        | EINTR
        | ENONET
        | EPROTO
        | ENOPROTOOPT
        | EOPNOTSUPP
        | ENETDOWN
        | ENETUNREACH
        | ECONNABORTED
        | ETIMEDOUT
        | EHOSTDOWN
        | EHOSTUNREACH => Refused::Once,
        ENOMEM | ENFILE | EMFILE | ENOBUFS => Refused::Short,
        _ => Refused::Broken,
    }
}
