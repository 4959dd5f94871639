//! The bytes of each part of a URI (RFC 3261 section 25.1).

ghost use Rattle.std.specs.Prelude.{◌≡◌};
ghost use Rattle.sip_uri.specs.Classes.{is_plain_user, is_user_byte, is_label_byte, is_param_byte, is_header_byte};

/// Each byte that needs no escape in a user is at its own place, and a bar is at every other place.
static PLAIN_USER_BYTES: [u8; 256] = *b"\
    ||||||||||||||||||||||||||||||||\
    |!||$|&'()*+,-./0123456789:;|=|?\
    |ABCDEFGHIJKLMNOPQRSTUVWXYZ||||_\
    |abcdefghijklmnopqrstuvwxyz|||~|\
    ||||||||||||||||||||||||||||||||\
    ||||||||||||||||||||||||||||||||\
    ||||||||||||||||||||||||||||||||\
    ||||||||||||||||||||||||||||||||";

/// Each byte of a host name's label is at its own place, and a bar is at every other place.
static LABEL_BYTES: [u8; 256] = *b"\
    ||||||||||||||||||||||||||||||||\
    |||||||||||||-||0123456789||||||\
    |ABCDEFGHIJKLMNOPQRSTUVWXYZ|||||\
    |abcdefghijklmnopqrstuvwxyz|||||\
    ||||||||||||||||||||||||||||||||\
    ||||||||||||||||||||||||||||||||\
    ||||||||||||||||||||||||||||||||\
    ||||||||||||||||||||||||||||||||";

/// Each byte of a parameter is at its own place, and a bar is at every other place.
static PARAM_BYTES: [u8; 256] = *b"\
    ||||||||||||||||||||||||||||||||\
    |!||$%&'()*+|-./0123456789:|||||\
    |ABCDEFGHIJKLMNOPQRSTUVWXYZ[|]|_\
    |abcdefghijklmnopqrstuvwxyz|||~|\
    ||||||||||||||||||||||||||||||||\
    ||||||||||||||||||||||||||||||||\
    ||||||||||||||||||||||||||||||||\
    ||||||||||||||||||||||||||||||||";

/// Each byte of a header is at its own place, and a bar is at every other place.
static HEADER_BYTES: [u8; 256] = *b"\
    ||||||||||||||||||||||||||||||||\
    |!||$%|'()*+|-./0123456789:||||?\
    |ABCDEFGHIJKLMNOPQRSTUVWXYZ[|]|_\
    |abcdefghijklmnopqrstuvwxyz|||~|\
    ||||||||||||||||||||||||||||||||\
    ||||||||||||||||||||||||||||||||\
    ||||||||||||||||||||||||||||||||\
    ||||||||||||||||||||||||||||||||";

/// A byte that is written in a user as it is.
pub fn is_plain_user(b: u8) -> bool
    ensures { result ≡ is_plain_user b }
{
    PLAIN_USER_BYTES[usize::from(b)] != b'|'
}

pub fn is_user_byte(b: u8) -> bool
    ensures { result ≡ is_user_byte b }
{
    is_plain_user(b) || b == b'%'
}

pub fn is_label_byte(b: u8) -> bool
    ensures { result ≡ is_label_byte b }
{
    LABEL_BYTES[usize::from(b)] != b'|'
}

pub fn is_param_byte(b: u8) -> bool
    ensures { result ≡ is_param_byte b }
{
    PARAM_BYTES[usize::from(b)] != b'|'
}

pub fn is_header_byte(b: u8) -> bool
    ensures { result ≡ is_header_byte b }
{
    HEADER_BYTES[usize::from(b)] != b'|'
}
