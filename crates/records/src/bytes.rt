ghost use Rattle.std.specs.Prelude.{◌≡◌, ◌+◌, ◌≤◌, length, drop, IfSome};
ghost use Rattle.records.specs.Bytes.{four, cut_of, seen};

/// A record as it lies in its file: kind and body.
#[derive(Clone, Copy)]
pub struct Raw<'a> {
    // Kept as a number: a record of any kind can be whole, and `read` asks for the kind later.
    pub kind: u16,
    pub body: &'a [u8],
}

/// The record in front, or nothing where it is not whole.
pub fn cut<'a>(bytes: &'a [u8]) -> Option<Raw<'a>>
    ensures value { seen result ≡ cut_of bytes.now }
    ensures within { IfSome result (λ raw. 4 + length raw.body.now ≤ length bytes.now) }
{
    let [l0, l1, k0, k1, after @ ..] = bytes else {
        return None;
    };
    let length = usize::from(u16::from_le_bytes([*l0, *l1]));
    let body = after.get(..length)?;
    Some(Raw {
        kind: u16::from_le_bytes([*k0, *k1]),
        body,
    })
}

/// The bytes from `place` on.
pub fn from_place<'a>(bytes: &'a [u8], place: usize) -> &'a [u8]
    ensures { result.now ≡ drop place bytes.now }
{
    bytes.get(place..).unwrap_or(&[])
}

/// The four bytes from `at` on, the low one first.
pub(crate) fn long(bytes: &[u8], at: usize) -> u32
    requires { at + 4 ≤ length bytes.now }
    ensures { result ≡ four bytes.now at }
{
    u32::from_le_bytes([bytes[at], bytes[at + 1], bytes[at + 2], bytes[at + 3]])
}
