ghost use Rattle.std.specs.Prelude.{Decides};
ghost use Rattle.settings.specs.Keys.{Keyed, Plain, Valued, Takes, Taken};

// What the bytes of a key say.
#[derive(Clone, Copy)]
pub enum Key<'f> {
    Number(u16),
    Name(&'f [u8]),
}

// What an override is known by.
#[derive(Clone, Copy)]
pub struct Identifier<'n> {
    pub id: Option<u16>,
    pub name: Option<&'n [u8]>,
}

// A numeral that is no more than 65,535 is a number; any other key is a name.
pub fn read_key(bytes: &[u8]) -> Key<'_>
    ensures { Keyed bytes.now result }
{
    if !plain(bytes) {
        return Key::Name(bytes);
    }
    match number(bytes) {
        Some(n) => Key::Number(n),
        None => Key::Name(bytes),
    }
}

// Whether there are bytes, with no zero in front of others.
fn plain(bytes: &[u8]) -> bool
    ensures { Decides result (Plain bytes.now) }
{
    match bytes {
        [] => false,
        [first, rest @ ..] => *first != b'0' || rest.len() == 0,
    }
}

const LARGEST_NUMBER: u32 = 65535;

// The number that digits write, if it is no more than 65,535. A loop over bytes, and no `read_decimal`: that asks for text, and each
// key that an override with an id is held against would be read to its end, where a name mostly ends this at its first byte.
fn number(bytes: &[u8]) -> Option<u16>
    ensures { Valued bytes.now result }
{
    let mut n: u32 = 0;
    for b in bytes {
        if *b < b'0' {
            return None;
        }
        if *b > b'9' {
            return None;
        }
        n = 10 * n + (*b - b'0') as u32;
        if n > LARGEST_NUMBER {
            return None;
        }
    }
    Some(n as u16)
}

// Whether an override takes a key: by its id if it has one, and else by its name.
pub fn takes(who: Identifier<'_>, key: &[u8]) -> bool
    ensures { Decides result (Takes who.entry key.now) }
{
    match (who.id, who.name) {
        (Some(id), _) => match read_key(key) {
            Key::Number(n) => n == id,
            Key::Name(_) => false,
        },
        (None, Some(name)) => name == key,
        (None, None) => false,
    }
}

// Whether some override takes a key.
pub fn is_taken(key: &[u8], overrides: &[Identifier<'_>]) -> bool
    ensures { Decides result (Taken overrides.now key.now) }
{
    overrides.iter().any(|who| takes(*who, key))
}
