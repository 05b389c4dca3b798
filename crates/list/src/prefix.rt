//! A prefix of a name, which a node stands for.
ghost use Rattle.std.specs.Prelude.{◌≡◌, ◌+◌, ◌*◌, ◌/◌, ◌%◌, ◌^◌, ◌<◌};

/// The first `len` bytes of the name of a number. Its node is 256 times that number, plus `len`.
#[derive(Clone, Copy)]
pub(crate) struct Prefix {
    pub(crate) name: usize,
    pub(crate) len: usize,
    ghost numbered: { 256 * name + len < 2 ^ 32 },
    ghost short: { len < 256 },
}

impl Prefix {
    /// The prefix that has one byte more of the same name.
    pub(crate) fn longer(self) -> Prefix
        requires { self.len < 255 }
        ensures name { result.name ≡ self.name }
        ensures len { result.len ≡ self.len + 1 }
    {
        Prefix {
            name: self.name,
            len: self.len + 1,
        }
    }
}

impl From<u32> for Prefix {
    ghost from_gives = { λ node prefix. (prefix.name ≡ node / 256) × (prefix.len ≡ node % 256) };

    fn from(node: u32) -> Prefix {
        Prefix {
            name: (node / 256) as usize,
            len: (node % 256) as usize,
        }
    }
}

impl From<Prefix> for u32 {
    ghost from_gives = { λ prefix node. node ≡ 256 * prefix.name + prefix.len };

    fn from(prefix: Prefix) -> u32 {
        (256 * prefix.name + prefix.len) as u32
    }
}
