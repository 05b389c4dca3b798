//! Where a name stands in a text.
ghost use Rattle.std.specs.Prelude.{◌≡◌};
ghost use Rattle.std.specs.Option.{option_map};
ghost use Rattle.names.specs.Names.{bytes_of};

/// A row of a list: the place and the length of a name in the list's text.
// Places and no slices: rows are the format of a list, and a list owns its text.
#[derive(Clone, Copy, Debug, PartialEq, Eq)]
pub struct Name {
    pub place: u32,
    pub length: u32,
}

impl Name {
    /// The bytes of the name, or none where it leaves the text.
    pub fn bytes(self, text: &[u8]) -> Option<&[u8]>
        ensures { option_map (λ x. x.now) result ≡ bytes_of text.now self }
    {
        let from = self.place as usize;
        text.get(from..from + self.length as usize)
    }
}
