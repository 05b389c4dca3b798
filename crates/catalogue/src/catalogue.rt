//! An opened catalogue.
ghost use Rattle.std.specs.Prelude.{◌≡◌, false, is_some};
ghost use Rattle.catalogue.specs.Format.{file_of, ByteSized};
ghost use Rattle.catalogue.specs.Refusals.{refusal_of};

/// The bytes of a file that was accepted.
#[derive(Drop)]
pub struct Catalogue {
    pub(crate) bytes: Vec<u8>,
    ghost accepted: { is_some (refusal_of (file_of bytes.items)) ≡ false },
    ghost byte_sized: { ByteSized bytes.items },
}
