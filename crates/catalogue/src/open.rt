//! Opening a file, and its bytes.
ghost use Rattle.std.specs.Prelude.{◌≡◌, true, false, ◌↔◌, is_ok, is_some, IfOk, Some};
ghost use Rattle.std.specs.Result.{result_err};
ghost use Rattle.catalogue.specs.Format.{file_of};
ghost use Rattle.catalogue.specs.Refusals.{refusal_of};
ghost use Rattle.catalogue.specs.WellFormed.{WellFormed, Refused};
ghost use Rattle.catalogue.specs.Tables.{table_of, AnswersBytes};

use super::catalogue::Catalogue;
use super::checking::check;
use super::refusal::Refusal;

impl Catalogue {
    /// The file as a graph, or its first refusal.
    /// The table in the clauses is the one by which the catalogue answers as a graph.
    pub fn open(bytes: Vec<u8>) -> Result<Catalogue, Refusal>
        ensures answer { result_err result ≡ refusal_of (file_of bytes.items) }
        ensures accepted { (is_ok result ≡ true) ↔ WellFormed (file_of bytes.items) }
        ensures refused { (e : Refusal) → (result_err result ≡ Some e) ↔ Refused (file_of bytes.items) e }
        ensures bytes_kept { IfOk result (λ c. c.bytes.items ≡ bytes.items) }
        ensures answers_bytes { IfOk result (λ c. AnswersBytes bytes.items (table_of (file_of c.bytes.items))) }
    {
        check(bytes.as_slice())?;
        Ok(Catalogue::accepted(bytes))
    }

    /// The catalogue of a file that has no refusal.
    // Apart from `open`, so that other bytes than these are refused here and not in a proof.
    fn accepted(bytes: Vec<u8>) -> Catalogue
        requires { is_some (refusal_of (file_of bytes.items)) ≡ false }
        ensures { result.bytes.items ≡ bytes.items }
    {
        Catalogue { bytes }
    }

    /// The bytes of the file.
    pub fn bytes(&self) -> &[u8]
        ensures answer { result.now ≡ self.now.bytes.items }
    {
        self.bytes.as_slice()
    }

    /// The bytes of the file, handed back.
    pub fn into_bytes(self) -> Vec<u8>
        ensures answer { result.items ≡ self.bytes.items }
    {
        let Catalogue { bytes } = self;
        bytes
    }
}
