//! Laws of JSON in UTF-8; nothing runs.
ghost use Rattle.std.specs.Prelude.{ℕ, List, IfSome, IsUtf8};
ghost use Rattle.serde_json.specs.Read.{read};
ghost use Rattle.yp_utf8.specs.Utf8.{HasUtf8};

/// The strings of the JSON that a UTF-8 text is are UTF-8, also those with escapes (RFC 8259 section 7).
#[tactic(auto, using(crate::proofs::Tokens::read_utf8))]
pub fn a_read_text_has_utf8()
    ensures { (text : List ℕ) → IsUtf8 text → IfSome (read text) HasUtf8 }
{}
