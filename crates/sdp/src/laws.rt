//! Laws of the grammar, for every text.

ghost use Rattle.std.specs.Prelude.{◌≡◌, ℕ, List};
ghost use Rattle.sdp.specs.declared.description.Description.{Description};
ghost use Rattle.sdp.specs.Grammar.{ReadsDescription};

/// The same bytes are never two descriptions.
pub fn one_description()
    ensures { (text : List ℕ) (a b : Description) → ReadsDescription text a → ReadsDescription text b → a ≡ b }
{}
