//! Laws of the grammar, for every text.

ghost use Rattle.std.specs.Prelude.{◌≡◌, ℕ, List};
ghost use Rattle.sip_uri.specs.declared.uri.Uri.{Uri};
ghost use Rattle.sip_uri.specs.declared.uri.NameAddr.{NameAddr};
ghost use Rattle.sip_uri.specs.Grammar.{ReadsUri};
ghost use Rattle.sip_uri.specs.NameAddr.{ReadsNameAddr};
ghost use Rattle.sip_uri.specs.Binding.{SameBinding};

/// A text has at most one value.
pub fn one_value()
    ensures uri { (text : List ℕ) (a b : Uri) → ReadsUri text a → ReadsUri text b → a ≡ b }
    ensures name { (text : List ℕ) (a b : NameAddr) → ReadsNameAddr text a → ReadsNameAddr text b → a ≡ b }
{}

/// Being one binding is an equivalence.
pub fn binding_is_equivalence()
    ensures reflexive { (a : Uri) → SameBinding a a }
    ensures symmetric { (a b : Uri) → SameBinding a b → SameBinding b a }
    ensures transitive { (a b c : Uri) → SameBinding a b → SameBinding b c → SameBinding a c }
{}
