ghost use Rattle.std.specs.Prelude.{◌≡◌, Ok, Err, Some, None, [], List, ℕ};
ghost use Rattle.ap_tokens.specs.declared.token.Kind.{Kind};
ghost use Rattle.ap_tokens.specs.declared.token.TokenFault.{TokenFault};
ghost use Rattle.ap_tokens.specs.Gaps.{At};
ghost use Rattle.ap_tokens.specs.Grammar.{Between};
ghost use Rattle.ap_tokens.specs.Tokens.{Seen, next_of};
ghost use Rattle.ap_tokens.specs.Laws.{Found, Stands, Answered, Faulty};

/// What holds of the next token, whatever the text. The token that is answered is the grammar's: only
/// blanks and whole comments lie before it, its bytes are a slice of the text, and places rise. The
/// token that the grammar has is answered. There is none exactly where only blanks and whole comments
/// are left. A fault is at the first byte that isn't in a blank or a whole comment, it says what is
/// wrong there, and the grammar has no token there.
pub fn next_law()
    ensures found { (a b : At) (s : Seen) → next_of a ≡ Ok (Some (s, b)) → Found a s b }
    ensures only { (a : At) (k : Kind) (t u : List ℕ) → Stands a k t u → Answered a k u }
    ensures none { (a : At) → next_of a ≡ Ok None → Between a.rest [] }
    ensures only_none { (a : At) → Between a.rest [] → next_of a ≡ Ok None }
    ensures fault { (a : At) (f : TokenFault) → next_of a ≡ Err f → Faulty a.place a.rest f }
    ensures no_token { (a : At) (f : TokenFault) (k : Kind) (t u : List ℕ) → next_of a ≡ Err f → Stands a k t u → ⊥ }
{}
