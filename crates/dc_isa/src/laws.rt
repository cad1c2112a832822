//! What holds of the table itself.
ghost use Rattle.std.specs.Prelude.{◌≡◌, ℕ, Some, IfSome};
ghost use Rattle.dc_isa.specs.Table.{Codes};
ghost use Rattle.dc_isa.specs.Decoded.{decoded};
ghost use Rattle.dc_isa.specs.declared.instr.Instr.{Instr as Coded};

/// A word is decoded to exactly the instruction that the table says it codes.
pub fn words_decode_by_the_table()
    ensures coded { (w : ℕ) → IfSome (decoded w) (λ i. Codes i w) }
    ensures only { (i : Coded) (w : ℕ) → Codes i w → decoded w ≡ Some i }
{}

/// No two instructions code one word.
pub fn no_two_instructions_code_one_word()
    ensures { (i j : Coded) (w : ℕ) → Codes i w → Codes j w → i ≡ j }
{}
