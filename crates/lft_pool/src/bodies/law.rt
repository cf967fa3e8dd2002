//! What the answers of bodies are to meet, for contracts alone.

/// One relation over reaction, tag, state word, reads and answer.
pub trait Law {
    ghost use Rattle.std.specs.Prelude.{ℕ, ℤ, List, Option};
    ghost use Rattle.lft_tag.specs.declared.Tag.{Tag};
    ghost use Rattle.lft_ir.specs.declared.parts.Value.{Value};
    ghost use Rattle.lft_pool.specs.declared.bodies.done.Done.{Done};

    ghost holds: { ℕ → Tag → ℤ → List (Option Value) → Done → Type 0 };
}

/// The law that each answer meets.
pub struct AnyAnswer;

impl Law for AnyAnswer {
    ghost holds = { λ _ _ _ _ _. Unit {0} };
}
