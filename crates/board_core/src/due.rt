//! Which row words are due for a code.
ghost use Rattle.std.specs.Prelude.{ℕ};
ghost use Rattle.board_core.specs.declared.row.Words.{Words};

/// What a value means as a table of due rows: for each code its eleven words. It has no call, since nothing is
/// looked up when the program runs.
pub trait Due: Copy + Send + Sync {
    ghost due: { Self → ℕ → Words };
}
