//! A code with its row words.
ghost use Rattle.std.specs.Prelude.{◌≡◌};
ghost use Rattle.board_core.specs.Rows.{words_of};

/// The fields of a row, in the order of `Row`: fuel domestic and foreign, variable, unserved, worst, average and
/// the five shorts.
#[derive(Clone, Copy)]
pub struct Words {
    pub w0: u64,
    pub w1: u64,
    pub w2: u64,
    pub w3: u64,
    pub w4: u64,
    pub w5: u64,
    pub w6: u64,
    pub w7: u64,
    pub w8: u64,
    pub w9: u64,
    pub w10: u64,
}

impl Words {
    /// The eleven words as an array.
    pub fn to_array(&self) -> [u64; 11]
        ensures { result ≡ words_of self.now }
    {
        [
            self.w0, self.w1, self.w2, self.w3, self.w4, self.w5, self.w6, self.w7, self.w8,
            self.w9, self.w10,
        ]
    }
}

/// The row words of the key with this code, which is not 0.
#[derive(Clone, Copy)]
pub struct KeptRow {
    pub code: u64,
    pub words: Words,
}
