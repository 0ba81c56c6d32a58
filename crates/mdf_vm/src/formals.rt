ghost use Rattle.std.specs.Prelude.{◌≡◌, ℕ, ℤ, List, Some};
ghost use Rattle.mdf_vm.specs.GuardFormals.{word_of};

/// The words of a member's formals.
pub trait Formals {
    ghost words: { Self → List (List ℤ) };

    /// A word of a formal, from 0.
    fn word(&self, formal: u32, at: u32) -> i64
        requires { (word : ℤ) × (word_of (words self.now) formal at ≡ Some word) }
        ensures { word_of (words self.now) formal at ≡ Some result };
}
