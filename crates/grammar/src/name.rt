ghost use Rattle.std.specs.Prelude.{◌≡◌, ℕ, true, ◌↔◌, List};
ghost use Rattle.grammar.specs.Names.{same, stored, Decoded};

/// A name has at most so many decoded bytes.
pub const NAME_BYTES: usize = 12;

/// A name as it is stored: its decoded bytes, and zeros up to twelve.
#[derive(Clone, Copy, PartialEq, Eq)]
pub struct Name {
    bytes: [u8; NAME_BYTES],
}

/// A name and the place in the line where it stands.
#[derive(Clone, Copy)]
pub struct Named {
    pub place: usize,
    pub name: Name,
}

impl Name {
    /// The name that is stored so.
    pub fn new(bytes: [u8; NAME_BYTES]) -> Self
        ensures { result.bytes ≡ bytes }
    {
        Name { bytes }
    }

    /// Its twelve bytes.
    pub fn bytes(&self) -> &[u8]
        ensures { result.now ≡ self.now.bytes }
    {
        &self.bytes
    }

    /// Whether it is the same name: the one test of names. It says so exactly when the decoded bytes are equal.
    #[tactic(auto, using(crate::proofs::Padding::same_stored))]
    pub fn is(&self, other: &Name) -> bool
        ensures value { result ≡ same self.now.bytes other.now.bytes }
        ensures decoded { (n m : List ℕ) → Decoded n → Decoded m → self.now ≡ stored n → other.now ≡ stored m → (result ≡ true) ↔ (n ≡ m) }
    {
        self.bytes() == other.bytes()
    }
}
