ghost use Rattle.std.specs.Prelude.{◌≡◌, ◌<◌, ◌*◌, ℕ, List, Option, length, OnOk, IfErr, IfSome, slice_index, slice_set};
ghost use Rattle.dc_media.specs.Told.{Becomes};
ghost use Rattle.dc_words.specs.Words.{masked};

/// A memory of words, lowest byte first, whose stores may be refused.
///
/// It may stand on a store and the device of that: `made` and `refused` name all that a store does there.
pub trait Bus {
    /// Why a store was refused.
    type Stop;

    /// The words of the memory, from address 0, where they are told.
    ghost told: { Self → Option (List ℕ) };

    /// How many words the memory has, told or not.
    ghost count: { Self → ℕ };

    /// It may be read and written. A refused store may end this.
    ghost live: { Self → Type 0 };

    /// What a store to that word leaves of all that the memory stands on.
    ghost made: { Self → ℕ → Self → Type 0 };

    /// What a refused store to that word leaves, and why it was refused.
    ghost refused: { Self → ℕ → Self → Self.Stop → Type 0 };

    /// How many bytes the memory has.
    fn size(&self) -> u32
        requires { live self.now }
        ensures { result ≡ 4 * count self.now };

    /// The word at an index.
    fn load(&self, i: u32) -> u32
        requires at { i < count self.now }
        requires live { live self.now }
        ensures { IfSome (told self.now) (λ words. result ≡ slice_index words i) };

    /// Sets the bits of a word that the mask has.
    fn store(&mut self, i: u32, w: u32, mask: u32) -> Result<(), Self::Stop>
        requires at { i < count self.old }
        requires live { live self.old }
        ensures stored { OnOk result (Becomes (told self.old) (told self.new) (λ before after. after ≡ slice_set before i (masked (slice_index before i) w mask))) }
        ensures count { count self.new ≡ count self.old }
        ensures live { OnOk result (live self.new) }
        ensures made { OnOk result (made self.old i self.new) }
        ensures refused { IfErr result (λ why. refused self.old i self.new why) };

    /// What is told of a live memory has its size.
    ghost told_long: { (b : Self) → live b → IfSome (told b) (λ words. length words ≡ count b) };
}
