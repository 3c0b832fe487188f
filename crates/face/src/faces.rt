ghost use Rattle.std.specs.Prelude.{◌≡◌, ℕ, ◌≤◌, Option as Maybe};
ghost use Rattle.face.specs.Bounds.{LARGEST as the_largest, Bounded};
ghost use Rattle.face.specs.Finding.{told};
ghost use Rattle.face.specs.Meaning.{Meaning, looked, variant_at, part_at};
ghost use Rattle.face.specs.declared.keys.Key.{Key as TheKey};
ghost use Rattle.face.specs.declared.parts.Part.{Part as ThePart};
ghost use Rattle.face.specs.declared.variants.Variant.{Variant as TheVariant};

use crate::faults::Fault;
use crate::keys::Key;
use crate::looks::Look;
use crate::parts::Part;
use crate::variants::Variant;

// What a font offers for stretching signs. Questions change nothing, and repeated they answer alike.
// Variants and parts have a question each: one over both kinds would need each face's way to read them in their trait.
pub trait Face {
    // Each key is unknown, has a fault, or has a construction.
    ghost meaning: { Self → TheKey → Meaning };

    // What was found for a key: its entries are told by it, and the key is not searched for again.
    type Found: Copy;

    // The entries that are told by what was found, at each index.
    ghost variants: { Self → Self.Found → ℕ → Maybe TheVariant };

    ghost parts: { Self → Self.Found → ℕ → Maybe ThePart };

    // No length of any key is above this.
    ghost reach: { Self → ℕ };

    // Lengths and lists are bounded: each implementation gives the proofs.
    ghost largest: { (face : Self) → reach face ≤ the_largest };

    ghost bounded: { (face : Self) (key : TheKey) → Bounded (reach face) (meaning face key) };

    // Which of the three it is, with the fault, or with what a construction has besides its entries.
    fn look(&self, key: Key) -> Result<Option<Look>, Fault>
        ensures { result ≡ looked (meaning self.now key) };

    // The variant at an index, counted from 0.
    fn variant(&self, key: Key, index: u16) -> Option<Variant>
        ensures { result ≡ variant_at (meaning self.now key) index }
    {
        self.variant_of(self.find(key)?, index)
    }

    // The part at an index, counted from 0.
    fn part(&self, key: Key, index: u16) -> Option<Part>
        ensures { result ≡ part_at (meaning self.now key) index }
    {
        self.part_of(self.find(key)?, index)
    }

    // What the key's entries are told by, if it has any.
    fn find(&self, key: Key) -> Option<Self::Found>
        ensures variants { (i : ℕ) → variant_at (meaning self.now key) i ≡ told (variants self.now) i result }
        ensures parts { (i : ℕ) → part_at (meaning self.now key) i ≡ told (parts self.now) i result };

    // The variant at an index of what was found.
    fn variant_of(&self, found: Self::Found, index: u16) -> Option<Variant>
        ensures { result ≡ variants self.now found index };

    // The part at an index of what was found.
    fn part_of(&self, found: Self::Found, index: u16) -> Option<Part>
        ensures { result ≡ parts self.now found index };

    // A length that no length of any key is above, told without reading an entry.
    fn longest(&self) -> u32
        ensures { result ≡ reach self.now };
}
