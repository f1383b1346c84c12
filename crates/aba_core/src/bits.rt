ghost use Rattle.std.specs.Prelude.{◌≡◌, ◌↔◌, true, ◌||◌};
ghost use Rattle.aba_core.specs.Bits.{holds, no_bits, with_bit};

// A set of bits.
#[derive(Clone, Copy, Debug, PartialEq, Eq)]
pub(crate) struct Bits {
    pub(crate) zero: bool,
    pub(crate) one: bool,
}

impl Bits {
    pub(crate) fn none() -> Bits
        ensures { result ≡ no_bits }
    {
        Bits {
            zero: false,
            one: false,
        }
    }

    pub(crate) fn has(self, bit: bool) -> bool
        ensures { result ≡ holds self bit }
    {
        if bit { self.one } else { self.zero }
    }

    pub(crate) fn are(self, other: Bits) -> bool
        ensures { (result ≡ true) ↔ (self ≡ other) }
    {
        self.zero == other.zero && self.one == other.one
    }

    pub(crate) fn any(self) -> bool
        ensures { result ≡ (self.zero || self.one) }
    {
        self.zero || self.one
    }

    pub(crate) fn add(&mut self, bit: bool)
        ensures { self.new ≡ with_bit self.old bit }
    {
        if bit {
            self.one = true;
        } else {
            self.zero = true;
        }
    }
}
