ghost use Rattle.std.specs.Prelude.{◌≡◌, ◌+◌, ◌*◌, ◌≤◌, [], ◌++◌, length, decimal};
ghost use Rattle.hex.specs.Hex.{encode_lower};

use arrayvec::ArrayVec;
use itoa::Buffer;
use std::marker::Model;

/// A line that is being put together, at most 640 bytes. It takes no memory. Clauses see it as the list of its bytes.
#[derive(Drop)]
pub struct Line {
    bytes: ArrayVec<u8, 640>,
}

impl Model for Line {
    ghost use Rattle.std.specs.Prelude.{ℕ, List};

    ghost Value = { List ℕ };

    ghost view = { λ line. line.bytes.items };
}

impl Line {
    /// An empty line.
    pub fn new() -> Line
        ensures value { result ≡ [] }
        ensures len { length result ≡ 0 }
    {
        Line {
            bytes: ArrayVec::new(),
        }
    }

    /// Appends a text. There must be room.
    pub fn text(&mut self, text: &str)
        requires { length self.old + length text.now ≤ 640 }
        ensures value { self.new ≡ self.old ++ text.now }
        ensures len { length self.new ≡ length self.old + length text.now }
    {
        self.append(text.as_bytes())
    }

    /// Appends a number in decimal. There must be room for 20 digits.
    pub fn number(&mut self, number: u64)
        requires { length self.old + 20 ≤ 640 }
        ensures value { self.new ≡ self.old ++ decimal number }
        ensures len { length self.new ≤ length self.old + 20 }
    {
        let mut buffer = Buffer::new();
        self.append(buffer.format(number).as_bytes())
    }

    /// Appends bytes in lower-case hex. There must be room.
    pub fn hex(&mut self, bytes: &[u8])
        requires short { length bytes.now ≤ 256 }
        requires room { length self.old + 2 * length bytes.now ≤ 640 }
        ensures value { self.new ≡ self.old ++ encode_lower bytes.now }
        ensures len { length self.new ≡ length self.old + 2 * length bytes.now }
    {
        let mut digits = [0u8; 512];
        let digits = &mut digits[..2 * bytes.len()];
        let _fits = hex::encode_to_slice(bytes, digits);
        self.append(digits)
    }

    /// The line.
    pub fn as_slice(&self) -> &[u8]
        ensures { result.now ≡ self.now }
    {
        self.bytes.as_slice()
    }

    fn append(&mut self, bytes: &[u8])
        requires { length self.old + length bytes.now ≤ 640 }
        ensures value { self.new ≡ self.old ++ bytes.now }
        ensures len { length self.new ≡ length self.old + length bytes.now }
    {
        let _fits = self.bytes.try_extend_from_slice(bytes);
    }
}
