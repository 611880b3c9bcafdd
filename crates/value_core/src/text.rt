ghost use Rattle.std.specs.Prelude.{◌≡◌, [], ◌∷◌, ◌++◌, IfOk, OnOk, OnErr, MatchResult};
ghost use Rattle.value_core.specs.Bytes.{bytes_of};

use crate::Shared;
use arrayvec::ArrayVec;
use std::alloc::{AllocError, Global};
use std::marker::Model;

/// A list of bytes, which contracts see. Up to 16 bytes lie in the text itself; the copies of a longer one share its bytes.
pub struct Text {
    alloc: Global,
    bytes: Bytes,
}

/// Where the bytes of a text are.
#[derive(Drop)]
pub enum Bytes {
    Short(ArrayVec<u8, 16>),
    Long(Shared<u8>),
}

impl Model for Text {
    ghost use Rattle.std.specs.Prelude.{ℕ, List};
    ghost use Rattle.value_core.specs.Bytes.{bytes_of};

    ghost Value = { List ℕ };

    ghost view = { λ t. bytes_of t.bytes };
}

impl Drop for Text {
    fn drop(self) {
        let Text {
            alloc: _alloc,
            bytes: _bytes,
        } = self;
    }
}

impl Text {
    /// The empty text. It takes no memory.
    pub fn new(alloc: Global) -> Self
        ensures { result ≡ [] }
    {
        Text {
            alloc,
            bytes: Bytes::Short(ArrayVec::new()),
        }
    }

    /// The text of these bytes.
    pub fn from_bytes(alloc: Global, bytes: &[u8]) -> Result<Self, AllocError>
        ensures { IfOk result (λ text. text ≡ bytes.now) }
    {
        let mut text = Text::new(alloc);
        text.extend(bytes)?;
        Ok(text)
    }

    /// An equal text.
    pub fn copy(&self, alloc: Global) -> Result<Self, AllocError>
        ensures { IfOk result (λ text. text ≡ self.now) }
    {
        match &self.bytes {
            Bytes::Short(bytes) => Text::from_bytes(alloc, bytes.as_slice()),
            Bytes::Long(bytes) => Ok(Text {
                alloc,
                bytes: Bytes::Long(bytes.copy()?),
            }),
        }
    }

    /// The bytes in order.
    pub fn items(&self) -> &[u8]
        ensures { result.now ≡ self.now }
    {
        match &self.bytes {
            Bytes::Short(bytes) => bytes.as_slice(),
            Bytes::Long(bytes) => bytes.items(),
        }
    }

    /// Appends the byte. For want of memory it hands the byte back, and the text stays.
    pub fn push(&mut self, byte: u8) -> Result<(), u8>
        ensures { MatchResult result (λ _. self.new ≡ self.old ++ byte ∷ []) (λ back. (self.new ≡ self.old) × (back ≡ byte)) }
    {
        self.extend(&[byte]).map_err(|_| byte)
    }

    /// Appends these bytes, in their order. For want of memory the text stays. No text that shares its bytes changes.
    pub fn extend(&mut self, bytes: &[u8]) -> Result<(), AllocError>
        ensures ok { OnOk result (self.new ≡ self.old ++ bytes.now) }
        ensures err { OnErr result (self.new ≡ self.old) }
    {
        match &mut self.bytes {
            Bytes::Short(short) => {
                if short.try_extend_from_slice(bytes).is_ok() {
                    return Ok(());
                }
            }
            Bytes::Long(long) => return long.extend(bytes),
        }
        self.lengthen(bytes)
    }

    // Appends these bytes to a copy of the others that further copies share.
    fn lengthen(&mut self, bytes: &[u8]) -> Result<(), AllocError>
        ensures ok { OnOk result (self.new ≡ self.old ++ bytes.now) }
        ensures err { OnErr result (self.new ≡ self.old) }
    {
        let mut long = Shared::new(self.alloc);
        long.reserve(self.items().len().saturating_add(bytes.len()))?;
        long.extend(self.items())?;
        long.extend(bytes)?;
        self.bytes = Bytes::Long(long);
        Ok(())
    }
}
