//! Bytes of a code that are still to be read, and the numbers at their front.

ghost use Rattle.std.specs.Prelude.{◌≡◌, ◌∷◌, ◌++◌, length, Some, IfOk, IfErr};
ghost use Rattle.m5_bytecode.specs.Spelling.{two, four};
ghost use Rattle.m5_bytecode.specs.code.Reading.{Refuses, take_in, byte_in, two_in, four_in};

use std::alloc::AllocError;

/// Why no code was read.
#[derive(Clone, Copy, PartialEq, Eq, Debug, Drop)]
pub enum CodeEnd {
    /// No code has these bytes.
    Bad,
    Memory,
}

impl From<AllocError> for CodeEnd {
    ghost use Rattle.std.specs.Prelude.{◌≡◌};
    ghost use Rattle.m5_bytecode.specs.declared.input.CodeEnd.TheVariants.{Memory};

    ghost from_gives = { λ _ e. e ≡ Memory };

    fn from(_error: AllocError) -> CodeEnd {
        CodeEnd::Memory
    }
}

/// What is still to be read.
#[derive(Clone, Copy)]
pub(crate) struct Input<'a> {
    pub(crate) rest: &'a [u8],
}

impl<'a> Input<'a> {
    /// So many bytes.
    pub(crate) fn take(&mut self, count: usize) -> Result<&'a [u8], CodeEnd>
        ensures ok { IfOk result (λ xs. take_in count self.old.rest.now ≡ Some (xs.now, self.new.rest.now)) }
        ensures spelled { IfOk result (λ xs. self.old.rest.now ≡ xs.now ++ self.new.rest.now) }
        ensures count { IfOk result (λ xs. length xs.now ≡ count) }
        ensures err { IfErr result (λ e. Refuses e (take_in count self.old.rest.now)) }
    {
        if self.rest.len() < count {
            return Err(CodeEnd::Bad);
        }
        let (front, rest) = self.rest.split_at(count);
        self.rest = rest;
        Ok(front)
    }

    /// The next byte.
    pub(crate) fn byte(&mut self) -> Result<u8, CodeEnd>
        ensures ok { IfOk result (λ x. byte_in self.old.rest.now ≡ Some (x, self.new.rest.now)) }
        ensures spelled { IfOk result (λ x. self.old.rest.now ≡ x ∷ self.new.rest.now) }
        ensures err { IfErr result (λ e. Refuses e (byte_in self.old.rest.now)) }
    {
        if self.rest.is_empty() {
            return Err(CodeEnd::Bad);
        }
        let byte = self.rest[0];
        self.rest = &self.rest[1..];
        Ok(byte)
    }

    /// The next number of two bytes.
    pub(crate) fn two(&mut self) -> Result<u16, CodeEnd>
        ensures ok { IfOk result (λ n. two_in self.old.rest.now ≡ Some (n, self.new.rest.now)) }
        ensures spelled { IfOk result (λ n. self.old.rest.now ≡ two n ++ self.new.rest.now) }
        ensures err { IfErr result (λ e. Refuses e (two_in self.old.rest.now)) }
    {
        let bytes = self.take(2)?;
        Ok(u16::from_be_bytes([bytes[0], bytes[1]]))
    }

    /// The next number of four bytes.
    pub(crate) fn four(&mut self) -> Result<u32, CodeEnd>
        ensures ok { IfOk result (λ n. four_in self.old.rest.now ≡ Some (n, self.new.rest.now)) }
        ensures spelled { IfOk result (λ n. self.old.rest.now ≡ four n ++ self.new.rest.now) }
        ensures err { IfErr result (λ e. Refuses e (four_in self.old.rest.now)) }
    {
        let bytes = self.take(4)?;
        Ok(u32::from_be_bytes([bytes[0], bytes[1], bytes[2], bytes[3]]))
    }
}
