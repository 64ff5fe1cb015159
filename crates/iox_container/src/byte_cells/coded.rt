//! Values with an encoding of fixed size.
ghost use Rattle.std.specs.Prelude.{◌≡◌};
ghost use Rattle.iox_container.specs.Encoding.{Encoding, byte, two_bytes, four_bytes, eight_bytes, sixteen_bytes};

/// A value that is copied as the `SIZE` bytes of its encoding. Decoding the encoding of a value gives the value back.
///
/// New in this port: iceoryx2 copies the bytes of any `AtomicCopy` type, and this port copies the bytes of the value's encoding.
pub trait Coded<const SIZE: usize>: Copy {
    // how a value is encoded as bytes
    ghost encoding: { Encoding Self };

    /// The encoding of the value.
    fn to_bytes(&self) -> [u8; SIZE]
        ensures bytes { result ≡ encoding.bytes_of self.now }
        ensures value { encoding.is_value self.now };

    /// The value that these bytes encode, or any value if they aren't an encoding.
    fn of_bytes(bytes: &[u8; SIZE]) -> Self
        ensures { result ≡ encoding.value_of bytes.now };
}

/// Encoded as the byte itself.
impl Coded<1> for u8 {
    ghost encoding = { byte };

    fn to_bytes(&self) -> [u8; 1] {
        [*self]
    }

    fn of_bytes(bytes: &[u8; 1]) -> u8 {
        bytes[0]
    }
}

/// Encoded with the lowest byte first.
impl Coded<2> for u16 {
    ghost encoding = { two_bytes };

    fn to_bytes(&self) -> [u8; 2] {
        u16::to_le_bytes(*self)
    }

    fn of_bytes(bytes: &[u8; 2]) -> u16 {
        u16::from_le_bytes(*bytes)
    }
}

/// Encoded with the lowest byte first.
impl Coded<4> for u32 {
    ghost encoding = { four_bytes };

    fn to_bytes(&self) -> [u8; 4] {
        u32::to_le_bytes(*self)
    }

    fn of_bytes(bytes: &[u8; 4]) -> u32 {
        u32::from_le_bytes(*bytes)
    }
}

/// Encoded with the lowest byte first.
impl Coded<8> for u64 {
    ghost encoding = { eight_bytes };

    fn to_bytes(&self) -> [u8; 8] {
        u64::to_le_bytes(*self)
    }

    fn of_bytes(bytes: &[u8; 8]) -> u64 {
        u64::from_le_bytes(*bytes)
    }
}

/// Encoded with the lowest byte first, as 8 bytes.
impl Coded<8> for usize {
    ghost encoding = { eight_bytes };

    fn to_bytes(&self) -> [u8; 8] {
        usize::to_le_bytes(*self)
    }

    fn of_bytes(bytes: &[u8; 8]) -> usize {
        usize::from_le_bytes(*bytes)
    }
}

/// Encoded with the lowest byte first.
impl Coded<16> for u128 {
    ghost encoding = { sixteen_bytes };

    fn to_bytes(&self) -> [u8; 16] {
        let value = *self;
        let mut bytes = [0; 16];
        bytes[..8].copy_from_slice(&((value % 0x1_0000_0000_0000_0000) as u64).to_le_bytes());
        bytes[8..].copy_from_slice(&((value / 0x1_0000_0000_0000_0000) as u64).to_le_bytes());
        bytes
    }

    fn of_bytes(bytes: &[u8; 16]) -> u128 {
        let mut low = [0; 8];
        low.copy_from_slice(&bytes[..8]);
        let mut high = [0; 8];
        high.copy_from_slice(&bytes[8..]);
        u128::from(u64::from_le_bytes(low))
            + 0x1_0000_0000_0000_0000 * u128::from(u64::from_le_bytes(high))
    }
}
