// Document 01, 'Frames' and 'Listing program': marks, numbers big-endian, words in two's complement. A byte past a slice's end counts as 0.
ghost use Rattle.std.specs.Prelude.{◌≡◌};
ghost use Rattle.ground.specs.Bytes.{byte, starts, be16, be32, bits32, signed32};

// Whether a slice begins with a mark.
#[tactic(auto, unfolding(crate::specs::Bytes::starts))]
pub fn starts_with(s: &[u8], mark: &[u8; 3]) -> bool
    ensures { result ≡ starts s.now mark.now }
{
    s.starts_with(mark)
}

pub fn byte_at(s: &[u8], at: usize) -> u8
    ensures { result ≡ byte s.now at }
{
    s.get(at).copied().unwrap_or(0)
}

#[tactic(auto, unfolding(crate::specs::Bytes::be16))]
pub fn get16(s: &[u8], at: usize) -> u16
    ensures { result ≡ be16 s.now at }
{
    if s.len() <= at {
        return 0;
    }
    u16::from_be_bytes([byte_at(s, at), byte_at(s, at + 1)])
}

#[tactic(auto, unfolding(crate::specs::Bytes::be32, crate::specs::Bytes::be16))]
pub fn get32(s: &[u8], at: usize) -> u32
    ensures { result ≡ be32 s.now at }
{
    if s.len() <= at {
        return 0;
    }
    u32::from_be_bytes([
        byte_at(s, at),
        byte_at(s, at + 1),
        byte_at(s, at + 2),
        byte_at(s, at + 3),
    ])
}

// The word that 32 bits carry.
#[tactic(auto, using(crate::proofs::Twos::signed_is))]
pub fn from_bits(v: u32) -> i32
    ensures { result ≡ signed32 v }
{
    v.cast_signed()
}

#[tactic(auto, using(crate::proofs::Twos::bits_is))]
pub fn to_bits(x: i32) -> u32
    ensures { result ≡ bits32 x }
{
    x.cast_unsigned()
}
