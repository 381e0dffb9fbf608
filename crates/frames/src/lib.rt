// Document 01, 'Frames': a frame read and written.

#![tactic(auto)]

ghost use Rattle.std.specs.Prelude.{◌≡◌, length};
ghost use Rattle.ground.specs.Checks.{verdict};
ghost use Rattle.ground.specs.Answer.{outcome, refusal_of, of_result};
ghost use Rattle.frames.specs.Frame.{frame_of, bytes_of, relay_formed, well_formed};
ghost use Rattle.frames.specs.Asked.{read_checks, read_asked, write_asked};

use ground::refusal::Refusal;
use ground::{bytes, refusal};

const MARK: [u8; 3] = *b"OMH";

const VERSION: u16 = 1;

const LAST_CARD: u8 = 9;

const LAST_LEVEL: u8 = 3;

// The byte of a relay that the level does not use.
const UNUSED: u8 = 255;

// A frame's fields as they lie in the frame.
#[derive(Debug, Clone, Copy, PartialEq, Eq)]
pub struct Frame {
    pub exchange: u16,
    pub sender: u8,
    pub level: u8,
    pub q1: u8,
    pub q2: u8,
    pub q3: u8,
    pub receiver: u8,
    pub word: i32,
}

impl Frame {
    // A frame's bytes.
    pub const SIZE: usize = 17;
}

// A relay at its place, from 1.
#[tactic(auto, unfolding(crate::specs::Frame::relay_formed))]
fn relay_formed(level: u8, place: u8, q: u8) -> bool
    ensures { result ≡ relay_formed level place q }
{
    if place <= level {
        q <= LAST_CARD
    } else {
        q == UNUSED
    }
}

// All is looked at: no branch.
#[tactic(auto, unfolding(crate::specs::Frame::well_formed))]
fn well_formed(f: Frame) -> bool
    ensures { result ≡ well_formed f }
{
    (f.sender <= LAST_CARD)
        & (f.receiver <= LAST_CARD)
        & (f.level <= LAST_LEVEL)
        & relay_formed(f.level, 1, f.q1)
        & relay_formed(f.level, 2, f.q2)
        & relay_formed(f.level, 3, f.q3)
}

// The fields of bytes, whether or not they are a frame.
#[tactic(auto, unfolding(crate::specs::Frame::frame_of))]
pub fn frame_of(s: &[u8]) -> Frame
    ensures { result ≡ frame_of s.now }
{
    Frame {
        exchange: bytes::get16(s, 5),
        sender: bytes::byte_at(s, 7),
        level: bytes::byte_at(s, 8),
        q1: bytes::byte_at(s, 9),
        q2: bytes::byte_at(s, 10),
        q3: bytes::byte_at(s, 11),
        receiver: bytes::byte_at(s, 12),
        word: bytes::from_bits(bytes::get32(s, 13)),
    }
}

// Whether bytes that are read as a frame are refused.
pub fn refused(s: &[u8]) -> Result<(), Refusal>
    ensures { refusal_of result ≡ verdict (read_checks s.now) }
{
    refusal::when(s.len() != Frame::SIZE, Refusal::Size)?;
    refusal::when(!bytes::starts_with(s, &MARK), Refusal::Mark)?;
    refusal::when(bytes::get16(s, 3) != VERSION, Refusal::Version)?;
    refusal::when(!well_formed(frame_of(s)), Refusal::Form)
}

// The record that a frame carries.
pub fn read(bytes: &[u8]) -> Result<Frame, Refusal>
    ensures { of_result result ≡ read_asked bytes.now }
{
    refused(bytes)?;
    Ok(frame_of(bytes))
}

// The bytes that carry a record.
#[tactic(auto, unfolding(crate::specs::Frame::bytes_of, ground::specs::Bytes::bytes16, ground::specs::Bytes::bytes32))]
fn bytes_of(f: Frame) -> [u8; Frame::SIZE]
    ensures { result ≡ bytes_of f }
{
    let version = VERSION.to_be_bytes();
    let exchange = f.exchange.to_be_bytes();
    let word = bytes::to_bits(f.word).to_be_bytes();
    [
        MARK[0],
        MARK[1],
        MARK[2],
        version[0],
        version[1],
        exchange[0],
        exchange[1],
        f.sender,
        f.level,
        f.q1,
        f.q2,
        f.q3,
        f.receiver,
        word[0],
        word[1],
        word[2],
        word[3],
    ]
}

// Puts a record's bytes in the buffer.
fn put(frame: Frame, buffer: &mut [u8])
    requires { length buffer.old ≡ 17 }
    ensures { buffer.new ≡ bytes_of frame }
{
    buffer.copy_from_slice(&bytes_of(frame));
}

pub fn write(frame: Frame, buffer: &mut [u8]) -> Result<(), Refusal>
    ensures { outcome (of_result result) buffer.new ≡ write_asked frame buffer.old }
{
    refusal::when(buffer.len() != Frame::SIZE, Refusal::Long)?;
    refusal::when(!well_formed(frame), Refusal::Form)?;
    put(frame, buffer);
    Ok(())
}
