//! Lines that are drawn from a seed.
use std::alloc::{AllocError, Global};

/// Pseudorandom numbers from a seed, each made from the one before.
#[derive(Drop)]
struct Draw {
    state: u64,
}

impl Draw {
    fn new(seed: u64) -> Draw {
        Draw { state: seed }
    }

    /// The next number, below `end`.
    fn below(&mut self, end: u64) -> u64 {
        self.state = self
            .state
            .wrapping_mul(6364136223846793005)
            .wrapping_add(1442695040888963407);
        (self.state >> 33) % end.max(1)
    }

    /// A digit below `end`, smaller ones more often.
    fn digit(&mut self, end: u64) -> u8 {
        let most = self.below(end).saturating_add(1);
        b'0' + (self.below(most) % 10) as u8
    }
}

/// What a line begins with, how many numbers follow, and how many digits of data (two a byte) after them. Each row is drawn as often as any
/// other: a message that has more rows comes more often.
const KINDS: [(&[u8], usize, usize); 20] = [
    (b"makevol", 2, 0),
    (b"dropvol", 2, 0),
    (b"create", 3, 0),
    (b"create", 3, 0),
    (b"create", 3, 0),
    (b"delete", 3, 0),
    (b"seal", 2, 0),
    (b"unseal", 2, 0),
    (b"unseal", 2, 0),
    (b"write", 4, 2),
    (b"write", 4, 2),
    (b"write", 4, 64),
    (b"punch", 4, 0),
    (b"read", 4, 0),
    (b"read", 4, 0),
    (b"list", 2, 0),
    (b"usage", 2, 0),
    (b"summary", 0, 0),
    (b"setlabel", 2, 2),
    (b"label", 2, 0),
];

/// Adds one line. Its numbers are digits below `end`. One line of 32, on average, ends in a blank, so it is no message.
fn add_line(draw: &mut Draw, end: u64, lines: &mut Vec<u8>) -> Result<(), AllocError> {
    let kind = draw.below(20) as usize;
    let (word, numbers, digits) = KINDS[kind % KINDS.len()];
    lines.extend_from_slice(word)?;
    for _ in 0..numbers {
        lines.push(b' ')?;
        lines.push(draw.digit(end))?;
    }
    if digits > 0 {
        lines.push(b' ')?;
    }
    for _ in 0..digits {
        lines.push(draw.digit(10))?;
    }
    if draw.below(32) == 0 {
        lines.push(b' ')?;
    }
    lines.push(b'\n')?;
    Ok(())
}

/// `count` lines whose numbers are digits below `end`, after three that make a volume with two files.
pub(crate) fn draw_lines(
    alloc: Global,
    seed: u64,
    end: u64,
    count: usize,
) -> Result<Vec<u8>, AllocError> {
    let mut draw = Draw::new(seed);
    let mut lines = Vec::new(alloc);
    lines.extend_from_slice(b"makevol 0 0\ncreate 0 0 0\ncreate 0 0 1\n")?;
    for _ in 0..count {
        add_line(&mut draw, end, &mut lines)?;
    }
    Ok(lines)
}
