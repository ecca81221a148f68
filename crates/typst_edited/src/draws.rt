//! Numbers that seem to be drawn by lot, the same in each run.

/// What is drawn next.
#[derive(Drop)]
pub struct Draws {
    state: Option<u32>,
}

impl Draws {
    /// The draws of a first number; of 0 always the middle.
    pub fn new(first: u32) -> Draws {
        Draws {
            state: if first == 0 { None } else { Some(first) },
        }
    }

    /// A number below the bound, or 0 where that is 0.
    pub fn below(&mut self, bound: usize) -> usize {
        let Some(state) = self.state else {
            return bound / 2;
        };
        let next = state.wrapping_mul(1_664_525).wrapping_add(1_013_904_223);
        self.state = Some(next);
        ((next >> 16) as usize).checked_rem(bound).unwrap_or(0)
    }

    /// A range of at most `width` bytes of a text, from the byte `front` on and up to the byte `rear`, which
    /// are boundaries of its characters, as its ends are.
    pub fn range(&mut self, text: &str, front: usize, rear: usize, width: usize) -> (usize, usize) {
        let places = rear.saturating_sub(front).saturating_add(1);
        let start = boundary(text, front.saturating_add(self.below(places)));
        let end = start.saturating_add(self.below(width.saturating_add(1)));
        (start, boundary(text, end.min(rear)))
    }
}

/// The last boundary of a character up to a byte.
pub fn boundary(text: &str, byte: usize) -> usize {
    for at in (1..byte.saturating_add(1)).rev() {
        if text.is_char_boundary(at) {
            return at;
        }
    }
    0
}
