//! What a row wants of a call, and where a call leaves something else.
use crate::call::Left;
use std::alloc::{AllocError, Global};

/// How a text is wanted: this one, one that ends so, one that has these lines, or any.
#[derive(Clone, Copy)]
pub enum How {
    Whole,
    End,
    Lines,
    Any,
}

#[derive(Drop)]
pub struct WantedText {
    pub how: How,
    pub text: Vec<u8>,
}

/// What is wanted of a call's status and its two streams.
#[derive(Drop)]
pub struct Wanted {
    pub status: u64,
    pub out: WantedText,
    pub err: WantedText,
}

impl WantedText {
    fn none(alloc: Global) -> WantedText {
        WantedText {
            how: How::Whole,
            text: Vec::new(alloc),
        }
    }

    fn is_met(&self, found: &[u8]) -> bool {
        let text = self.text.as_slice();
        match self.how {
            How::Whole => found == text,
            How::End => found.ends_with(text),
            How::Lines => text
                .split(|byte| *byte == b'\n')
                .all(|line| line.is_empty() || has_line(found, line)),
            How::Any => true,
        }
    }

    // Tells the first line at which the text that was found isn't the one that is wanted.
    fn tell(
        &self,
        alloc: Global,
        told: &mut String,
        name: &str,
        found: &[u8],
    ) -> Result<(), AllocError> {
        if self.is_met(found) {
            return Ok(());
        }
        let mut wants = self.text.split(|byte| *byte == b'\n');
        for (before, line) in found.split(|byte| *byte == b'\n').enumerate() {
            let want = wants.next().unwrap_or(b"");
            if want != line {
                let number = before.saturating_add(1);
                let line = String::from_utf8_lossy(alloc, line)?;
                let want = String::from_utf8_lossy(alloc, want)?;
                return write!(told, ", {name} line {number} `{line}` and not `{want}`");
            }
        }
        let want = String::from_utf8_lossy(alloc, wants.next().unwrap_or(b""))?;
        write!(told, ", {name} ends before `{want}`")
    }
}

fn has_line(text: &[u8], wanted: &[u8]) -> bool {
    text.split(|byte| *byte == b'\n').any(|line| line == wanted)
}

impl Wanted {
    /// Success, and nothing on either stream.
    pub fn none(alloc: Global) -> Wanted {
        Wanted {
            status: 0,
            out: WantedText::none(alloc),
            err: WantedText::none(alloc),
        }
    }

    /// Tells what of a call isn't as it is wanted.
    pub fn tell(&self, alloc: Global, told: &mut String, left: &Left) -> Result<(), AllocError> {
        let status = u64::from(left.status);
        if status != self.status {
            write!(told, ", status {status} and not {}", self.status)?;
        }
        self.out.tell(alloc, told, "out", left.out.as_slice())?;
        self.err.tell(alloc, told, "err", left.err.as_slice())
    }
}
