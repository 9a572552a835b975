//! A line, and its fields found in the line itself.
ghost use Rattle.std.specs.Prelude.{◌≡◌, ◌<◌, [], length, slice_index_or};
ghost use Rattle.casetext.specs.Text.{fields};
ghost use Rattle.casetext.specs.Items.{value};

use crate::text::read_number;

/// A line of a text, and its number from 1.
#[derive(Clone, Copy)]
pub(crate) struct Line<'a> {
    pub(crate) number: u32,
    pub(crate) bytes: &'a [u8],
}

impl<'a> Line<'a> {
    /// How many fields it has.
    pub(crate) fn field_count(&self) -> usize
        ensures { result ≡ length (fields self.now.bytes.now) }
    {
        let mut tabs = 0;
        for b in self.bytes {
            if *b == b'\t' {
                tabs += 1;
            }
        }
        tabs + 1
    }

    /// The i-th field from 0, which is empty where there is none.
    pub(crate) fn field(&self, i: usize) -> &'a [u8]
        ensures { result.now ≡ slice_index_or (fields self.now.bytes.now) i [] }
    {
        self.bytes.split(|b| *b == b'\t').nth(i).unwrap_or(&[])
    }

    /// The number up to a limit that the i-th field is, or 0.
    pub(crate) fn value(&self, i: usize, limit: u16) -> u16
        ensures { result ≡ value limit (slice_index_or (fields self.now.bytes.now) i []) }
    {
        read_number(self.field(i), 0, limit).unwrap_or(0)
    }

    /// The same for numbers below 256.
    pub(crate) fn small_value(&self, i: usize, limit: u16) -> u8
        requires { limit < 256 }
        ensures { result ≡ value limit (slice_index_or (fields self.now.bytes.now) i []) }
    {
        self.value(i, limit) as u8
    }
}
