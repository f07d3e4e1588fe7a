//! Frames that are fed, as they grow.

use std::alloc::{AllocError, Global};

/// Frames, as they grow.
#[derive(Drop)]
pub(crate) struct Frames {
    pub(crate) bytes: Vec<u8>,
}

impl Frames {
    pub(crate) fn new(alloc: Global) -> Frames {
        Frames {
            bytes: Vec::new(alloc),
        }
    }

    fn put(&mut self, bytes: &[u8]) -> Result<(), AllocError> {
        Ok(self.bytes.extend_from_slice(bytes)?)
    }

    fn byte(&mut self, value: u8) -> Result<(), AllocError> {
        self.put(&[value])
    }

    fn number(&mut self, value: u32) -> Result<(), AllocError> {
        self.put(&value.to_be_bytes())
    }

    fn large(&mut self, value: u64) -> Result<(), AllocError> {
        self.put(&value.to_be_bytes())
    }

    fn text(&mut self, value: &str) -> Result<(), AllocError> {
        self.large(value.len() as u64)?;
        self.put(value.as_bytes())
    }

    fn head(&mut self, ty: u16, body: usize) -> Result<(), AllocError> {
        self.put(&ty.to_be_bytes())?;
        self.large(body as u64)
    }

    /// A Start of the invocation "abc" with this number of known entries, and an Input.
    pub(crate) fn start(&mut self, known: u32, is_partial: bool) -> Result<(), AllocError> {
        self.head(1, 0x42)?;
        self.text("abc")?;
        self.text("abc")?;
        self.text("")?;
        self.number(known)?;
        self.large(0)?;
        self.byte(if is_partial { 1 } else { 0 })?;
        self.put(&[0; 23])?;
        self.head(10, 21)?;
        self.text("")?;
        self.text("input")
    }

    /// A recorded sleep of this id.
    pub(crate) fn sleep(&mut self, id: u32) -> Result<(), AllocError> {
        self.head(18, 20)?;
        self.large(1000)?;
        self.number(id)?;
        self.text("")
    }

    /// A completion of this id: void.
    pub(crate) fn completed(&mut self, id: u32) -> Result<(), AllocError> {
        self.head(30, 6)?;
        self.byte(0)?;
        self.number(id)?;
        self.byte(0)
    }

    /// A completion of this id: a value of this form.
    pub(crate) fn completed_by(
        &mut self,
        id: u32,
        form: u8,
        value: &str,
    ) -> Result<(), AllocError> {
        self.head(30, value.len().saturating_add(14))?;
        self.byte(0)?;
        self.number(id)?;
        self.byte(form)?;
        self.text(value)
    }

    /// A delivery of the signal "a": "value".
    pub(crate) fn delivered(&mut self) -> Result<(), AllocError> {
        self.head(30, 24)?;
        self.byte(2)?;
        self.text("a")?;
        self.byte(1)?;
        self.text("value")
    }

    /// What came of the run of this id was kept.
    pub(crate) fn acknowledged(&mut self, id: u32) -> Result<(), AllocError> {
        self.head(6, 4)?;
        self.number(id)
    }
}
