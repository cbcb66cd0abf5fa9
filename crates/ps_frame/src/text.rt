// The texts of cells.
ghost use Rattle.std.specs.Prelude.{◌≡◌, ◌↔◌, IfOk, IsTrue, OnErr, Err};
ghost use Rattle.ps_frame.specs.Texts.{bytes_of};

use crate::error::FrameError;
use arrayvec::ArrayString;
use pu_base::PlSmallStr;
use std::alloc::Global;
use std::fmt;
use std::marker::Model;
use std::sync::Arc;

// So many bytes take one allocation.
const SHORT: usize = 24;

/// The text of a cell, seen as its bytes. Where it stands it takes 8 bytes, as a whole number does, so
/// that a column of numbers pays nothing for texts; its bytes lie elsewhere, and its clones share them, so
/// that a long text in many rows takes its bytes once.
#[derive(Drop)]
pub struct CellText {
    text: Arc<Content>,
}

/// A short text in its place, or a longer one that takes a second allocation.
#[derive(Drop)]
enum Content {
    Short(ArrayString<SHORT>),
    Long(PlSmallStr),
}

impl Model for CellText {
    ghost use Rattle.std.specs.Arc.{arc_value};
    ghost use Rattle.std.specs.Prelude.{List, ℕ};
    ghost use Rattle.ps_frame.specs.Texts.{bytes_of};

    ghost Value = { List ℕ };

    ghost view = { λ a. bytes_of (arc_value a.text) };
}

impl Content {
    fn of(alloc: Global, text: &str) -> Result<Content, FrameError>
        ensures same { IfOk result (λ content. bytes_of content ≡ text.now) }
        ensures memory { OnErr result (result ≡ Err FrameError.OutOfMemory) }
    {
        if let Ok(short) = ArrayString::from(text) {
            return Ok(Content::Short(short));
        }
        // A text's own error doesn't convert by `?`; it is want of memory alone.
        match PlSmallStr::from_str(alloc, text) {
            Ok(long) => Ok(Content::Long(long)),
            Err(_) => Err(FrameError::OutOfMemory),
        }
    }

    fn as_str(&self) -> &str
        ensures { result.now ≡ bytes_of self.now }
    {
        match self {
            Content::Short(text) => text.as_str(),
            Content::Long(text) => text.as_str(),
        }
    }
}

impl CellText {
    /// A copy of a text.
    ///
    /// Fails only for want of memory.
    pub fn from_str(alloc: Global, text: &str) -> Result<CellText, FrameError>
        ensures same { IfOk result (λ copy. copy ≡ text.now) }
        ensures memory { OnErr result (result ≡ Err FrameError.OutOfMemory) }
    {
        let content = Content::of(alloc, text)?;
        let text = Arc::new(alloc, content)?;
        Ok(CellText { text })
    }

    /// The same text, whose bytes are shared and not copied.
    ///
    /// Fails only for want of memory: where there are more owners than can be counted.
    pub fn try_clone(&self) -> Result<CellText, FrameError>
        ensures same { IfOk result (λ copy. copy ≡ self.now) }
        ensures memory { OnErr result (result ≡ Err FrameError.OutOfMemory) }
    {
        let text = Arc::try_clone(&self.text)?;
        Ok(CellText { text })
    }

    /// The text.
    pub fn as_str(&self) -> &str
        ensures { result.now ≡ self.now }
    {
        self.text.as_str()
    }

    /// The bytes of the text.
    pub fn as_bytes(&self) -> &[u8]
        ensures { result.now ≡ self.now }
    {
        self.as_str().as_bytes()
    }

    /// Whether this is the same text as another.
    pub fn eq_str(&self, other: &str) -> bool
        ensures { IsTrue result ↔ (self.now ≡ other.now) }
    {
        self.as_str() == other
    }
}

impl fmt::Debug for CellText {
    fn fmt<W: fmt::Write>(&self, f: &mut fmt::Formatter<W>) -> fmt::Result {
        fmt::Debug::fmt(self.as_str(), f)
    }
}
