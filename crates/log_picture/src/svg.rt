//! The elements of a picture.

use std::alloc::AllocError;
use std::fmt::{self, Write};

/// How an element is coloured.
#[derive(Clone, Copy, Debug, PartialEq, Eq)]
pub enum Tone {
    /// A yes.
    Yes,
    /// A no.
    No,
    /// A code.
    Fault,
    /// No answer yet.
    Pending,
    /// Any other answer.
    Plain,
    /// What is there between entries.
    Quiet,
}

impl Tone {
    /// Its colour.
    pub fn colour(self) -> &'static str {
        match self {
            Tone::Yes => "#1a7f37",
            Tone::No => "#cf222e",
            Tone::Fault => "#bc4c00",
            Tone::Pending => "#6e7781",
            Tone::Plain => "#24292f",
            Tone::Quiet => "#d0d7de",
        }
    }
}

/// Bytes as text of XML: a byte that isn't printable ASCII is a question mark.
#[derive(Clone, Copy)]
pub struct Escaped<'a>(pub &'a [u8]);

impl fmt::Display for Escaped<'_> {
    fn fmt<W: fmt::Write>(&self, f: &mut fmt::Formatter<W>) -> fmt::Result {
        for byte in self.0 {
            match *byte {
                b'<' => write!(f, "&lt;")?,
                b'>' => write!(f, "&gt;")?,
                b'&' => write!(f, "&amp;")?,
                b'"' => write!(f, "&quot;")?,
                byte if byte.is_ascii_graphic() || byte == b' ' => {
                    write!(f, "{}", char::from(byte))?;
                }
                _ => write!(f, "?")?,
            }
        }
        Ok(())
    }
}

/// A point of a picture.
#[derive(Clone, Copy, Debug, PartialEq, Eq)]
pub struct Point {
    pub x: usize,
    pub y: usize,
}

/// Appends a line from one point to another; a dashed one for what is pending.
pub fn line(svg: &mut String, from: Point, to: Point, tone: Tone) -> Result<(), AllocError> {
    let dashes = match tone {
        Tone::Pending => " stroke-dasharray=\"4 3\"",
        _ => "",
    };
    let colour = tone.colour();
    write!(
        svg,
        "<line x1=\"{}\" y1=\"{}\" x2=\"{}\" y2=\"{}\" stroke=\"{colour}\"{dashes}/>\n",
        from.x, from.y, to.x, to.y
    )
}

/// Appends a dot: a ring for what is pending.
pub fn dot(svg: &mut String, at: Point, tone: Tone) -> Result<(), AllocError> {
    let colour = tone.colour();
    let fill = match tone {
        Tone::Pending => "#ffffff",
        _ => colour,
    };
    write!(
        svg,
        "<circle cx=\"{}\" cy=\"{}\" r=\"4\" fill=\"{fill}\" stroke=\"{colour}\"/>\n",
        at.x, at.y
    )
}

/// Appends a cross, where a network socket is closed.
pub fn cross(svg: &mut String, at: Point) -> Result<(), AllocError> {
    let (left, right) = (at.x.saturating_sub(4), at.x.saturating_add(4));
    let (top, bottom) = (at.y.saturating_sub(4), at.y.saturating_add(4));
    let colour = Tone::Plain.colour();
    write!(
        svg,
        "<path d=\"M{left} {top}L{right} {bottom}M{left} {bottom}L{right} {top}\" stroke=\"{colour}\" stroke-width=\"2\"/>\n"
    )
}

/// Appends the mark where a network socket that is open isn't drawn any further.
pub fn goes_on(svg: &mut String, at: Point) -> Result<(), AllocError> {
    let (left, right) = (at.x.saturating_sub(4), at.x.saturating_add(4));
    let top = at.y.saturating_sub(4);
    let colour = Tone::Pending.colour();
    write!(
        svg,
        "<path d=\"M{left} {top}L{} {}L{right} {top}\" fill=\"none\" stroke=\"{colour}\"/>\n",
        at.x, at.y
    )
}

/// Appends the curve from a yes to the call that it allows.
pub fn allows(svg: &mut String, yes: Point, call: Point) -> Result<(), AllocError> {
    let colour = Tone::Yes.colour();
    let (x, y) = (call.x, yes.y);
    write!(
        svg,
        "<path d=\"M{} {}Q{x} {y} {} {}\" fill=\"none\" stroke=\"{colour}\" stroke-width=\"2\" stroke-opacity=\"0.6\"/>\n",
        yes.x, yes.y, call.x, call.y
    )
}

/// Appends a text that begins at a point.
pub fn text(svg: &mut String, at: Point, tone: Tone, bytes: &[u8]) -> Result<(), AllocError> {
    let colour = tone.colour();
    let escaped = Escaped(bytes);
    write!(
        svg,
        "<text x=\"{}\" y=\"{}\" fill=\"{colour}\">{escaped}</text>\n",
        at.x, at.y
    )
}

/// Appends a text whose middle is at a point.
pub fn label(svg: &mut String, at: Point, bytes: &[u8]) -> Result<(), AllocError> {
    let escaped = Escaped(bytes);
    write!(
        svg,
        "<text x=\"{}\" y=\"{}\" text-anchor=\"middle\">{escaped}</text>\n",
        at.x, at.y
    )
}
