//! The shapes of a picture, as text in SVG. Places from left to right are in tenths of a pixel, those from the top in pixels. The class of a shape
//! is a word of the style.

use std::alloc::{AllocError, Global};
use std::fmt;

/// The colours of eight processors, which further ones take in turn, and those of the kinds of requests.
const STYLE: &str =
    "text{font:11px sans-serif;fill:#222}.h{font-size:14px;font-weight:bold}.s{font-size:9px}.end{text-anchor:end}
.p0{fill:#a6c8ea}.p1{fill:#f8cd9b}.p2{fill:#b3dca9}.p3{fill:#f2b3b0}.p4{fill:#d2bfe6}.p5{fill:#d9c2b0}.p6{fill:#f4c4e2}.p7{fill:#d5d58b}
.call{stroke:#1f5fbf;fill:#1f5fbf}.cast{stroke:#0e8f8f;fill:#0e8f8f}.get{stroke:#2c8a2c;fill:#2c8a2c}.put{stroke:#d2691e;fill:#d2691e}
.make{stroke:#8a2be2;fill:#8a2be2}.none{stroke:#888;fill:#888}.a{stroke-width:1.2;fill:none;opacity:.8}.head{stroke:none}
.b{stroke:#fff;stroke-width:.8}.band{fill:#f4f6f8}.grid{stroke:#dde2e7}.wait{stroke:#555;stroke-dasharray:2 3}.stop{stroke:#222;stroke-width:1.5}
.cut{stroke:#d00;stroke-dasharray:6 3}.fault{stroke:#d00;stroke-width:2.5}
";

/// A number of tenths, as a decimal.
#[derive(Clone, Copy)]
struct Tenths(u64);

impl fmt::Display for Tenths {
    fn fmt<W: fmt::Write>(&self, f: &mut fmt::Formatter<W>) -> fmt::Result {
        write!(f, "{}.{}", self.0 / 10, self.0 % 10)
    }
}

/// A place: in tenths of a pixel from the left, and in pixels from the top.
#[derive(Clone, Copy)]
pub(crate) struct Place {
    pub x: u64,
    pub y: u64,
}

/// A picture that is being written.
#[derive(Drop)]
pub(crate) struct Svg {
    text: String,
}

impl Svg {
    /// A white picture of this width, in tenths of a pixel, and height.
    pub(crate) fn new(
        alloc: Global,
        width: u64,
        height: u64,
        title: &str,
    ) -> Result<Svg, AllocError> {
        let mut text = String::new(alloc);
        let wide = Tenths(width);
        write!(
            text,
            "<svg xmlns=\"http://www.w3.org/2000/svg\" width=\"{wide}\" height=\"{height}\" "
        )?;
        writeln!(text, "viewBox=\"0 0 {wide} {height}\">")?;
        writeln!(text, "<title>{title}</title>")?;
        writeln!(text, "<style>{STYLE}</style>")?;
        text.push_str("<rect width=\"100%\" height=\"100%\" fill=\"#fff\"/>\n")?;
        Ok(Svg { text })
    }

    /// The text of the picture.
    pub(crate) fn end(self) -> Result<String, AllocError> {
        let mut text = self.text;
        text.push_str("</svg>\n")?;
        Ok(text)
    }

    /// The head of the arrows of a kind of requests.
    pub(crate) fn arrowhead(&mut self, kind: &str) -> Result<(), AllocError> {
        write!(
            self.text,
            "<marker id=\"{kind}\" viewBox=\"0 0 8 8\" refX=\"7\" refY=\"4\" markerWidth=\"7\" markerHeight=\"7\" orient=\"auto\">"
        )?;
        writeln!(
            self.text,
            "<path class=\"{kind} head\" d=\"M0 0L8 4L0 8z\"/></marker>"
        )
    }

    /// An arrow for a request of this kind.
    pub(crate) fn arrow(&mut self, from: Place, to: Place, kind: &str) -> Result<(), AllocError> {
        let (x1, x2) = (Tenths(from.x), Tenths(to.x));
        writeln!(
            self.text,
            "<path class=\"{kind} a\" d=\"M{x1} {}L{x2} {}\" marker-end=\"url(#{kind})\"/>",
            from.y, to.y
        )
    }

    /// A straight line.
    pub(crate) fn line(&mut self, from: Place, to: Place, class: &str) -> Result<(), AllocError> {
        let (x1, x2) = (Tenths(from.x), Tenths(to.x));
        writeln!(
            self.text,
            "<path class=\"{class}\" d=\"M{x1} {}L{x2} {}\"/>",
            from.y, to.y
        )
    }

    /// A rectangle down to the place `to`, which shows a note where it is pointed at.
    pub(crate) fn rectangle(
        &mut self,
        from: Place,
        to: Place,
        class: &str,
        note: &str,
    ) -> Result<(), AllocError> {
        let (x, width) = (Tenths(from.x), Tenths(to.x.saturating_sub(from.x)));
        let height = to.y.saturating_sub(from.y);
        writeln!(
            self.text,
            "<rect class=\"{class}\" x=\"{x}\" y=\"{}\" width=\"{width}\" height=\"{height}\"><title>{note}</title></rect>",
            from.y
        )
    }

    /// A figure about a place, which is drawn by this path.
    pub(crate) fn figure(
        &mut self,
        at: Place,
        path: &str,
        class: &str,
        note: &str,
    ) -> Result<(), AllocError> {
        let x = Tenths(at.x);
        writeln!(
            self.text,
            "<path class=\"{class}\" transform=\"translate({x} {})\" d=\"{path}\"><title>{note}</title></path>",
            at.y
        )
    }

    /// A text at a place.
    pub(crate) fn text(&mut self, at: Place, class: &str, text: &str) -> Result<(), AllocError> {
        let x = Tenths(at.x);
        writeln!(
            self.text,
            "<text class=\"{class}\" x=\"{x}\" y=\"{}\">{text}</text>",
            at.y
        )
    }
}
