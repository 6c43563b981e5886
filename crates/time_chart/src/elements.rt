//! The elements of a drawing, as SVG.

ghost use Rattle.std.specs.Prelude.{◌≡◌, ◌++◌, ◌+◌, ◌<◌, ◌^◌, OnOk};
ghost use Rattle.ttw_text.specs.Numbers.{spelled};
ghost use Rattle.time_chart.specs.Elements as elements;
ghost use Rattle.time_chart.specs.Elements.{bar_text, fixed, place_text, rectangle_text, shape_text, squeeze, squeezed, told, words_text};

use crate::canvas::{Place, below};
use std::alloc::AllocError;
use ttw_text::Out;

/// How far below the upper side of its place a text stands.
const BASE: u64 = 16;

/// How a rectangle is drawn.
#[derive(Clone, Copy, Debug, PartialEq, Eq, Drop)]
pub enum Look {
    /// The whole canvas.
    Paper,
    /// The line above a lane.
    Line,
    /// The line at a tick.
    Grid,
    /// A round.
    Round,
    /// A slot of a round.
    Slot,
    /// A window of a message.
    Window,
    /// The slot in which a message is sent.
    Sent,
    /// A run of a task.
    Run,
}

impl Look {
    /// The name of its class.
    pub(crate) fn class(self) -> &'static str
        ensures { result.now ≡ elements.look_class self }
    {
        match self {
            Look::Paper => "paper",
            Look::Line => "line",
            Look::Grid => "grid",
            Look::Round => "round",
            Look::Slot => "slot",
            Look::Window => "window",
            Look::Sent => "sent",
            Look::Run => "run",
        }
    }

    /// How far it stays away from the upper and the lower side of its row.
    pub(crate) fn inset(self) -> u64
        ensures value { result ≡ elements.inset self }
        ensures most { result + result < 24 }
    {
        match self {
            Look::Round => 2,
            Look::Window => 8,
            Look::Slot | Look::Sent | Look::Run => 4,
            Look::Paper | Look::Line | Look::Grid => 0,
        }
    }
}

/// How a text is set.
#[derive(Clone, Copy, Debug, PartialEq, Eq, Drop)]
pub(crate) enum Lettering {
    /// A heading.
    Heading,
    /// The name of a lane.
    Lane,
    /// The name of a row, or of a colour.
    Name,
    /// A name in the middle of a bar.
    Inside,
    /// A number in the middle below a tick.
    Number,
}

impl Lettering {
    /// The name of its class.
    pub(crate) fn class(self) -> &'static str
        ensures { result.now ≡ elements.lettering_class self }
    {
        match self {
            Lettering::Heading => "heading",
            Lettering::Lane => "lane",
            Lettering::Name => "name",
            Lettering::Inside => "inside",
            Lettering::Number => "number",
        }
    }

    /// How many units a letter takes.
    pub(crate) fn letter(self) -> u64
        ensures { result ≡ elements.letter self }
    {
        match self {
            Lettering::Heading => 9,
            _ => 7,
        }
    }

    /// How far right of its place's left side a text of this lettering is fixed, where the place is so wide.
    fn anchor(self, width: u64) -> u64
        ensures { result ≡ elements.anchor self width }
    {
        match self {
            Lettering::Inside | Lettering::Number => width / 2,
            _ => 0,
        }
    }
}

/// Adds some words and a number.
pub(crate) fn write_numbered(words: &[u8], number: u64, out: &mut Out) -> Result<(), AllocError>
    ensures { OnOk result (out.new ≡ out.old ++ (words.now ++ spelled number)) }
{
    out.put(words)?;
    out.number(number)
}

/// Adds the attributes of a place.
#[tactic(auto, unfolding(crate::specs::Elements::place_text))]
fn write_place(place: Place, out: &mut Out) -> Result<(), AllocError>
    ensures { OnOk result (out.new ≡ out.old ++ place_text place) }
{
    write_numbered(b" x=\"", place.x, out)?;
    write_numbered(b"\" y=\"", place.y, out)?;
    write_numbered(b"\" width=\"", place.width, out)?;
    write_numbered(b"\" height=\"", place.height, out)?;
    out.put(b"\"")
}

/// Adds the beginning of a rectangle.
#[tactic(auto, unfolding(crate::specs::Elements::rectangle_text))]
fn write_rectangle(look: Look, place: Place, out: &mut Out) -> Result<(), AllocError>
    ensures { OnOk result (out.new ≡ out.old ++ rectangle_text look place) }
{
    out.put(b"<rect class=\"")?;
    out.put(look.class().as_bytes())?;
    out.put(b"\"")?;
    write_place(place, out)
}

/// Adds a rectangle.
#[tactic(auto, unfolding(crate::specs::Elements::shape_text))]
pub(crate) fn write_shape(look: Look, place: Place, out: &mut Out) -> Result<(), AllocError>
    ensures { OnOk result (out.new ≡ out.old ++ shape_text look place) }
{
    write_rectangle(look, place, out)?;
    out.put(b"/>\n")
}

/// Adds a name and its ticks.
#[tactic(auto, unfolding(crate::specs::Elements::told))]
fn write_told(name: &[u8], from: u64, until: u64, out: &mut Out) -> Result<(), AllocError>
    ensures { OnOk result (out.new ≡ out.old ++ told name.now from until) }
{
    out.put(name)?;
    write_numbered(b" ", from, out)?;
    write_numbered(b" to ", until, out)
}

/// Adds a rectangle that tells its name and its ticks.
#[tactic(auto, unfolding(crate::specs::Elements::bar_text))]
pub(crate) fn write_bar(
    look: Look,
    place: Place,
    name: &[u8],
    from: u64,
    until: u64,
    out: &mut Out,
) -> Result<(), AllocError>
    ensures { OnOk result (out.new ≡ out.old ++ bar_text look place name.now from until) }
{
    write_rectangle(look, place, out)?;
    out.put(b"><title>")?;
    write_told(name, from, until, out)?;
    out.put(b"</title></rect>\n")
}

/// Adds the attributes that squeeze a text into this width.
#[tactic(auto, unfolding(crate::specs::Elements::squeeze))]
fn write_squeeze(width: u64, out: &mut Out) -> Result<(), AllocError>
    ensures { OnOk result (out.new ≡ out.old ++ squeeze width) }
{
    write_numbered(b"\" textLength=\"", width, out)?;
    out.put(b"\" lengthAdjust=\"spacingAndGlyphs\">")
}

/// Adds the end of a text's attributes, which squeezes it where it is too long.
#[tactic(auto, unfolding(crate::specs::Elements::squeezed))]
fn write_squeezed(
    lettering: Lettering,
    width: u64,
    text: &[u8],
    out: &mut Out,
) -> Result<(), AllocError>
    ensures { OnOk result (out.new ≡ out.old ++ squeezed lettering width text.now) }
{
    if text.len() as u64 <= width / lettering.letter() {
        return out.put(b"\">");
    }
    write_squeeze(width, out)
}

/// Adds the beginning of a text, up to where it is fixed.
#[tactic(auto, unfolding(crate::specs::Elements::fixed))]
fn write_fixed(lettering: Lettering, place: Place, out: &mut Out) -> Result<(), AllocError>
    ensures { OnOk result (out.new ≡ out.old ++ fixed lettering place) }
{
    let x = below(place.x, lettering.anchor(place.width))?;
    let y = below(place.y, BASE)?;
    out.put(b"<text class=\"")?;
    out.put(lettering.class().as_bytes())?;
    write_numbered(b"\" x=\"", x, out)?;
    write_numbered(b"\" y=\"", y, out)
}

/// Adds a text in a place.
#[tactic(auto, unfolding(crate::specs::Elements::words_text))]
pub(crate) fn write_words(
    lettering: Lettering,
    place: Place,
    text: &[u8],
    out: &mut Out,
) -> Result<(), AllocError>
    ensures { OnOk result (out.new ≡ out.old ++ words_text lettering place text.now) }
{
    write_fixed(lettering, place, out)?;
    write_squeezed(lettering, place.width, text, out)?;
    out.put(text)?;
    out.put(b"</text>\n")
}
