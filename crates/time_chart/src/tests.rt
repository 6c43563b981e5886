//! Texts that were worked out by hand from the rules of `docs/PICTURE.md`.

use crate::canvas::Place;
use crate::chart::{Row, Section, Span};
use crate::drawing::write_rows;
use crate::elements::{Lettering, Look, write_bar, write_shape, write_words};
use crate::laws::elements_are_within;
use crate::sheet::write_sheet;
use app_graph::ListOf;
use std::alloc::{AllocError, Global};
use std::test::Fail;
use ttw_text::Out;

/// A text of its own.
fn text(alloc: Global, bytes: &[u8]) -> Result<Out, AllocError> {
    let mut out = Out::make(alloc);
    out.put(bytes)?;
    Ok(out)
}

/// A place.
fn place(x: u64, y: u64, width: u64, height: u64) -> Place {
    Place {
        x,
        y,
        width,
        height,
    }
}

#[test]
fn writes_rectangles(rt: HostRuntime) -> Result<(), Fail> {
    let mut out = Out::make(rt.alloc());
    write_shape(Look::Grid, place(700, 80, 1, 48), &mut out)?;
    write_bar(Look::Slot, place(220, 84, 2, 16), b"m", 0, 2, &mut out)?;
    let wanted =
        b"<rect class=\"grid\" x=\"700\" y=\"80\" width=\"1\" height=\"48\"/>\n<rect class=\"slot\" x=\"220\" y=\"84\" width=\"2\" height=\"16\"><title>m 0 to 2</title></rect>\n";
    assert_eq!(rt; out.bytes(), wanted.as_slice());
    Ok(())
}

#[test]
fn writes_texts(rt: HostRuntime) -> Result<(), Fail> {
    let mut out = Out::make(rt.alloc());
    write_words(Lettering::Inside, place(220, 80, 96, 24), b"m1", &mut out)?;
    let name = place(108, 80, 104, 24);
    write_words(Lettering::Name, name, b"abcdefghijklmn", &mut out)?;
    write_words(Lettering::Name, name, b"abcdefghijklmno", &mut out)?;
    let wanted =
        b"<text class=\"inside\" x=\"268\" y=\"96\">m1</text>\n<text class=\"name\" x=\"108\" y=\"96\">abcdefghijklmn</text>\n<text class=\"name\" x=\"108\" y=\"96\" textLength=\"104\" lengthAdjust=\"spacingAndGlyphs\">abcdefghijklmno</text>\n";
    assert_eq!(rt; out.bytes(), wanted.as_slice());
    Ok(())
}

#[test]
fn goes_on_at_the_beginning(rt: HostRuntime) -> Result<(), Fail> {
    let alloc = rt.alloc();
    let mut spans = Vec::new(alloc);
    spans.push(Span {
        look: Look::Run,
        name: text(alloc, b"t")?,
        start: 2900,
        length: 200,
        period: 1000,
    })?;
    let mut rows = Vec::new(alloc);
    rows.push(Row {
        lane: text(alloc, b"node n1")?,
        name: Out::make(alloc),
        spans: ListOf::from_vec(spans),
    })?;
    let mut out = Out::make(alloc);
    write_rows(1000, 80, rows.as_slice(), &mut out)?;
    let wanted =
        b"<rect class=\"line\" x=\"8\" y=\"80\" width=\"1224\" height=\"1\"/>\n<text class=\"lane\" x=\"8\" y=\"96\">node n1</text>\n<rect class=\"run\" x=\"1084\" y=\"84\" width=\"96\" height=\"16\"><title>t 900 to 1100</title></rect>\n<rect class=\"run\" x=\"220\" y=\"84\" width=\"96\" height=\"16\"><title>t 900 to 1100</title></rect>\n";
    assert_eq!(rt; out.bytes(), wanted.as_slice());
    Ok(())
}

#[test]
fn writes_a_sheet_without_charts(rt: HostRuntime) -> Result<(), Fail> {
    let alloc = rt.alloc();
    let mut sections = Vec::new(alloc);
    sections.push(Section {
        heading: text(alloc, b"mode a")?,
        chart: None,
    })?;
    let mut out = Out::make(alloc);
    write_sheet(alloc, sections.as_slice(), &mut out)?;
    let head =
        b"<svg xmlns=\"http://www.w3.org/2000/svg\" viewBox=\"0 0 1240 96\" width=\"1240\" height=\"96\" font-family=\"monospace\" font-size=\"11\">\n<style>text{";
    let rest =
        b"</style>\n<rect class=\"paper\" x=\"0\" y=\"0\" width=\"1240\" height=\"96\"/>\n<rect class=\"round\" x=\"220\" y=\"10\" width=\"24\" height=\"20\"/>\n<text class=\"name\" x=\"252\" y=\"24\">round</text>\n<rect class=\"slot\" x=\"370\" y=\"12\" width=\"24\" height=\"16\"/>\n<text class=\"name\" x=\"402\" y=\"24\">slot in use</text>\n<rect class=\"window\" x=\"520\" y=\"16\" width=\"24\" height=\"8\"/>\n<text class=\"name\" x=\"552\" y=\"24\">message window</text>\n<rect class=\"run\" x=\"670\" y=\"12\" width=\"24\" height=\"16\"/>\n<text class=\"name\" x=\"702\" y=\"24\">task runs</text>\n<text class=\"heading\" x=\"8\" y=\"64\">mode a</text>\n</svg>\n";
    assert!(rt; out.bytes().starts_with(head));
    assert!(rt; out.bytes().ends_with(rest));
    elements_are_within();
    Ok(())
}
