//! Sheets of charts.

ghost use Rattle.std.specs.Prelude.{◌≡◌, ◌++◌, ◌≤◌, IfOk, OnOk};
ghost use Rattle.time_chart.specs.Drawing as drawing;
ghost use Rattle.time_chart.specs.Drawing.{chart_elements, chart_height, head, key, keys, part_elements, section_elements, sections_from, sheet_text, style};
ghost use Rattle.time_chart.specs.Elements.{svg};

use crate::canvas::{Place, WIDTH, below, rows_height};
use crate::chart::{Chart, Section};
use crate::drawing::{write_axis, write_grid, write_rows};
use crate::elements::{Lettering, Look, write_numbered, write_shape, write_words};
use std::alloc::{AllocError, Global};
use ttw_text::Out;

/// Where the first section begins.
const TOP: u64 = 48;

/// How far below its heading a chart begins.
const HEADED: u64 = 32;

/// How high a section without a chart is.
const BARE: u64 = 48;

/// How high a section is without its rows.
const AROUND: u64 = 80;

/// The longest hyperperiod, in ticks.
const LONGEST: u64 = 1_000_000_000_000;

/// The colours, by day and by night.
const STYLE: &str =
    "<style>text{fill:#1f2328}.heading{font-size:14px;font-weight:bold}.lane{font-weight:bold}.inside{fill:#ffffff;text-anchor:middle}.number{fill:#57606a;text-anchor:middle}.paper{fill:#ffffff}.line{fill:#8c959f}.grid{fill:#e4e8ec}.round{fill:#b6d4f5}.slot{fill:#1f5fa8}.window{fill:#f3c97b}.sent{fill:#1f5fa8}.run{fill:#2c7a4b}@media (prefers-color-scheme:dark){text{fill:#e6edf3}.inside{fill:#ffffff}.number{fill:#9198a1}.paper{fill:#0d1117}.line{fill:#656c76}.grid{fill:#262c36}.round{fill:#23436b}.slot{fill:#3d7fd0}.window{fill:#7a5a1c}.sent{fill:#3d7fd0}.run{fill:#3fa869}}</style>\n";

/// Adds the chart from `y` down.
fn write_chart(alloc: Global, y: u64, chart: &Chart, out: &mut Out) -> Result<(), AllocError>
    ensures { OnOk result (out.new ≡ out.old ++ svg (chart_elements y chart.now)) }
{
    let hyper = chart.hyper.max(1).min(LONGEST);
    let rows = chart.rows.as_slice();
    let height = rows_height(rows.len())?;
    write_grid(hyper, y, height, out)?;
    write_rows(hyper, y, rows, out)?;
    write_axis(alloc, hyper, below(y, height)?, out)
}

/// Adds the chart, where there is one, from `y` down.
fn write_part(alloc: Global, y: u64, chart: &Option<Chart>, out: &mut Out) -> Result<(), AllocError>
    ensures { OnOk result (out.new ≡ out.old ++ svg (part_elements y chart.now)) }
{
    match chart {
        Some(chart) => write_chart(alloc, y, chart, out),
        None => Ok(()),
    }
}

/// Adds the section from `y` down.
fn write_section(alloc: Global, y: u64, section: &Section, out: &mut Out) -> Result<(), AllocError>
    ensures { OnOk result (out.new ≡ out.old ++ svg (section_elements y section.now)) }
{
    let place = Place {
        x: 8,
        y,
        width: 1224,
        height: 24,
    };
    write_words(Lettering::Heading, place, section.heading.bytes(), out)?;
    write_part(alloc, below(y, HEADED)?, &section.chart, out)
}

/// How high a section with this chart is.
fn height_of(chart: &Option<Chart>) -> Result<u64, AllocError>
    ensures { IfOk result (λ n. n ≡ chart_height chart.now) }
{
    match chart {
        Some(chart) => below(AROUND, rows_height(chart.rows.as_slice().len())?),
        None => Ok(BARE),
    }
}

/// Adds the sections from `y` down.
fn write_sections(
    alloc: Global,
    y: u64,
    sections: &[Section],
    out: &mut Out,
) -> Result<(), AllocError>
    ensures { OnOk result (out.new ≡ out.old ++ svg (sections_from y sections.now)) }
{
    let mut top = y;
    for section in sections {
        write_section(alloc, top, section, out)?;
        top = below(top, height_of(&section.chart)?)?;
    }
    Ok(())
}

/// How high the sheet is.
fn sheet_height(sections: &[Section]) -> Result<u64, AllocError>
    ensures { IfOk result (λ n. n ≡ drawing.sheet_height sections.now) }
{
    let mut height = TOP;
    for section in sections {
        height = below(height, height_of(&section.chart)?)?;
    }
    Ok(height)
}

/// Adds what a colour stands for.
fn write_key(x: u64, look: Look, name: &str, out: &mut Out) -> Result<(), AllocError>
    requires { x ≤ 1000 }
    ensures { OnOk result (out.new ≡ out.old ++ svg (key x look name.now)) }
{
    let inset = look.inset();
    let colour = Place {
        x,
        y: 8 + inset,
        width: 24,
        height: 24 - (inset + inset),
    };
    write_shape(look, colour, out)?;
    let beside = Place {
        x: x + 32,
        y: 8,
        width: 112,
        height: 24,
    };
    write_words(Lettering::Name, beside, name.as_bytes(), out)
}

/// Adds what all colours stand for.
fn write_keys(out: &mut Out) -> Result<(), AllocError>
    ensures { OnOk result (out.new ≡ out.old ++ svg keys) }
{
    write_key(220, Look::Round, "round", out)?;
    write_key(370, Look::Slot, "slot in use", out)?;
    write_key(520, Look::Window, "message window", out)?;
    write_key(670, Look::Run, "task runs", out)
}

/// Adds the colours.
#[tactic(auto, unfolding(crate::specs::Drawing::style))]
fn write_style(out: &mut Out) -> Result<(), AllocError>
    ensures { OnOk result (out.new ≡ out.old ++ style) }
{
    out.put(STYLE.as_bytes())
}

/// Adds what stands before the elements.
fn write_head(height: u64, out: &mut Out) -> Result<(), AllocError>
    ensures { OnOk result (out.new ≡ out.old ++ head height) }
{
    write_numbered(
        b"<svg xmlns=\"http://www.w3.org/2000/svg\" viewBox=\"0 0 1240 ",
        height,
        out,
    )?;
    write_numbered(b"\" width=\"1240\" height=\"", height, out)?;
    out.put(b"\" font-family=\"monospace\" font-size=\"11\">\n")?;
    write_style(out)
}

/// Adds the SVG of a sheet: below a row that says what the colours stand for, its sections with
/// their headings and charts. Texts are put as they are, so one with `<` or `&` has to be given in
/// SVG's own spelling. A sheet that is 2^64 units high or more counts as want of memory. After an
/// `Err`, for want of memory, a part of it may have been added.
///
/// `docs/PICTURE.md` states how each element is drawn.
pub fn write_sheet(alloc: Global, sections: &[Section], out: &mut Out) -> Result<(), AllocError>
    ensures { OnOk result (out.new ≡ out.old ++ sheet_text sections.now) }
{
    let height = sheet_height(sections)?;
    write_head(height, out)?;
    let paper = Place {
        x: 0,
        y: 0,
        width: WIDTH,
        height,
    };
    write_shape(Look::Paper, paper, out)?;
    write_keys(out)?;
    write_sections(alloc, TOP, sections, out)?;
    out.put(b"</svg>\n")
}
